// A match that is settled: its number, its row and what it is worth.
ghost use Rattle.std.specs.Prelude.{◌≡◌, ◌≤◌, ◌<◌, IfOk, IfErr};
ghost use Rattle.book.specs.declared.refusals.Refusal.{Refusal};
ghost use Rattle.payments.specs.Money.{valued, Due};

use crate::value;
use book::{Amount, Match, Month, Refusal};

// What is known of it is `Due`, and no invariant of the struct: `Due` speaks of the book beside the match. A struct of both would have to keep it, while payments use up the room that it has.
#[derive(Clone, Copy)]
pub struct ValuedMatch {
    pub number: u8,
    pub row: Match,
    pub value: Amount,
}

impl ValuedMatch {
    // The match of a number, "21 no such match". Each call asks its stage by itself: one function of match and stage needs a definition of what it refuses and its law in each call, longer than they are.
    #[tactic(auto, using(reached::specs::Needs::calls, crate::proofs::Money::due_sound), unfolding(book::specs::Settlement::value))]
    pub fn of(month: &Month, number: u64) -> Result<ValuedMatch, Refusal>
        ensures there { IfOk result (λ m. (m ≡ valued month.now number) × (number < month.now.match_count) × Due month.now m) }
        ensures missing { IfErr result (λ e. (e ≡ Refusal.NoMatch) × (month.now.match_count ≤ number)) }
    {
        let j = month.book.match_place(number)?;
        let row = month.book.matches[j];
        Ok(ValuedMatch {
            number: j as u8,
            row,
            value: value(&row, month.book.tonnes),
        })
    }
}
