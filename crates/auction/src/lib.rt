// Call 18: Auction.
#![tactic(auto)]

ghost use Rattle.std.specs.Prelude.{◌≡◌, ◌<◌};
ghost use Rattle.book.specs.Answers.{outcome};
ghost use Rattle.book.specs.Settlement.{sold, unsold, auction};
ghost use Rattle.payments.specs.Money.{Due};

use book::{Amount, Book, Match, Month, Percent, Refusal, Stage};
use payments::{ValuedMatch, charge, free_again, handed, pay, set_stage};

// "the winner pays the proceeds to the buyer and takes the receipts, the seller gets 80% and the rest is held as before."
#[tactic(auto, unfolding(book::specs::Settlement::sold, book::specs::Tables::charge))]
fn sold(book: &mut Book, m: &ValuedMatch, winner: u8, proceeds: Amount)
    requires due { Due book.old m.now }
    requires winner_bound { winner < 32 }
    ensures { book.new ≡ sold book.old m.now.number m.now.row winner proceeds }
{
    charge(book, winner, proceeds);
    pay(book, m.row.buyer, proceeds);
    handed(book, m, winner);
}

// "the buyer gets V back, pays the seller 20% of V, down, the match is ended and the receipts are freed"
#[tactic(auto, unfolding(book::specs::Settlement::unsold, book::specs::Settlement::free_again, book::specs::Tables::pay, book::specs::Tables::charge))]
fn unsold(book: &mut Book, m: &ValuedMatch)
    requires { Due book.old m.now }
    ensures { book.new ≡ unsold book.old m.now.number m.now.row m.now.value }
{
    let Match { buyer, seller, .. } = m.row;
    let part = m.value.percent_down(Percent { value: 20 });
    pay(book, buyer, m.value);
    charge(book, buyer, part);
    pay(book, seller, part);
    set_stage(book, m.number, 0, Stage::Ended);
    free_again(book, m.number as u64);
}

// "Call 18 names match, winner and proceeds." "Proceeds of zero mean nobody bid": an Option in place of the 0 would be made here and taken apart here.
#[tactic(auto, using(reached::specs::Needs::calls), unfolding(book::specs::Settlement::auction, book::specs::Settlement::auctioned))]
pub fn auction(month: &mut Month, number: u64, winner: u64, proceeds: u64) -> Result<u64, Refusal>
    ensures { outcome result month.new ≡ auction month.old number winner proceeds }
{
    let taker = month.book.account_place(winner)?;
    let proceeds = Amount::try_from(proceeds)?;
    let m = ValuedMatch::of(month, number)?;
    if m.row.stage != Stage::Awaiting {
        return Err(Refusal::WrongStage);
    }
    if proceeds.fen == 0 {
        unsold(&mut month.book, &m);
        return Ok(0);
    }
    if month.book.accounts[taker].overseas {
        return Err(Refusal::OverseasWinner);
    }
    if month.book.accounts[taker].has_below(proceeds.fen) {
        return Err(Refusal::AboveWinnersCash);
    }
    sold(&mut month.book, &m, taker as u8, proceeds);
    Ok(0)
}
