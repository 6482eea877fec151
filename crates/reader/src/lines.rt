// The lines of a text, and what a line says.
ghost use Rattle.std.specs.Prelude.{◌≡◌, ◌-◌, ◌≤◌, ◌<◌, eqb, length};
ghost use Rattle.std.specs.List.{position};
ghost use Rattle.reader.specs.Lines.{lines, later, line_length, call_of, line_of, opening_of, opening_line_of};

use crate::numbers::read_numbers;
use book::{Call, Opening, Refusal};
use coal::{Quality, Sample};

// "a line not of the form"
#[derive(Clone, Copy, PartialEq, Eq)]
pub struct BadLine;

// "26 a line not of the form"
impl From<BadLine> for Refusal {
    ghost use Rattle.book.specs.declared.refusals.Refusal.TheVariants.{BadLine as bad_line};

    ghost from_gives = { λ _ e. e ≡ bad_line };

    fn from(_line: BadLine) -> Refusal {
        Refusal::BadLine
    }
}

// The place of the first newline.
fn newline(text: &[u8]) -> Option<usize>
    ensures { result ≡ position (λ b. eqb b 10) text.now }
{
    text.iter().position(|b| *b == b'\n')
}

// "lines ended by one newline": how many bytes the first line has, with its newline.
#[tactic(auto, using(crate::proofs::Cutting::measured))]
pub fn line_length(text: &[u8]) -> usize
    ensures counted { result ≡ line_length text.now }
    ensures within { result ≤ length text.now }
    ensures some { 0 < length text.now → 0 < result }
{
    match newline(text) {
        Some(n) => n + 1,
        None => text.len(),
    }
}

// The lines after the first.
pub fn later_lines(text: &[u8]) -> &[u8]
    ensures within { length result.now ≤ length text.now - 1 }
    ensures lines { lines result.now ≡ later (lines text.now) }
{
    &text[line_length(text)..]
}

// The call that a line's numbers are: its number, and its arguments in order.
#[tactic(auto, using(crate::proofs::Calling::counted))]
fn call_of(numbers: &[u64]) -> Result<Call, BadLine>
    ensures { result ≡ call_of numbers.now }
{
    match *numbers {
        [1, residence, fitness] => Ok(Call::Join { residence, fitness }),
        [2, account, amount] => Ok(Call::Deposit { account, amount }),
        [3, account, amount] => Ok(Call::Withdraw { account, amount }),
        [4, buyer, seller, units] => Ok(Call::Trade {
            buyer,
            seller,
            units,
        }),
        [5, owner, class] => Ok(Call::Lodge { owner, class }),
        [6, owner, receipt] => Ok(Call::Strike { owner, receipt }),
        [7, account, heat] => Ok(Call::Declare { account, heat }),
        [8, seller, units] => Ok(Call::Offer { seller, units }),
        [9, seller] => Ok(Call::Retract { seller }),
        [10, buyer, seller] => Ok(Call::Take { buyer, seller }),
        [11, price] => Ok(Call::Day { price }),
        [12, budget] => Ok(Call::Close { budget }),
        [13, number] => Ok(Call::Pay { number }),
        [
            14,
            number,
            weight,
            heat,
            moisture,
            sulphur,
            volatiles,
            ash,
            due_weight,
        ] => Ok(Call::Measure {
            number,
            sample: Sample {
                weight,
                moisture,
                quality: Quality {
                    heat,
                    sulphur,
                    volatiles,
                    ash,
                },
            },
            due_weight,
        }),
        [15, number] => Ok(Call::Invoice { number }),
        [16, number, party] => Ok(Call::Terminate { number, party }),
        [17, number] => Ok(Call::HandOver { number }),
        [18, number, winner, proceeds] => Ok(Call::Auction {
            number,
            winner,
            proceeds,
        }),
        _ => Err(BadLine),
    }
}

// What line one's numbers open: what it shares with `call_of` is `read_numbers`.
#[tactic(auto, using(crate::proofs::Calling::opening_counted))]
fn opening_of(numbers: &[u64]) -> Result<Opening, BadLine>
    ensures { result ≡ opening_of numbers.now }
{
    match *numbers {
        [0, kind, tonnes, rate, price] => Ok(Opening {
            kind,
            tonnes,
            rate,
            price,
        }),
        _ => Err(BadLine),
    }
}

#[tactic(auto, unfolding(crate::specs::Lines::line_of))]
pub fn read_line(line: &[u8]) -> Result<Call, BadLine>
    ensures { result ≡ line_of line.now }
{
    let numbers = read_numbers(line)?;
    call_of(&numbers)
}

#[tactic(auto, unfolding(crate::specs::Lines::opening_line_of))]
pub fn read_opening(line: &[u8]) -> Result<Opening, BadLine>
    ensures { result ≡ opening_line_of line.now }
{
    let numbers = read_numbers(line)?;
    opening_of(&numbers)
}
