// What a line of a list says: a call on a factory, or the making of one.
ghost use Rattle.std.specs.Prelude.{◌≡◌};
ghost use Rattle.factory_text.specs.Calls.{call_of, line_of, making_of, making_line_of};

use factory::Call;
use reader::{BadLine, read_numbers};

// The call that a line's numbers are: its number, and its arguments in order.
#[tactic(auto, using(crate::proofs::Calling::counted))]
fn call_of(numbers: &[u64]) -> Result<Call, BadLine>
    ensures { result ≡ call_of numbers.now }
{
    match *numbers {
        [1, claim] => Ok(Call::Arrive { claim }),
        [2, place] => Ok(Call::Leave { place }),
        [3] => Ok(Call::Day),
        _ => Err(BadLine),
    }
}

// The daily number that line one's numbers give.
#[tactic(auto, using(crate::proofs::Calling::making_counted))]
fn making_of(numbers: &[u64]) -> Result<u64, BadLine>
    ensures { result ≡ making_of numbers.now }
{
    match *numbers {
        [0, daily] => Ok(daily),
        _ => Err(BadLine),
    }
}

#[tactic(auto, unfolding(crate::specs::Calls::line_of))]
pub fn read_call(line: &[u8]) -> Result<Call, BadLine>
    ensures { result ≡ line_of line.now }
{
    let numbers = read_numbers(line)?;
    call_of(&numbers)
}

#[tactic(auto, unfolding(crate::specs::Calls::making_line_of))]
pub fn read_daily(line: &[u8]) -> Result<u64, BadLine>
    ensures { result ≡ making_line_of line.now }
{
    let numbers = read_numbers(line)?;
    making_of(&numbers)
}
