// The numbers of a line, read once from its first byte to its last.
ghost use Rattle.std.specs.Prelude.{◌≡◌, ◌≤◌, ◌<◌, ◌⊎◌, [], ◌∷◌, ◌++◌, IsSome, IsNone, IfSome, IfOk, OnOk, OnErr};
ghost use Rattle.arrayvec.specs.ArrayVec.{array_vec_len};
ghost use Rattle.reader.specs.Numbers.{numbers, with_digit};

use crate::lines::BadLine;
use arrayvec::ArrayVec;

// The least number of 18 digits.
const EIGHTEEN_DIGITS: u64 = 100_000_000_000_000_000;

// "1 to 18 digits without leading zeros": a number, where one has begun, with one digit more.
fn with_digit(begun: Option<u64>, digit: u64) -> Result<u64, BadLine>
    requires { digit ≤ 9 }
    ensures { result ≡ with_digit begun digit }
{
    match begun {
        None => Ok(digit),
        Some(0) => Err(BadLine),
        Some(value) if value < EIGHTEEN_DIGITS => Ok(value * 10 + digit),
        Some(_) => Err(BadLine),
    }
}

// A number ends, where one has begun, and is put with the others: a line of the form has no more than nine.
fn push(numbers: &mut ArrayVec<u64, 9>, number: Option<u64>) -> Result<(), BadLine>
    ensures ok { OnOk result (IfSome number (λ x. (array_vec_len numbers.old < 9) × (numbers.new.items ≡ numbers.old.items ++ x ∷ [])) × IsSome number) }
    ensures bad { OnErr result (IsNone number ⊎ (array_vec_len numbers.old ≡ 9)) }
{
    numbers
        .try_push(number.ok_or(BadLine)?)
        .map_err(|_| BadLine)
}

// The numbers of a line; "lines ended by one newline .. one space between".
#[tactic(auto, using(crate::proofs::Reading::read))]
pub fn read_numbers(line: &[u8]) -> Result<ArrayVec<u64, 9>, BadLine>
    ensures read { IfOk result (λ v. (v.items ≡ numbers line.now) × (0 < array_vec_len v)) }
    ensures bad { OnErr result (numbers line.now ≡ []) }
{
    let [text @ .., b'\n'] = line else {
        return Err(BadLine);
    };
    let mut numbers = ArrayVec::new();
    let mut number = None;
    for b in text {
        match *b {
            b'0'..=b'9' => number = Some(with_digit(number, u64::from(*b - b'0'))?),
            b' ' => {
                push(&mut numbers, number)?;
                number = None;
            }
            _ => return Err(BadLine),
        }
    }
    push(&mut numbers, number)?;
    Ok(numbers)
}
