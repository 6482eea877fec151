// How an answer is printed.
ghost use Rattle.std.specs.Prelude.{◌≡◌, ◌∷◌, ◌+◌, ◌*◌, ◌<◌, ◌≤◌, ◌^◌, length};
ghost use Rattle.factory.specs.Types.{Answer};
ghost use Rattle.text.specs.Print.{digits};
ghost use Rattle.text.specs.Printer.{AllFit, HasRoom, Prints};
ghost use Rattle.factory_text.specs.Answers.{refused_number, reply_answer, answer_line, IsShort};

use factory::{Carried, Refusal};
use reader::BadLine;
use text::{Printer, Row, print_rows};

// Why a line is refused.
#[derive(Clone, Copy)]
pub enum Refused {
    // "26 a line not of the form"
    BadLine,
    Call(Refusal),
}

impl From<BadLine> for Refused {
    ghost use Rattle.factory_text.specs.declared.answers.Refused.{Refused};

    ghost from_gives = { λ _ e. e ≡ Refused.BadLine };

    fn from(_line: BadLine) -> Refused {
        Refused::BadLine
    }
}

impl From<Refusal> for Refused {
    ghost use Rattle.factory_text.specs.declared.answers.Refused.{Refused};

    ghost from_gives = { λ refusal e. e ≡ Refused.Call refusal };

    fn from(refusal: Refusal) -> Refused {
        Refused::Call(refusal)
    }
}

impl Refused {
    pub fn number(self) -> u64
        ensures { result ≡ refused_number self }
    {
        match self {
            Refused::BadLine => 26,
            Refused::Call(refusal) => refusal.number(),
        }
    }
}

// The form of a day's shares.
pub struct ShareForm;

// A space and a number of at most four digits.
impl Row<ShareForm> for u16 {
    ghost blank = { 0 };

    ghost line = { λ _ n. 32 ∷ digits n };

    ghost most = { 5 };

    ghost fits = { λ _ n. n < 10 ^ 4 };

    #[tactic(auto, using(crate::proofs::Printing::digits_four))]
    fn print(&self, printer: &mut Printer, _number: usize) {
        printer.byte(b' ');
        printer.digits(*self as u64);
    }
}

// A day's `ok`, and "each holder's share".
fn print_shares(printer: &mut Printer, shares: &[u16])
    requires room { HasRoom printer.old (5 * length shares.now + 3) }
    requires fits { AllFit (λ _ n. n < 10 ^ 4) 0 shares.now }
    ensures printed { Prints printer.old printer.new (answer_line (Answer.Shared shares.now)) }
    ensures few { printer.new.at ≤ printer.old.at + 5 * length shares.now + 3 }
{
    printer.bytes(b"ok");
    print_rows(printer, shares);
    printer.byte(b'\n');
}

// `ok 0`, a day's `ok` with the shares, or `no n`.
pub fn print_answer(printer: &mut Printer, answer: Result<Carried, Refused>)
    requires room { HasRoom printer.old 163 }
    requires short { IsShort (reply_answer answer) }
    ensures printed { Prints printer.old printer.new (answer_line (reply_answer answer)) }
    ensures few { printer.new.at ≤ printer.old.at + 163 }
{
    match answer {
        Ok(Carried::Number(n)) => printer.heading(b"ok", n),
        Ok(Carried::Shares(shares)) => print_shares(printer, &shares),
        Err(refused) => printer.heading(b"no", refused.number()),
    }
}
