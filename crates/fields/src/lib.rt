// The fields of the ledger page: words, numbers and cash, each aligned on the right in its width; by a `Printer`, so no `{:>width}`.
#![tactic(auto)]

ghost use Rattle.std.specs.Prelude.{◌≡◌, ◌++◌, ◌+◌, ◌^◌, ◌≤◌, ◌<◌, length};
ghost use Rattle.text.specs.Print.{digits, with_sign};
ghost use Rattle.text.specs.Printer.{HasRoom, Prints};
ghost use Rattle.text.specs.Page.{spaces, right, yuan};

use text::{Printer, decimal};

pub fn print_spaces(printer: &mut Printer, n: usize)
    requires { HasRoom printer.old n }
    ensures printed { Prints printer.old printer.new (spaces n) }
    ensures wide { printer.new.at ≡ printer.old.at + n }
{
    let end = printer.at + n;
    printer.out[printer.at..end].fill(b' ');
    printer.at = end;
}

// A word in a field.
pub fn print_word(printer: &mut Printer, width: usize, word: &[u8])
    requires room { HasRoom printer.old width }
    requires fits { length word.now ≤ width }
    ensures printed { Prints printer.old printer.new (right width word.now) }
    ensures wide { printer.new.at ≡ printer.old.at + width }
{
    print_spaces(printer, width - word.len());
    printer.bytes(word);
}

// A number in a field that is wide enough for it.
#[tactic(auto, using(text::proofs::Columns::digits_within))]
pub fn print_number(printer: &mut Printer, width: usize, n: u64)
    requires room { HasRoom printer.old width }
    requires fits { n < 10 ^ width }
    requires some { 0 < width }
    ensures printed { Prints printer.old printer.new (right width (digits n)) }
    ensures wide { printer.new.at ≡ printer.old.at + width }
{
    let mut buffer = itoa::Buffer::new();
    print_word(printer, width, decimal(&mut buffer, n));
}

// Fen in yuan with two decimals, after a sign.
#[tactic(auto, using(crate::proofs::Aligning::yuan_short))]
fn print_yuan(printer: &mut Printer, sign: &[u8], fen: u64)
    requires room { HasRoom printer.old 22 }
    requires short { length sign.now ≤ 1 }
    ensures printed { Prints printer.old printer.new (right 22 (sign.now ++ yuan fen)) }
    ensures wide { printer.new.at ≡ printer.old.at + 22 }
{
    let mut buffer = itoa::Buffer::new();
    let yuan = decimal(&mut buffer, fen / 100);
    print_spaces(printer, 19 - sign.len() - yuan.len());
    printer.bytes(sign);
    printer.bytes(yuan);
    printer.byte(b'.');
    printer.last_digit(fen / 10);
    printer.last_digit(fen);
}

// Cash in yuan with two decimals, a minus sign directly before it where it is below zero. As `signed`, an `if`, but around another printer.
pub fn print_cash(printer: &mut Printer, cash: i64)
    requires { HasRoom printer.old 22 }
    ensures printed { Prints printer.old printer.new (right 22 (with_sign yuan cash)) }
    ensures wide { printer.new.at ≡ printer.old.at + 22 }
{
    if cash < 0 {
        print_yuan(printer, b"-", cash.unsigned_abs());
    } else {
        print_yuan(printer, b"", cash as u64);
    }
}
