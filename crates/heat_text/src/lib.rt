// The heat table, printed: one decimal number to a line, lowest heat first.
#![tactic(auto)]

ghost use Rattle.std.specs.Prelude.{◌≡◌, ◌+◌, ◌<◌, ◌^◌};
ghost use Rattle.text.specs.Print.{digits};
ghost use Rattle.text.specs.Printer.{HasRoom, Prints};
ghost use Rattle.text.specs.Page.{line};
ghost use Rattle.heat_text.specs.Printed.{printed_table};

use text::{Printer, Row, print_rows};

// The form of the heat table.
pub struct TableForm;

// A number of at most ten digits on a line.
impl Row<TableForm> for u64 {
    ghost blank = { 0 };

    ghost line = { λ _ n. line (digits n) };

    ghost most = { 11 };

    ghost fits = { λ _ n. n < 10 ^ 10 };

    #[tactic(auto, using(crate::proofs::Lines::digits_ten))]
    fn print(&self, printer: &mut Printer, _number: usize) {
        printer.digits(*self);
        printer.byte(b'\n');
    }
}

// The numerators for heats 4,300 to 6,000.
#[tactic(auto, using(crate::proofs::Lines::entry_few))]
pub fn print_table(printer: &mut Printer)
    requires { HasRoom printer.old 18_711 }
    ensures printed { Prints printer.old printer.new printed_table }
    ensures wide { printer.new.at ≡ printer.old.at + 18_711 }
{
    print_rows(printer, heats::numerators());
}
