// The rows of a table, printed one after the other.
ghost use Rattle.std.specs.Prelude.{List, ℕ, ◌+◌, ◌*◌, ◌≤◌, length, get_or};
ghost use Rattle.text.specs.Ledger.{each};
ghost use Rattle.text.specs.Printer.{AllFit, HasRoom, Prints};

use crate::print::Printer;

// A row of a table that is printed in some form, as the ledger's.
pub trait Row<Form> {
    // What stands where a table has no row.
    ghost blank: { Self };

    // The text of a row with its number.
    ghost line: { ℕ → Self → List ℕ };

    // The most bytes of such a text.
    ghost most: { ℕ };

    // Which rows the form has room for.
    ghost fits: { ℕ → Self → Type 0 };

    fn print(&self, printer: &mut Printer, number: usize)
        requires room { HasRoom printer.old most }
        requires fits { fits number self.now }
        ensures printed { Prints printer.old printer.new (line number self.now) }
        ensures few { printer.new.at ≤ printer.old.at + most };
}

// The rows of a table, one after the other: what it asks of them, a section asks as well and hands on.
pub fn print_rows<Form, T: Row<Form>>(printer: &mut Printer, rows: &[T])
    requires room { HasRoom printer.old (T.most * length rows.now) }
    requires fits { AllFit T.fits T.blank rows.now }
    ensures printed { Prints printer.old printer.new (each (length rows.now) 0 (λ k. T.line k (get_or rows.now k T.blank))) }
    ensures few { printer.new.at ≤ printer.old.at + T.most * length rows.now }
{
    for (i, row) in rows.iter().enumerate() {
        row.print(printer, i);
    }
}
