// The ledger of a book: its accounts, receipts and matches, each section after its count, then the fund.
ghost use Rattle.std.specs.Prelude.{◌≡◌, ⊤, ◌+◌, ◌*◌, ◌≤◌, length, get_or};
ghost use Rattle.book.specs.Codes.{side_number, class_number, state_number, stage_number};
ghost use Rattle.book.specs.Rows.{blank_account, blank_receipt, blank_match};
ghost use Rattle.text.specs.Printer.{AllFit, HasRoom, Prints};
ghost use Rattle.text.specs.Ledger.{account_line, receipt_line, match_line, section, ledger};

use crate::print::Printer;
use crate::rows::{Row, print_rows};
use book::{Account, Book, Match, Receipt, ReceiptState, Side, Stage, in_use};

fn side_number(side: Side) -> u64
    ensures { result ≡ side_number side }
{
    side as u64
}

pub fn stage_number(stage: Stage) -> u64
    ensures { result ≡ stage_number stage }
{
    stage as u64
}

fn class_number(bonded: bool) -> u64
    ensures { result ≡ class_number bonded }
{
    u64::from(bonded)
}

// No discriminant, since a frozen receipt carries its match.
fn state_number(state: ReceiptState) -> u64
    ensures { result ≡ state_number state }
{
    match state {
        ReceiptState::Free => 0,
        ReceiptState::Frozen(_) => 1,
        ReceiptState::Struck => 2,
    }
}

// The form of the ledger.
pub struct LedgerForm;

impl Row<LedgerForm> for Account {
    ghost blank = { blank_account };

    ghost line = { account_line };

    ghost most = { 85 };

    ghost fits = { λ _ _. ⊤ };

    fn print(&self, printer: &mut Printer, number: usize) {
        printer.number(number as u64);
        printer.byte(b' ');
        printer.signed(self.cash);
        printer.rest(&[side_number(self.side), self.units as u64]);
    }
}

impl Row<LedgerForm> for Receipt {
    ghost blank = { blank_receipt };

    ghost line = { receipt_line };

    ghost most = { 84 };

    ghost fits = { λ _ _. ⊤ };

    fn print(&self, printer: &mut Printer, number: usize) {
        printer.number(number as u64);
        printer.rest(&[
            self.owner as u64,
            class_number(self.bonded),
            state_number(self.state),
        ]);
    }
}

impl Row<LedgerForm> for Match {
    ghost blank = { blank_match };

    ghost line = { match_line };

    ghost most = { 147 };

    ghost fits = { λ _ _. ⊤ };

    fn print(&self, printer: &mut Printer, number: usize) {
        printer.number(number as u64);
        printer.rest(&[
            self.buyer as u64,
            self.seller as u64,
            self.units as u64,
            self.price as u64,
            stage_number(self.stage),
            self.held,
        ]);
    }
}

// A section of the ledger.
fn print_section<T: Row<LedgerForm>>(printer: &mut Printer, word: &[u8], rows: &[T])
    requires room { HasRoom printer.old (length word.now + 22 + T.most * length rows.now) }
    requires fits { AllFit T.fits T.blank rows.now }
    ensures printed { Prints printer.old printer.new (section word.now (length rows.now) (λ k. T.line k (get_or rows.now k T.blank))) }
    ensures few { printer.new.at ≤ printer.old.at + length word.now + 22 + T.most * length rows.now }
{
    printer.heading(word, rows.len() as u64);
    print_rows(printer, rows);
}

// The page has the same frame; one of both would take the head line and the forms of three rows as a trait.
pub fn print_ledger(printer: &mut Printer, book: &Book)
    requires room { HasRoom printer.old 61_971 }
    requires accounts { book.now.account_count ≤ 32 }
    requires receipts { book.now.receipt_count ≤ 256 }
    requires matches { book.now.match_count ≤ 256 }
    ensures printed { Prints printer.old printer.new (ledger book.now) }
    ensures few { printer.new.at ≤ printer.old.at + 61_971 }
{
    print_section(
        printer,
        b"accounts",
        in_use(&book.accounts, book.account_count),
    );
    print_section(
        printer,
        b"receipts",
        in_use(&book.receipts, book.receipt_count),
    );
    print_section(printer, b"matches", in_use(&book.matches, book.match_count));
    printer.heading(b"fund", book.fund);
}
