// The ledger page for the wall printer: lines of 40 characters and a newline.
#![tactic(auto)]

ghost use Rattle.std.specs.Prelude.{◌≡◌, ◌+◌, ◌*◌, ◌≤◌, ◌<◌, length, get_or};
ghost use Rattle.book.specs.Answers.{answer_of};
ghost use Rattle.book.specs.Codes.{stage_number};
ghost use Rattle.book.specs.Rows.{blank_account, blank_receipt, blank_match};
ghost use Rattle.text.specs.Printer.{AllFit, HasRoom, Prints};
ghost use Rattle.text.specs.Page.{side_word, class_word, state_word};
ghost use Rattle.text.specs.Page.{line, account_columns, receipt_columns, match_columns, count_columns};
ghost use Rattle.text.specs.Page.{page_section, page, lent, page_answer};

use book::{Account, Match, Month, Receipt, ReceiptState, Refusal, Side, in_use};
use fields::{print_cash, print_number, print_spaces, print_word};
use text::{Printer, Row, print_rows, stage_number};

// Words as bytes and no `Display`: a `Printer` has no `write!` (text/print.rt).
fn side_word(side: Side) -> &'static [u8]
    ensures word { result.now ≡ side_word side }
    ensures fits { length result.now ≤ 7 }
{
    match side {
        Side::Flat => b"none",
        Side::Long => b"long",
        Side::Short => b"short",
    }
}

fn class_word(bonded: bool) -> &'static [u8]
    ensures word { result.now ≡ class_word bonded }
    ensures fits { length result.now ≤ 12 }
{
    if bonded { b"bonded" } else { b"ordinary" }
}

fn state_word(state: ReceiptState) -> &'static [u8]
    ensures word { result.now ≡ state_word state }
    ensures fits { length result.now ≤ 20 }
{
    match state {
        ReceiptState::Free => b"free",
        ReceiptState::Frozen(_) => b"frozen",
        ReceiptState::Struck => b"struck",
    }
}

// The form of the page.
pub struct PageForm;

impl Row<PageForm> for Account {
    ghost blank = { blank_account };

    ghost line = { λ k a. line (account_columns k a) };

    ghost most = { 41 };

    ghost fits = { λ k _. k < 1_000 };

    fn print(&self, printer: &mut Printer, number: usize) {
        print_number(printer, 3, number as u64);
        print_cash(printer, self.cash);
        print_word(printer, 7, side_word(self.side));
        print_number(printer, 8, self.units as u64);
        printer.byte(b'\n');
    }
}

impl Row<PageForm> for Receipt {
    ghost blank = { blank_receipt };

    ghost line = { λ i r. line (receipt_columns i r) };

    ghost most = { 41 };

    ghost fits = { λ i _. i < 10_000 };

    fn print(&self, printer: &mut Printer, number: usize) {
        print_number(printer, 4, number as u64);
        print_number(printer, 4, self.owner as u64);
        print_word(printer, 12, class_word(self.bonded));
        print_word(printer, 20, state_word(self.state));
        printer.byte(b'\n');
    }
}

impl Row<PageForm> for Match {
    ghost blank = { blank_match };

    ghost line = { λ j m. line (match_columns j m) };

    ghost most = { 41 };

    ghost fits = { λ j m. (j < 1_000) × (m.price < 100_000_000) × (m.held < 10_000_000_000_000_000) };

    #[tactic(auto, using(text::proofs::Columns::stage_few))]
    fn print(&self, printer: &mut Printer, number: usize) {
        print_number(printer, 3, number as u64);
        print_number(printer, 3, self.buyer as u64);
        print_number(printer, 3, self.seller as u64);
        print_number(printer, 5, self.units as u64);
        print_number(printer, 8, self.price as u64);
        print_number(printer, 2, stage_number(self.stage));
        print_number(printer, 16, self.held);
        printer.byte(b'\n');
    }
}

// A count line, or the fund line: it pads to 40 before it ends, where `heading` ends at once.
fn print_count(printer: &mut Printer, word: &[u8], n: u64)
    requires room { HasRoom printer.old 41 }
    requires short { length word.now ≤ 8 }
    ensures printed { Prints printer.old printer.new (line (count_columns word.now n)) }
    ensures wide { printer.new.at ≡ printer.old.at + 41 }
{
    let end = printer.at + 40;
    printer.bytes(word);
    printer.next(n);
    print_spaces(printer, end - printer.at);
    printer.byte(b'\n');
}

// A section of the page: as `text`'s, with the padded count line.
fn print_section<T: Row<PageForm>>(printer: &mut Printer, word: &[u8], rows: &[T])
    requires room { HasRoom printer.old (41 + T.most * length rows.now) }
    requires short { length word.now ≤ 8 }
    requires fits { AllFit T.fits T.blank rows.now }
    ensures printed { Prints printer.old printer.new (page_section word.now (length rows.now) (λ k. T.line k (get_or rows.now k T.blank))) }
    ensures few { printer.new.at ≤ printer.old.at + 41 + T.most * length rows.now }
{
    print_count(printer, word, rows.len() as u64);
    print_rows(printer, rows);
}

// The page of a month's book.
#[tactic(auto, using(text::proofs::Columns::few, crate::proofs::Fitting::fitting))]
fn print_page(printer: &mut Printer, month: &Month)
    requires { HasRoom printer.old (164 + 41 * (month.now.account_count + month.now.receipt_count + month.now.match_count)) }
    ensures { Prints printer.old printer.new (page month.now) }
{
    let book = &month.book;
    print_section(
        printer,
        b"accounts",
        in_use(&book.accounts, book.account_count),
    );
    print_section(
        printer,
        b"receipts",
        in_use(&book.receipts, book.receipt_count),
    );
    print_section(printer, b"matches", in_use(&book.matches, book.match_count));
    print_count(printer, b"fund", book.fund);
}

// The page of a month's book, at the front of a lent buffer: the answer carries its length; 27, and nothing is written, where the buffer is too short.
#[tactic(auto, using(text::proofs::Columns::few))]
pub fn put_page(out: &mut [u8], month: &Month) -> Result<usize, Refusal>
    ensures { (answer_of result ≡ page_answer month.now out.old) × (out.new ≡ lent (page month.now) out.old) }
{
    let book = &month.book;
    // Four lines of their own, and one for each row, of 41 bytes.
    let length = 164 + 41 * (book.account_count + book.receipt_count + book.match_count);
    if out.len() < length {
        return Err(Refusal::BufferShort);
    }
    let mut printer = Printer::new(out);
    print_page(&mut printer, month);
    Ok(length)
}
