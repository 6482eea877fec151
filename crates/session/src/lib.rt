// A session with a heat table: from the bytes of its input to the bytes of its output, or to the page of the book after it.
#![tactic(auto)]

ghost use Rattle.std.specs.Prelude.{◌≡◌, ◌≤◌, IfOk, length};
ghost use Rattle.book.specs.Outcomes.{Answer};
ghost use Rattle.book.specs.Opening.{opened};
ghost use Rattle.book.specs.Codes.{refusal_number};
ghost use Rattle.text.specs.Print.{answer_line};
ghost use Rattle.text.specs.Page.{lent};
ghost use Rattle.text.specs.Printer.{HasRoom, Prints};
ghost use Rattle.session.specs.Session.{line_one, session, outcome, room, Delivered};
ghost use Rattle.session.specs.Paging.{lent_count, Paged};

use book::{Carried, Month, Refusal};
use heats::HeatTable;
use text::Printer;

// "Line one is `0 kind T R price`": the month that it opens.
fn line_one<'t>(heats: &HeatTable<'t>, input: &[u8]) -> Result<Month<'t>, Refusal>
    ensures opened { opened result ≡ line_one heats.now input.now }
    ensures short { IfOk result (λ _. length input.now ≤ 65_536) }
{
    if 65_536 < input.len() {
        return Err(Refusal::BadLine);
    }
    let line = &input[..reader::line_length(input)];
    let terms = reader::read_opening(line)?;
    accounts::opening(heats, &terms)
}

// The output of a session: the answer to line one and, where that is accepted, those to the later lines, "Then the ledger".
#[tactic(auto, using(text::proofs::Columns::few))]
fn print_session(printer: &mut Printer, heats: &HeatTable, input: &[u8])
    requires { HasRoom printer.old room }
    ensures { Prints printer.old printer.new (session heats.now input.now) }
{
    match line_one(heats, input) {
        Ok(mut month) => {
            printer.answer(Ok(Carried::Number(0)));
            running::print_run(&mut month, reader::later_lines(input), printer);
            text::print_ledger(printer, &month.book);
        }
        Err(refusal) => printer.answer(Err(refusal)),
    }
}

// "It reads standard input": the output of a session, for every input, written from the start of `out`; how many bytes it has.
#[tactic(auto, using(crate::proofs::Starting::delivered))]
pub fn session(heats: &HeatTable, input: &[u8], out: &mut [u8]) -> usize
    requires { room ≤ length out.old }
    ensures { Delivered heats.now input.now out.old out.new result }
{
    let mut printer = Printer::new(out);
    // Lent on, since `lend` promises that it is a heat table, as demand 3 asks.
    print_session(&mut printer, &heats.lend(), input);
    printer.at
}

// The month after a session; nothing is printed.
fn outcome<'t>(heats: &HeatTable<'t>, input: &[u8]) -> Result<Month<'t>, Refusal>
    ensures { opened result ≡ outcome heats.now input.now }
{
    let mut month = line_one(heats, input)?;
    running::run(&mut month, reader::later_lines(input));
    Ok(month)
}

// A refusal's line, at the front of a lent buffer: how many bytes it has; none, and nothing is written, where the buffer is too short. Printed apart first, as nothing is written where it does not fit.
pub fn lend_refusal(out: &mut [u8], refusal: Refusal) -> Option<usize>
    ensures count { result ≡ lent_count (answer_line (Answer.Refused (refusal_number refusal))) out.old }
    ensures text { out.new ≡ lent (answer_line (Answer.Refused (refusal_number refusal))) out.old }
{
    let mut line = [0; 24];
    let mut printer = Printer::new(&mut line);
    printer.answer(Err(refusal));
    let length = printer.at;
    if out.len() < length {
        return None;
    }
    let mut front = Printer::new(out);
    front.bytes(&printer.out[..length]);
    Some(length)
}

// What the page program prints, at the front of a lent buffer: how many bytes it has; none, and nothing is written, where the buffer is too short.
pub fn page(heats: &HeatTable, input: &[u8], out: &mut [u8]) -> Option<usize>
    ensures { Paged heats.now input.now out.old out.new result }
{
    // Lent on, as in `session`.
    match outcome(&heats.lend(), input) {
        Ok(month) => columns::put_page(out, &month).ok(),
        Err(refusal) => lend_refusal(out, refusal),
    }
}
