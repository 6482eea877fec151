// The later lines of a session: each is read, its call made and its answer printed.
#![tactic(auto)]

ghost use Rattle.std.specs.Prelude.{◌≡◌, ◌+◌, ◌*◌, ◌≤◌, length};
ghost use Rattle.book.specs.Answers.{carried_outcome};
ghost use Rattle.book.specs.Lists.{after};
ghost use Rattle.reader.specs.Lines.{lines, line_of};
ghost use Rattle.text.specs.Printer.{HasRoom, Prints};
ghost use Rattle.running.specs.Later.{reply, answers, calls_of};

use book::{Carried, Month, Refusal};
use text::Printer;

// The answer to a line: its call is made; "26 a line not of the form" leaves the book as it was.
fn reply(month: &mut Month, line: &[u8]) -> Result<Carried, Refusal>
    ensures { carried_outcome result month.new ≡ reply month.old (line_of line.now) }
{
    // Taken apart by `let .. else`, as document 01 names the form.
    let Ok(call) = reader::read_line(line) else {
        return Err(Refusal::BadLine);
    };
    calls::apply(month, call)
}

// The calls of the lines of a text. It and `print_run` are one line in the same loop: one of both over a closure would have to say where in a fold each answer lies, and over an optional printer, in each clause, whether there is one.
pub fn run(month: &mut Month, text: &[u8])
    ensures { month.new ≡ after month.old (calls_of (lines text.now)) }
{
    for line in text.split_inclusive(|b| *b == b'\n') {
        let _ = reply(month, line);
    }
}

// The same, with the answers printed: "Each line prints `ok n` .. or `no n`."
pub fn print_run(month: &mut Month, text: &[u8], printer: &mut Printer)
    requires { HasRoom printer.old (12 * length text.now + 12) }
    ensures book { month.new ≡ after month.old (calls_of (lines text.now)) }
    ensures answers { Prints printer.old printer.new (answers month.old (lines text.now)) }
    ensures room { printer.new.at ≤ printer.old.at + 12 * length text.now }
{
    for line in text.split_inclusive(|b| *b == b'\n') {
        printer.answer(reply(month, line));
    }
}
