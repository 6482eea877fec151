// Lists of a factory's calls as text: each line is read, its call made and its answer printed (document 02, Job 14).
#![tactic(auto)]

ghost use Rattle.std.specs.Prelude.{◌≡◌, ◌+◌, ◌*◌, ◌<◌, ◌≤◌, IfOk, length};
ghost use Rattle.factory.specs.Lists.{Reached};
ghost use Rattle.reader.specs.Lines.{lines};
ghost use Rattle.text.specs.Printer.{HasRoom, Prints};
ghost use Rattle.factory_text.specs.Calls.{line_of};
ghost use Rattle.factory_text.specs.Answers.{reply_outcome, made};
ghost use Rattle.factory_text.specs.Lists.{reply, answers, line_one, dispatch_output};
ghost use Rattle.factory_text.specs.Dispatched.{room, Dispatched};

mod answers;
mod calls;

use crate::answers::{Refused, print_answer};
use crate::calls::{read_call, read_daily};
use factory::{Carried, Factory};
use text::Printer;

// The answer to a line: its call is made; "26 a line not of the form" leaves the factory as it was.
fn reply(factory: &mut Factory, line: &[u8]) -> Result<Carried, Refused>
    ensures { reply_outcome result factory.new ≡ reply factory.old (line_of line.now) }
{
    let call = read_call(line)?;
    Ok(factory.apply(call)?)
}

// The later lines: the answer to each, one after the other.
fn print_replies(factory: &mut Factory, text: &[u8], printer: &mut Printer)
    requires room { HasRoom printer.old (82 * length text.now + 81) }
    requires reached { Reached factory.old }
    ensures { Prints printer.old printer.new (answers factory.old (lines text.now)) }
{
    for line in text.split_inclusive(|b| *b == b'\n') {
        print_answer(printer, reply(factory, line));
    }
}

// Line one is `0 daily`: the factory that it makes.
fn line_one(input: &[u8]) -> Result<Factory, Refused>
    ensures made { made result ≡ line_one input.now }
    ensures some { IfOk result (λ _. 0 < length input.now) }
{
    if 65_536 < input.len() {
        return Err(Refused::BadLine);
    }
    let daily = read_daily(&input[..reader::line_length(input)])?;
    Ok(Factory::new(daily)?)
}

// The output of a list of calls: the answer to line one and, where that is accepted, those to the later lines.
fn print_dispatch(printer: &mut Printer, input: &[u8])
    requires { HasRoom printer.old (room (length input.now)) }
    ensures { Prints printer.old printer.new (dispatch_output input.now) }
{
    match line_one(input) {
        Ok(mut factory) => {
            printer.heading(b"ok", 0);
            print_replies(&mut factory, reader::later_lines(input), printer);
        }
        Err(refused) => printer.heading(b"no", refused.number()),
    }
}

// The output of a list of calls, for every input, written from the start of `out`; how many bytes it has.
#[tactic(auto, using(crate::proofs::Listing::dispatched))]
pub fn dispatch(input: &[u8], out: &mut [u8]) -> usize
    requires { room (length input.now) ≤ length out.old }
    ensures { Dispatched input.now out.old out.new result }
{
    let mut printer = Printer::new(out);
    print_dispatch(&mut printer, input);
    printer.at
}
