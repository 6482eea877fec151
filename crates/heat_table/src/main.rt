// The heat table program: standard output is the numerators for heats 4,300 to 6,000, one to a line. It differs from `delivery` and `page` in what is printed, which is all of it.
#![tactic(auto)]

ghost use Rattle.std.specs.Prelude.{◌≡◌, ◌≤◌, length};
ghost use Rattle.text.specs.Print.{Put};
ghost use Rattle.heat_text.specs.Printed.{printed_table};

use std::io;
use text::Printer;

// Room for the table: 1,701 lines of 11 bytes. The clause says the length apart from the constant, so that the proof refuses another.
const TABLE: usize = 18_711;

fn table_buffer() -> [u8; TABLE]
    ensures { 18_711 ≡ length result }
{
    filling::buffer::<TABLE>()
}

// Prints the table at the start of a buffer: how many bytes it has.
fn put_table(out: &mut [u8]) -> usize
    requires { 18_711 ≤ length out.old }
    ensures { Put out.old out.new 0 result printed_table }
{
    let mut printer = Printer::new(out);
    heat_text::print_table(&mut printer);
    printer.at
}

fn main(rt: HostRuntime) -> io::Result<()> {
    let mut out = table_buffer();
    let r = put_table(&mut out);
    rt.write_all(&out[..r])
}
