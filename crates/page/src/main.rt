// The page program: standard input is a session, standard output the ledger page of the book after it. With an argument, the name of a file, the book is opened with the heat table that is loaded from it, else with the printed one.
// The same lines as `delivery`, with another buffer and `session::page`: one function of both would take the call as a closure, with clauses on where it may be called and how much it writes.
// Promised: a session is given the printed table or, whichever bytes the file has, what `load` makes of them. Which bytes a file or the input has, no contract can say.
#![tactic(auto)]

ghost use Rattle.std.specs.Prelude.{◌≡◌, ◌≤◌, length};

use loading::PortTable;
use std::env::{Env, FillError};
use std::fs::File;
use std::{io, str};

// One byte more than an input may have, which shows that it is longer. The clause says a buffer's length apart from its constant, so that the proof refuses another.
const INPUT: usize = 65_537;

fn input_buffer() -> [u8; INPUT]
    ensures { 65_537 ≡ length result }
{
    filling::buffer::<INPUT>()
}

// One byte more than a heat table's file has.
const TABLE: usize = 13_617;

fn table_buffer() -> [u8; TABLE]
    ensures { 13_617 ≡ length result }
{
    filling::buffer::<TABLE>()
}

// Room for every page: 4 + 32 + 256 + 256 lines of 41 bytes.
const PAGE: usize = 22_468;

fn page_buffer() -> [u8; PAGE]
    ensures { 22_468 ≡ length result }
{
    filling::buffer::<PAGE>()
}

// The longest name of a file that the system opens, in bytes.
const NAME: usize = 4_095;

// Argument 1, in a lent buffer; None where there is none. One that is not UTF-8, or for which the buffer is too short, is given as "", which no file has for a name.
fn argument<'n>(rt: &HostRuntime, name: &'n mut [u8]) -> Option<&'n str> {
    match rt.arg(1, name) {
        Ok(n) => Some(str::from_utf8(&name[..n]).unwrap_or("")),
        Err(FillError::TooLong) => Some(""),
        Err(FillError::NotPresent) => None,
    }
}

// The bytes of a file from its start, as many as a buffer takes: how many there are. A file that cannot be read counts as empty, and is refused like a bad table.
fn read_file(rt: &HostRuntime, name: &str, bytes: &mut [u8]) -> usize
    ensures { result ≤ length bytes.new }
{
    match File::open(rt, name) {
        Ok(mut file) => filling::read_full(&mut file, bytes).unwrap_or(0),
        Err(_) => 0,
    }
}

fn main(rt: HostRuntime) -> io::Result<()> {
    let mut table = PortTable::printed();
    let mut name = filling::buffer::<NAME>();
    if let Some(name) = argument(&rt, &mut name) {
        let mut bytes = table_buffer();
        let n = read_file(&rt, name, &mut bytes);
        if table.load(&bytes[..n]).is_err() {
            return rt.write_all(b"no 31\n");
        }
    }
    let mut input = input_buffer();
    let n = filling::read_full(&mut rt.stdin(), &mut input)?;
    let mut out = page_buffer();
    // What the C interface serves writes into a lent buffer, and answers how many bytes.
    let r = session::page(&table.lend(), &input[..n], &mut out).unwrap_or(0);
    rt.write_all(&out[..r])
}
