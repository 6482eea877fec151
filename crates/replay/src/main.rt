// Replays stored sessions and compares every byte: the arguments are the names of a heat table's file, of an input and of its output, in turn; the table `printed` is the printed one, and an output `NAME.page` is the page of the book after the session. With the word `factory` for a table the input is a list of a factory's calls.
#![tactic(auto)]

ghost use Rattle.std.specs.Prelude.{◌≡◌, ◌≤◌, length, vec_len, IfOk};

use loading::PortTable;
use std::fs::File;
use std::io::Read;
use std::{env, io};

// Room for the output of every session. The clauses say lengths apart from the code, so that a proof refuses others.
const OUTPUT: usize = 848_427;

fn output_buffer() -> [u8; OUTPUT]
    ensures { 848_427 ≡ length result }
{
    filling::buffer::<OUTPUT>()
}

// One byte more than an input may have, which shows that it is longer.
fn most_of_input() -> usize
    ensures { result ≡ 65_537 }
{
    65_537
}

// One byte more than a heat table's file has.
fn most_of_table() -> usize
    ensures { result ≡ 13_617 }
{
    13_617
}

// A file's first bytes, as many as `most`: a `Vec`, as a file's length is known only when it is read; the programs that hold no heap read into a buffer. The handle goes before the name, as in std's `File::open`.
fn read_file(rt: &HostRuntime, name: &str, most: usize) -> io::Result<Vec<u8>>
    ensures { IfOk result (λ bytes. vec_len bytes ≤ most) }
{
    let mut bytes = Vec::new(rt.alloc());
    File::open(rt, name)?
        .take(most as u64)
        .read_to_end(&mut bytes)?;
    // `take` gives no more, which is promised only of a reader whose bytes are known.
    bytes.truncate(most);
    Ok(bytes)
}

// A file's first bytes; one that cannot be read has none, and counts as empty: the run goes on.
fn load(rt: &HostRuntime, name: &str, most: usize) -> Vec<u8>
    ensures { vec_len result ≤ most }
{
    match read_file(rt, name, most) {
        Ok(bytes) => bytes,
        Err(e) => {
            let _ = eprintln!(rt; "{name}: {e}");
            Vec::new(rt.alloc())
        }
    }
}

// Whether a list of a factory's calls gives the output that is stored for it. Room for that of every list is too much for a stack.
fn list_agrees(rt: &HostRuntime, input: &[u8], stored: &[u8]) -> io::Result<bool>
    requires { length input.now ≤ 65_537 }
{
    let mut out = vec![in rt.alloc(); 0; 82 * input.len() + 24]?;
    let r = factory_text::dispatch(input, &mut out);
    Ok(&out[..r] == stored)
}

// Whether the session of an input with a heat table gives the output that is stored for it: `no 31` where the table is refused.
fn agrees(rt: &HostRuntime, table_name: &str, input_name: &str, output_name: &str) -> bool {
    let stored = load(rt, output_name, OUTPUT);
    if table_name == "factory" {
        return list_agrees(rt, &load(rt, input_name, most_of_input()), &stored).unwrap_or(false);
    }
    let mut table = PortTable::printed();
    if table_name != "printed" && table.load(&load(rt, table_name, most_of_table())).is_err() {
        return stored[..] == b"no 31\n"[..];
    }
    let input = load(rt, input_name, most_of_input());
    let mut out = output_buffer();
    // What the C interface serves writes into a lent buffer, and answers how many bytes.
    let r = if output_name.ends_with(".page") {
        session::page(&table.lend(), &input, &mut out).unwrap_or(0)
    } else {
        session::session(&table.lend(), &input, &mut out)
    };
    out[..r] == stored[..]
}

// One of the names of a session; "" where it is missing.
fn name_at(names: &[String], place: usize) -> &str {
    names.get(place).map_or("", |name| name.as_str())
}

// Whether the session that three names give agrees; its names on a line where it does not.
fn replayed(rt: &HostRuntime, names: &[String]) -> bool {
    let table_name = name_at(names, 0);
    let output_name = name_at(names, 2);
    let same = agrees(rt, table_name, name_at(names, 1), output_name);
    if !same {
        let _ = println!(rt; "{table_name} {output_name} differs");
    }
    same
}

fn main(rt: HostRuntime) -> io::Result<()> {
    let names: Vec<String> = env::args(&rt)?.skip(1).collect(rt.alloc())?;
    let agreed = names.chunks(3).filter(|names| replayed(&rt, names)).count();
    println!(rt; "{agreed} outputs agree")
}
