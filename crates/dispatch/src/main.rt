// The dispatch program: standard input is a list of a factory's calls, standard output its answers.
// Of the programs for users it alone takes heap: the longest list's output has room of over 5 MB, too much for a stack, and most lists need little of it.
#![tactic(auto)]

ghost use Rattle.std.specs.Prelude.{◌≡◌, length};

use std::io;

// One byte more than an input may have, which shows that it is longer. The clause says the length apart from the constant, so that the proof refuses another.
const INPUT: usize = 65_537;

fn input_buffer() -> [u8; INPUT]
    ensures { 65_537 ≡ length result }
{
    filling::buffer::<INPUT>()
}

fn main(rt: HostRuntime) -> io::Result<()> {
    let mut input = input_buffer();
    let n = filling::read_full(&mut rt.stdin(), &mut input)?;
    // Room for the output of every list of n bytes.
    let mut out = vec![in rt.alloc(); 0; 82 * n + 24]?;
    // What the C interface serves writes into a lent buffer, and answers how many bytes.
    let r = factory_text::dispatch(&input[..n], &mut out);
    rt.write_all(&out[..r])
}
