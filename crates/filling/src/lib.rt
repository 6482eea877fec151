// A program's buffers, and reading until one is full or the input ends.
#![tactic(auto)]

ghost use Rattle.std.specs.Prelude.{◌≡◌, ◌<◌, length, take, IfOk, All};
ghost use Rattle.std.specs.Io.{ReadsAtMost};
ghost use Rattle.std.specs.Io.KnownBytes.{Consumes, IsAtEnd};

use std::io;
use std::io::Read;

// A buffer of N bytes.
pub fn buffer<const N: usize>() -> [u8; N]
    ensures long { N ≡ length result }
    ensures zeros { All (λ b. b ≡ 0) result }
{
    [0; N]
}

// Fills a buffer from its start, and answers how many bytes there are: all of its length, or those up to the end of the input. A read that gives a part of them is not the end.
pub fn read_full<R: Read>(reader: &mut R, buf: &mut [u8]) -> io::Result<usize>
    ensures bound { ReadsAtMost result buf.new }
    ensures bytes { IfOk result (λ n. Consumes (R.remaining reader.old) (R.remaining reader.new) (take n buf.new)) }
    ensures end { IfOk result (λ n. n < length buf.new → IsAtEnd (R.remaining reader.new)) }
{
    let mut at = 0;
    // std's read_exact fails on a shorter input, and read_to_end fills no lent buffer.
    while at < buf.len() {
        let n = reader.read(&mut buf[at..])?;
        if n == 0 {
            return Ok(at);
        }
        at += n;
    }
    Ok(at)
}
