// What the programs read and write: an input into a buffer that they keep, and bytes to an output. An input that fails has ended, and what
// could not be written is left out.
#![tactic(auto)]

ghost use Rattle.std.specs.Prelude.{◌≡◌, ◌<◌, ◌≤◌, IsOk, OnOk, length, take, decimal};
ghost use Rattle.std.specs.Io.KnownBytes.{Appends, Consumes, IsAtEnd};

use std::io;
use std::io::{Read, Write};

// No program reads more of its input than this, into an array: nothing here takes memory from a heap.
pub const LARGE: usize = 65536;

// What `read_full` gives: how many bytes it put at the start of the buffer, and the read that failed, if one did. It is no io::Result<usize>,
// since what was read before a failure is used, too.
#[derive(Clone, Copy)]
pub struct Taken {
    pub count: usize,
    pub outcome: io::Result<()>,
}

// Reads until the buffer is full, the input ends or a read fails: what it put into the buffer are the next bytes of the input, and where no
// read failed and the buffer is not full, they were the last. The count is what it gives, and no method of std fills a lent buffer as far as its
// input goes and says how far (clauses `bytes` and `end`), so the loop counts.
pub fn read_full<R: Read>(from: &mut R, buffer: &mut [u8]) -> Taken
    ensures bound { result.count ≤ length buffer.new }
    ensures kept { length buffer.new ≡ length buffer.old }
    ensures bytes { Consumes (R.remaining from.old) (R.remaining from.new) (take result.count buffer.new) }
    ensures end { IsOk result.outcome → result.count < length buffer.new → IsAtEnd (R.remaining from.new) }
{
    let mut count = 0;
    while count < buffer.len() {
        match from.read(&mut buffer[count..]) {
            Ok(0) => break,
            Ok(n) => count += n,
            Err(e) => {
                return Taken {
                    count,
                    outcome: Err(e),
                };
            }
        }
    }
    Taken {
        count,
        outcome: Ok(()),
    }
}

// Writes the bytes; where writing fails, the rest is left out.
pub fn write_all<W: Write>(to: &mut W, bytes: &[u8]) -> io::Result<()>
    ensures { OnOk result (Appends (W.contents to.old) (W.contents to.new) bytes.now) }
{
    to.write_all(bytes)
}

// Writes a number in decimal digits.
pub fn print_decimal<W: Write>(to: &mut W, n: u64) -> io::Result<()>
    ensures { OnOk result (Appends (W.contents to.old) (W.contents to.new) (decimal n)) }
{
    to.write_fmt(n)
}
