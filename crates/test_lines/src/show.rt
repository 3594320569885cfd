// What the programs write. Each piece of a line is one write, since standard output has no buffer.
ghost use Rattle.std.specs.Prelude.{◌≤◌, length};
ghost use Rattle.unit_packed.specs.Packed.{width};

use rules::Descriptor;
use std::io;
use std::io::Write;
use text::lines::LINE;
use text::numbers::{Line, put_hex};
use trace_header::byte_at;
use unit_bytes::snapshot;

// An output that goes on: each write is tried, and one that fails is left out and told to nobody, so that what comes behind it is written.
#[derive(Drop)]
pub struct Lossy<W>(pub W);

impl<W: Write> Write for Lossy<W> {
    fn write(&mut self, bytes: &[u8]) -> io::Result<usize> {
        let _ = streams::write_all(&mut self.0, bytes);
        Ok(bytes.len())
    }

    fn flush(&mut self) -> io::Result<()> {
        let _ = self.0.flush();
        Ok(())
    }

    // The piece at once, with no loop of the library's around the inner one's.
    fn write_all(&mut self, bytes: &[u8]) -> io::Result<()> {
        let _ = streams::write_all(&mut self.0, bytes);
        Ok(())
    }
}

// Whether two runs of as many bytes differ. Eight at a time, up to the first that do: most of what is compared is equal.
pub fn differ(old: &[u8], new: &[u8]) -> bool {
    let (old, old_rest) = old.as_chunks::<8>();
    let (new, new_rest) = new.as_chunks::<8>();
    old.iter().zip(new).any(|(old, new)| u64::from_ne_bytes(*old) != u64::from_ne_bytes(*new))
        || old_rest != new_rest
}

// A line that asks for nothing: an empty one and one that starts with `#` as it is, and `?` for any other.
pub fn other<W: Write>(out: &mut W, line: &[u8]) -> io::Result<()> {
    let echoed = if line.is_empty() || line.starts_with(b"#") {
        line
    } else {
        b"?"
    };
    streams::write_all(out, echoed)?;
    writeln!(out)
}

// mmurun's line of a packed answer, as record 0 has it, and where it ends.
pub fn line_of(packed: &[u8]) -> ([u8; LINE], usize)
    requires { width ≤ length packed.now }
    ensures { result.1 ≤ 31 }
{
    let mut buffer = [0; LINE];
    let mut line = Line {
        out: &mut buffer,
        at: 0,
    };
    line.put_lines(packed, 1);
    let end = line.at;
    (buffer, end)
}

// A packed answer, as that line has it behind the number.
pub fn answer<W: Write>(out: &mut W, packed: &[u8]) -> io::Result<()>
    requires { width ≤ length packed.now }
{
    let (line, end) = line_of(packed);
    if 3 < end {
        streams::write_all(out, &line[2..end - 1])?;
    }
    Ok(())
}

// Two digits. By `put_hex` and not by `{:02X}`, here and below, which is two writes of a number below %10, and a write for each of several.
pub fn number<W: Write>(out: &mut W, n: u8) -> io::Result<()> {
    let mut digits = *b"xx";
    put_hex(&mut digits, 0, n);
    streams::write_all(out, &digits)
}

// A unit's bytes but for the descriptors', in the order of a `U` line.
pub fn registers<W: Write>(out: &mut W, unit: &[u8]) -> io::Result<()> {
    let mut line = *b" | xx xx xx xx xx xx xx xx xx xx xx";
    for at in 0..snapshot::TABLE {
        put_hex(&mut line, 3 + 3 * at, byte_at(unit, at));
    }
    let low = byte_at(unit, snapshot::LOW);
    put_hex(&mut line, 3 + 3 * snapshot::TABLE, low);
    streams::write_all(out, &line)
}

// A descriptor's place and its numbers, in the order of a `D` line.
pub fn descriptor<W: Write>(out: &mut W, place: u8, d: Descriptor) -> io::Result<()> {
    let [high, low] = d.base.to_be_bytes();
    let mut line = *b" | xx xxxx xx xx";
    put_hex(&mut line, 3, place);
    put_hex(&mut line, 6, high);
    put_hex(&mut line, 8, low);
    put_hex(&mut line, 11, d.limit);
    put_hex(&mut line, 14, d.attributes);
    streams::write_all(out, &line)
}
