// What the program writes: of a call, what it gave and the bytes that it changed; and the text of a trace.
use rules::refusal::Refusal;
use std::io;
use std::io::Write;
use test_lines::show::{differ, number};
use text::listing::{ROOM, list};

// The byte at an index of two bytes, which has changed.
fn change<W: Write>(out: &mut W, high: u8, low: u8, new: u8) -> io::Result<()> {
    write!(out, " ")?;
    number(out, high)?;
    number(out, low)?;
    write!(out, "=")?;
    number(out, new)
}

// Each byte that has changed. 256 at a time, the high byte of whose index is one: a script lends up to 65,535, of which a call changes few.
fn changes<W: Write>(out: &mut W, old: &[u8], new: &[u8]) -> io::Result<()> {
    for (high, (old, new)) in (0..=u8::MAX).zip(old.chunks(256).zip(new.chunks(256))) {
        if differ(old, new) {
            for (low, (old, new)) in (0..=u8::MAX).zip(old.iter().zip(new)) {
                if old != new {
                    change(out, high, low, *new)?;
                }
            }
        }
    }
    Ok(())
}

// A call's line: the number that refuses it, or 0, the count after it, and each byte of the lent buffer that it changed, behind its index.
pub fn call<W: Write>(
    out: &mut W,
    outcome: Result<usize, Refusal>,
    count: usize,
    old: &[u8],
    new: &[u8],
) -> io::Result<()> {
    let refusal = outcome.map_or_else(u8::from, |_| 0);
    write!(out, "{refusal} ")?;
    for byte in count.to_be_bytes() {
        number(out, byte)?;
    }
    changes(out, old, new)?;
    writeln!(out)
}

// mmurun's text of the trace.
pub fn trace<W: Write>(out: &mut W, trace: &[u8]) -> io::Result<()> {
    let mut text = [0; ROOM];
    let length = list(trace, &mut text).unwrap_or(0);
    streams::write_all(out, &text[..length])
}
