// The lines of a script.
use rules::Cycle;
use test_lines::parse::{cycle_in, fits, numbers};

// What a line asks for: a buffer of so many bytes, lent, all of one value; a byte put at an index of it; the count that the next call is given;
// the start; one cycle; the text of the trace.
#[derive(Drop)]
pub enum Line {
    Lend(u16, u8),
    Put(u16, u8),
    Count(usize),
    Start,
    Cycle(Cycle),
    Trace,
}

// What the numbers of a `B` or `P` line say: a word and a byte.
fn word_and_byte([high, low, byte]: [u8; 3]) -> (u16, u8) {
    (u16::from_be_bytes([high, low]), byte)
}

// What the line asks for, where it is of its letter's form.
pub fn line_in(line: &[u8]) -> Option<Line> {
    if let Some(numbers) = numbers(line, b"B xxxx xx") {
        let (length, byte) = word_and_byte(numbers);
        return Some(Line::Lend(length, byte));
    }
    if let Some(numbers) = numbers(line, b"P xxxx xx") {
        let (at, byte) = word_and_byte(numbers);
        return Some(Line::Put(at, byte));
    }
    if let Some(numbers) = numbers(line, b"N xxxxxxxxxxxxxxxx") {
        return Some(Line::Count(usize::from_be_bytes(numbers)));
    }
    if fits(line, b"S") {
        return Some(Line::Start);
    }
    if fits(line, b"T") {
        return Some(Line::Trace);
    }
    let numbers = numbers(line, b"C xx xx xx xx xx xx")?;
    Some(Line::Cycle(cycle_in(numbers)))
}
