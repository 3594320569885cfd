// The lines of a script.
use board_rules::Board;
use rules::{Cycle, Descriptor, Unit};
use test_lines::parse;
use unit_bytes::snapshot;

// What a line asks for: a number of units, a unit's bytes, a descriptor put at a place of a unit, a cycle with its select bits, unit 0 in bit 0.
#[derive(Drop)]
pub enum Line {
    Count(u8),
    Unit(u8, [u8; snapshot::BYTES]),
    Descriptor(u8, u8, Descriptor),
    Cycle(Cycle, u16),
}

// What a `U` line asks for, where it names no unit above %0F.
fn unit_in(line: &[u8]) -> Option<Line> {
    let numbers: [u8; 12] = parse::numbers(line, b"U xx xx xx xx xx xx xx xx xx xx xx xx")?;
    let seat = numbers[0];
    let bytes = parse::unit_in(&numbers[1..]);
    (seat < Board::MOST).then_some(Line::Unit(seat, bytes))
}

// What a `D` line asks for, where it names no unit above %0F and no descriptor above %3F.
fn descriptor_in(line: &[u8]) -> Option<Line> {
    let numbers = parse::numbers(line, b"D xx xx xxxx xx xx")?;
    let [seat, place, high, low, limit, attributes]: [u8; 6] = numbers;
    let (place, d) = parse::descriptor_in([place, high, low, limit, attributes]);
    let named = seat < Board::MOST && place < Unit::SEGMENTS;
    named.then_some(Line::Descriptor(seat, place, d))
}

// What a `C` line asks for.
fn cycle_in(line: &[u8]) -> Option<Line> {
    let numbers = parse::numbers(line, b"C xx xx xx xx xx xx xxxx")?;
    let [status, flags, segment, offset, address, byte, high, low]: [u8; 8] = numbers;
    let c = parse::cycle_in([status, flags, segment, offset, address, byte]);
    Some(Line::Cycle(c, u16::from_be_bytes([high, low])))
}

// What the line asks for, where it is of its letter's form.
pub fn line_in(line: &[u8]) -> Option<Line> {
    if let Some(numbers) = parse::numbers(line, b"B xx") {
        let [count]: [u8; 1] = numbers;
        return Some(Line::Count(count));
    }
    unit_in(line)
        .or_else(|| descriptor_in(line))
        .or_else(|| cycle_in(line))
}
