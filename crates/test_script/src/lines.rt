// The lines of a script.
use rules::{Cycle, Descriptor, Unit};
use test_lines::parse;
use unit_bytes::snapshot;

// What a line asks for: a unit that it states, a descriptor put at a place, a cycle.
#[derive(Drop)]
pub enum Line {
    Unit(Unit),
    Descriptor(u8, Descriptor),
    Cycle(Cycle),
}

// What the line asks for, where it is of its letter's form and names no descriptor above %3F.
pub fn line_in(line: &[u8]) -> Option<Line> {
    if let Some(numbers) = parse::numbers::<11>(line, b"U xx xx xx xx xx xx xx xx xx xx xx") {
        let bytes = parse::unit_in(&numbers);
        return Some(Line::Unit(snapshot::unit_in(&bytes)));
    }
    if let Some(numbers) = parse::numbers(line, b"D xx xxxx xx xx") {
        let (place, d) = parse::descriptor_in(numbers);
        if place < Unit::SEGMENTS {
            return Some(Line::Descriptor(place, d));
        }
    }
    let numbers = parse::numbers(line, b"C xx xx xx xx xx xx")?;
    Some(Line::Cycle(parse::cycle_in(numbers)))
}
