// What the program writes of a cycle.
use rules::{Answer, Unit};
use std::io;
use std::io::Write;
use test_lines::show;
use unit_bytes::snapshot;

// A cycle's line: its answer, and the unit after it with one of its descriptors, by its number modulo 64.
pub fn cycle<W: Write>(out: &mut W, answer: Answer, unit: Unit, place: u8) -> io::Result<()> {
    show::answer(out, &unit_packed::packed(answer))?;
    let mut bytes = [0; snapshot::BYTES];
    snapshot::put_unit(&mut bytes, unit);
    show::registers(out, &bytes)?;
    let place = place % Unit::SEGMENTS;
    show::descriptor(out, place, unit.table[usize::from(place)])?;
    writeln!(out)
}
