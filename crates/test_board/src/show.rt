// What the program writes of a cycle: its answer, and the units that it changed.
use crate::Units;
use board_rules::Board;
use rules::Unit;
use std::io;
use std::io::Write;
use test_lines::show;
use unit_bytes::snapshot;
use unit_bytes::snapshot::DESCRIPTOR;

// The answer's line, which ends with the unit that is named.
pub fn answer<W: Write>(out: &mut W, packed: &[u8; board_packed::BYTES]) -> io::Result<()> {
    show::answer(out, packed)?;
    write!(out, " | ")?;
    match packed[board_packed::NAMED_AT] {
        board_packed::NOBODY => write!(out, "--")?,
        named => show::number(out, named)?,
    }
    writeln!(out)
}

// A unit's line: its number, its registers, and the descriptors that have changed.
fn unit<W: Write>(
    out: &mut W,
    i: u8,
    old: &[u8; snapshot::BYTES],
    new: &[u8; snapshot::BYTES],
) -> io::Result<()> {
    show::number(out, i)?;
    show::registers(out, new)?;
    let (old_table, _) = old[snapshot::TABLE..snapshot::LOW].as_chunks::<DESCRIPTOR>();
    let (new_table, _) = new[snapshot::TABLE..snapshot::LOW].as_chunks::<DESCRIPTOR>();
    for (place, (old, new)) in (0..Unit::SEGMENTS).zip(old_table.iter().zip(new_table)) {
        // a descriptor is compared as one number, since a cycle may show 1,024 of them
        if u32::from_ne_bytes(*old) != u32::from_ne_bytes(*new) {
            show::descriptor(out, place, snapshot::descriptor_in(new, 0))?;
        }
    }
    writeln!(out)
}

// The line of each unit that has changed.
pub fn changes<W: Write>(out: &mut W, old: &Units, new: &Units) -> io::Result<()> {
    for (i, (old, new)) in (0..Board::MOST).zip(old.iter().zip(new)) {
        if show::differ(old, new) {
            unit(out, i, old, new)?;
        }
    }
    Ok(())
}
