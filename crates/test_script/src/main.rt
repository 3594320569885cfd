// Reads a script from standard input, and writes what a unit answers to each of its cycles, with the registers and one descriptor after it.
// The functions here only have to be safe and to end: what they read and write is held to the stored text, and to the second model.
#![tactic(auto)]

mod lines;
mod show;

use lines::Line;
use rules::{Cycle, Descriptor, Unit};
use std::io;
use std::io::Write;
use test_lines::show::{Lossy, other};
use unit_lent::step_in_place;

// Puts the descriptor of a `D` line.
fn put_descriptor(unit: &mut Unit, place: u8, d: Descriptor) {
    if let Some(slot) = unit.table.get_mut(usize::from(place)) {
        *slot = d;
    }
}

// Steps the unit in place by the cycle of a `C` line, and shows it with a descriptor: that at SAR, as it stood, at status 3, else the segment's: its
// status is tested as `unit_decide::place_of` does.
fn step<W: Write>(out: &mut W, unit: &mut Unit, c: Cycle) -> io::Result<()> {
    let place = if c.status == Unit::COMMAND {
        unit.registers.control.sar
    } else {
        c.segment
    };
    let answer = step_in_place(unit, c);
    show::cycle(out, answer, *unit, place)
}

// Does what a line says; one that asks for nothing is answered at once.
fn obey<W: Write>(out: &mut W, unit: &mut Unit, line: &[u8]) -> io::Result<()> {
    match lines::line_in(line) {
        Some(Line::Unit(stated)) => *unit = stated,
        Some(Line::Descriptor(place, d)) => put_descriptor(unit, place, d),
        Some(Line::Cycle(c)) => step(out, unit, c)?,
        None => other(out, line)?,
    }
    Ok(())
}

// What fails is not told: what comes behind it is written, and the program ends as ever.
fn main(rt: HostRuntime) {
    let mut out = Lossy(rt.stdout());
    let mut unit = Unit::power_on();
    let _ = test_lines::each_line(&mut rt.stdin(), |line| obey(&mut out, &mut unit, line));
}
