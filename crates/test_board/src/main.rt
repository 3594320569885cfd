// Reads a script from standard input, and writes what a board answers to each of its cycles, with each unit that the cycle changed. The functions
// here only have to be safe and to end: what they read and write is held to the stored text, and to the second model.
#![tactic(auto)]

mod lines;
mod show;

use board_rules::Board;
use lines::Line;
use rules::{Cycle, Descriptor, Unit};
use std::io;
use std::io::Write;
use test_lines::show::{Lossy, other};
use unit_bytes::snapshot;

// The bytes of all units, one unit's behind another's.
type Units = [[u8; snapshot::BYTES]; Board::UNITS];

// The units, and how many of them are on the board.
#[derive(Drop)]
struct Seated {
    units: Units,
    count: u8,
}

// So many units on the board, all at power-on.
fn power_on(count: u8) -> Seated {
    Seated {
        units: [[0; snapshot::BYTES]; Board::UNITS],
        count,
    }
}

// Puts the descriptor of a `D` line.
fn put_descriptor(units: &mut Units, seat: u8, place: u8, d: Descriptor) {
    if let Some(unit) = units.get_mut(usize::from(seat)) {
        let at = snapshot::TABLE + snapshot::DESCRIPTOR * usize::from(place % Unit::SEGMENTS);
        snapshot::put_descriptor(unit, at, d);
    }
}

// The cycle of a `C` line: its answer, and the units that it changed.
fn step<W: Write>(out: &mut W, board: &mut Seated, c: Cycle, selects: u16) -> io::Result<()> {
    let before = board.units;
    let mut answer = [0; board_packed::BYTES];
    let count = usize::from(board.count);
    // what refuses stands in the answer, which is shown
    let _ = board_bytes::cycle(
        board.units.as_flattened_mut(),
        &mut answer,
        count,
        c,
        selects,
    );
    show::answer(out, &answer)?;
    show::changes(out, &before, &board.units)
}

// Does what a line says; one that asks for nothing is answered at once.
fn obey<W: Write>(out: &mut W, board: &mut Seated, line: &[u8]) -> io::Result<()> {
    match lines::line_in(line) {
        Some(Line::Count(count)) => *board = power_on(count),
        Some(Line::Unit(seat, bytes)) => {
            if let Some(unit) = board.units.get_mut(usize::from(seat)) {
                *unit = bytes;
            }
        }
        Some(Line::Descriptor(seat, place, d)) => put_descriptor(&mut board.units, seat, place, d),
        Some(Line::Cycle(c, selects)) => step(out, board, c, selects)?,
        None => other(out, line)?,
    }
    Ok(())
}

// Before any line the board has one unit. What fails is not told: what comes behind it is written, and the program ends as ever.
fn main(rt: HostRuntime) {
    let mut out = Lossy(rt.stdout());
    let mut board = power_on(1);
    let _ = test_lines::each_line(&mut rt.stdin(), |line| obey(&mut out, &mut board, line));
}
