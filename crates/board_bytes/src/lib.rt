// One cycle of a board whose units are kept in bytes that the caller lends, one unit's behind another's. All units are judged before any is
// touched, and each is stepped where it stands, so nobody copies 4 KB a cycle.
#![tactic(auto)]

ghost use Rattle.std.specs.Prelude.{◌≡◌, map, [], ◌*◌, ◌<◌, ◌≤◌, length};
ghost use Rattle.rules.specs.Numbers.{refusal_number, number_of_outcome};
ghost use Rattle.unit_bytes.specs.Snapshot.{unit_size, unit_in};
ghost use Rattle.board_rules.specs.Board.{seated, answer_of};
ghost use Rattle.board_answers.specs.Joint.{nothing, ahead};
ghost use Rattle.board_refusals.proofs.Laws.{Known};
ghost use Rattle.board_bytes.specs.Boarded.{held_registers, parts_in, seats_in, stepped_in, Boarded};

use board_answers::Joint;
use board_refusals::Judged;
use board_rules::{Board, BoardCycle, seen_by};
use rules::refusal::Refusal;
use rules::{Control, Cycle, Registers};
use rules_registers::with_control;
use unit_bytes::{in_place, snapshot};

// A SAR that no unit has: with it the registers meet 2.
const NO_SAR: u8 = 64;

// The registers of a unit's bytes. Strange notes are no unit's: its registers are judged as damaged ones.
#[tactic(auto, unfolding(crate::specs::Boarded::held_registers))]
fn held_registers(unit: &[u8]) -> Registers
    requires { unit_size ≤ length unit.now }
    ensures { result ≡ held_registers unit.now }
{
    let r = snapshot::registers_in(unit);
    if snapshot::LAST_NOTES < unit[snapshot::NOTES] {
        return with_control(
            r,
            Control {
                sar: NO_SAR,
                ..r.control
            },
        );
    }
    r
}

// The first `count` units, judged. `board_step` has this loop and the next one by value; they are no generic one, which is no plainer: a trait of
// both would have two views of a unit, since strange notes are judged as `held_in` and stepped as `unit_in`, and `Boarded` tells every byte.
// Bytes and a count, no slice of units: `seats_in` takes both, and by the slice's length the bound would still stand here, of the length. A unit's
// number is cast, here and below, as in `board_step`. Cycle and selects go to `cycle` apart: docs/LIBRARY.md names it so, and C hands them over so.
fn judge_all(units: &[u8], count: usize, c: BoardCycle) -> Judged
    requires { (count ≤ 16) × (unit_size * count ≤ length units.now) }
    ensures { Known result c.cycle (seats_in units.now count c.selects) }
{
    let q = board_refusals::ask(c.cycle);
    let mut j = board_refusals::unjudged();
    for (i, unit) in units.chunks_exact(snapshot::BYTES).enumerate().take(count) {
        let r = held_registers(unit);
        let select = (c.selects >> i) % 2 == 1;
        j = board_refusals::judge(j, i as u8, r, select, c.cycle, q);
    }
    j
}

// The first `count` units, each stepped alone in its bytes, and what they answered. It takes a count as `judge_all` does: so does `stepped_in`.
fn step_all(units: &mut [u8], count: usize, c: BoardCycle) -> Joint
    requires { (count ≤ 16) × (unit_size * count ≤ length units.old) }
    ensures { (units.new ≡ stepped_in c.cycle count c.selects units.old)
        × (ahead result count [] ≡ ahead nothing 0 (map (answer_of c.cycle) (seated (map unit_in (parts_in units.old count)) c.selects))) }
{
    let mut joint = board_answers::nothing();
    // By its index, since the library says nothing of what a slice ends as whose parts `chunks_exact_mut` or `as_chunks_mut` has lent.
    for i in 0..count {
        let at = snapshot::BYTES * i;
        let select = (c.selects >> i) % 2 == 1;
        let x = in_place::stepped(
            &mut units[at..at + snapshot::BYTES],
            seen_by(c.cycle, select),
        );
        joint = board_answers::join(joint, i as u8, x);
    }
    joint
}

// The refusal of a number that a board gives of its units. A verdict holds any number, as `board_refusals` takes it, and theirs are these six.
// No `TryFrom`, which would have an Err that cannot come.
fn refusal_of(number: u8) -> Refusal
    requires { (1 ≤ number) × (number ≤ 13) × (4 < number → 12 ≤ number) }
    ensures { refusal_number result ≡ number }
{
    match number {
        1 => Refusal::OutOfRange,
        2 => Refusal::Damaged,
        3 => Refusal::Unlisted,
        4 => Refusal::WrongWay,
        12 => Refusal::TwoDrive,
        _ => Refusal::SeveralRead,
    }
}

// One cycle: the packed answer in the one buffer, the units after the cycle in the other, and the refusal, if it is one. Where a buffer is too
// short it refuses too, and both are left as they were; a wrong count does not ask the units' room.
pub fn cycle(
    units: &mut [u8],
    answer: &mut [u8],
    count: usize,
    c: Cycle,
    selects: u16,
) -> Result<(), Refusal>
    ensures { Boarded (record { cycle = c; selects = selects }) count
        units.old answer.old units.new answer.new (number_of_outcome result) }
{
    if answer.len() < board_packed::BYTES {
        return Err(Refusal::NoRoom);
    }
    if (count == 0) | (Board::UNITS < count) {
        let a = board_refusals::refused(Refusal::WrongCount.into(), None, false);
        board_packed::put(answer, 0, a);
        return Err(Refusal::WrongCount);
    }
    if units.len() < snapshot::BYTES * count {
        return Err(Refusal::NoRoom);
    }
    let b = BoardCycle { cycle: c, selects };
    let j = judge_all(units, count, b);
    if let Some(v) = board_refusals::refuses(j, c.read) {
        let reason = refusal_of(v.number);
        let a = board_refusals::refused(v.number, v.named, j.stood);
        board_packed::put(answer, 0, a);
        return Err(reason);
    }
    let joint = step_all(units, count, b);
    board_packed::put(answer, 0, board_answers::told(joint, c, j.command));
    Ok(())
}
