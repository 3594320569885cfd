// One cycle of a unit in bytes, for buffers that have room.
ghost use Rattle.std.specs.Prelude.{false, ◌≤◌, length};
ghost use Rattle.unit_packed.specs.Packed.{width};
ghost use Rattle.unit_bytes.specs.Snapshot.{unit_size};
ghost use Rattle.unit_bytes.specs.Cycled.{Cycled};

use crate::snapshot::{LAST_NOTES, NOTES, put_unit, registers_in, unit_in};
use rules::Cycle;
use rules::refusal::Refusal;
use unit_step::step::step;

// One cycle of the unit in the bytes, both buffers having room. A number and no `Result`: `Cycled` says that of the kind, `Refused` with any u8.
pub fn cycled(unit: &mut [u8], answer: &mut [u8], c: Cycle) -> u8
    requires { (unit_size ≤ length unit.old) × (width ≤ length answer.old) }
    ensures { Cycled false c unit.old answer.old unit.new answer.new result }
{
    let a = if LAST_NOTES < unit[NOTES] {
        rules_answers::refused(u8::from(Refusal::Damaged), registers_in(unit)).answer
    } else {
        let s = step(unit_in(unit), c);
        put_unit(unit, s.unit);
        s.answer
    };
    unit_packed::put(answer, 0, a);
    rules_answers::number(a.kind)
}
