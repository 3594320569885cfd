// One cycle of a unit in bytes, where it stands. The table is not copied, so that a caller can keep many units and step each of them in every
// cycle.
ghost use Rattle.std.specs.Prelude.{◌≡◌, ◌<◌, ◌≤◌, length};
ghost use Rattle.unit_bytes.specs.Snapshot.{segments, unit_size};
ghost use Rattle.unit_bytes.specs.InPlace.{decided_in, raised_in, put_change, in_place};

use crate::snapshot::{
    ATTRIBUTES, DESCRIPTOR, LOW, TABLE, descriptor_bytes, descriptor_in, register_bytes,
    registers_in,
};
use rules::{Answer, Change, Cycle, Unit};
use unit_stores::store;

// Flags set in the attributes of every descriptor. By index, since of what `step_by` and `chunks_exact_mut` leave only the length is known.
#[tactic(auto, unfolding(crate::specs::InPlace::raised_in))]
fn raised(unit: &mut [u8], mask: u8)
    requires { unit_size ≤ length unit.old }
    ensures { unit.new ≡ raised_in mask segments unit.old }
{
    for i in 0..Unit::DESCRIPTORS {
        unit[TABLE + DESCRIPTOR * i + ATTRIBUTES] |= mask;
    }
}

// A change at a place, stored: a descriptor there, or flags in all of them.
#[tactic(auto, unfolding(crate::specs::InPlace::put_change))]
fn put_change(unit: &mut [u8], h: Change, i: usize)
    requires { (unit_size ≤ length unit.old) × (i < segments) }
    ensures { unit.new ≡ put_change h i unit.old }
{
    match h {
        Change::Keep => {}
        Change::Put(d) => store(unit, TABLE + DESCRIPTOR * i, descriptor_bytes(d)),
        Change::Raise(mask) => raised(unit, mask),
    }
}

// One cycle of the unit in the bytes, in place: the registers and at most the descriptors that change are written.
#[tactic(auto, unfolding(crate::specs::InPlace::looked_at, crate::specs::InPlace::decided_in, crate::specs::InPlace::put_registers, crate::specs::InPlace::in_place))]
pub fn stepped(unit: &mut [u8], c: Cycle) -> Answer
    requires { unit_size ≤ length unit.old }
    ensures { (result ≡ (decided_in unit.old c).answer) × (unit.new ≡ in_place unit.old c) }
{
    let r = registers_in(unit);
    let i = usize::from(unit_decide::place_of(r, c) % Unit::SEGMENTS);
    let d = descriptor_in(unit, TABLE + DESCRIPTOR * i);
    let p = unit_decide::act(r, d, c);
    store(unit, 0, register_bytes(p.registers));
    unit[LOW] = p.registers.low;
    put_change(unit, p.change, i);
    p.answer
}
