// Document 01, the last paragraph of "Recording": REF and CHG, ISN and IOFF, hold.
#![tactic(auto)]

ghost use Rattle.std.specs.Prelude.{◌≡◌};
ghost use Rattle.rules.specs.Memory.{touched, touched_by, noted};

use rules::{Change, Control, Cycle, Descriptor, Faults, Fetched, Notes, Registers, Unit};
use rules_flags::{flag_if, pick};

// REF set, and CHG too by a write.
#[tactic(auto, unfolding(rules::specs::Memory::touched))]
fn touched(d: Descriptor, c: Cycle) -> Descriptor
    ensures { result ≡ touched d c }
{
    Descriptor {
        attributes: d.attributes | Unit::REF | flag_if(!c.read, Unit::CHG),
        ..d
    }
}

// What a translated cycle does to its descriptor.
#[tactic(auto, unfolding(rules::specs::Memory::touched_by))]
pub fn touched_by(sup: bool, d: Descriptor, c: Cycle) -> Change
    ensures { result ≡ touched_by sup d c }
{
    if sup {
        return Change::Keep;
    }
    Change::Put(touched(d, c))
}

// ISN and IOFF stored, and hold set, where they are. Written out field by field as in `rules_registers`, for the same reason.
#[tactic(auto, unfolding(rules::specs::Memory::noted))]
pub fn noted(r: Registers, stores: bool, holds: bool, c: Cycle) -> Registers
    ensures { result ≡ noted r stores holds c }
{
    Registers {
        control: Control {
            mr: r.control.mr,
            sar: r.control.sar,
            dscr: r.control.dscr,
        },
        faults: Faults {
            vtr: r.faults.vtr,
            vsn: r.faults.vsn,
            voff: r.faults.voff,
            bcsr: r.faults.bcsr,
        },
        fetched: Fetched {
            isn: pick(stores, c.segment % Unit::NUMBERS, r.fetched.isn),
            ioff: pick(stores, c.offset, r.fetched.ioff),
        },
        notes: Notes {
            request: r.notes.request,
            awaits: r.notes.awaits,
            own: r.notes.own,
            hold: r.notes.hold | holds,
        },
        low: r.low,
    }
}
