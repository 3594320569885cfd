// Document 01, "Recording": what a CPU cycle that violates or warns leaves in the VTR, its companions and the notes.
#![tactic(auto)]

ghost use Rattle.std.specs.Prelude.{◌≡◌};
ghost use Rattle.rules.specs.Recording.{event_of, bus_status, first_entry, added, raised, recorded};

use rules::{Control, Cycle, Faults, Fetched, Notes, Registers, Unit};
use rules_flags::flag_if;
use rules_registers::{with_notes, with_vtr};

// What there is to record: a violation's flags, or PWW, or 0, which is the byte with no flag and no missing value. The findings come one by one,
// here and in `checked`: docs/DESIGN-PASS.md has what a run takes with one struct of them.
#[tactic(auto, unfolding(rules::specs::Recording::event_of))]
pub fn event_of(dma: bool, rights: u8, long: bool, violation: bool, warning: bool) -> u8
    ensures { result ≡ event_of dma (record { rights = rights; long = long; violation = violation; warning = warning }) }
{
    if dma {
        return 0;
    }
    if violation {
        return rights | flag_if(long, Unit::SLV);
    }
    if warning { Unit::PWW } else { 0 }
}

// The byte that BCSR stores.
#[tactic(auto, unfolding(rules::specs::Recording::bus_status))]
pub fn bus_status(c: Cycle) -> u8
    ensures { result ≡ bus_status c }
{
    c.status % Unit::STATUSES | flag_if(c.read, Unit::READ) | flag_if(c.normal, Unit::NORMAL)
}

// No primary flag stands: all is stored, and the unit asks. Written out field by field as in `rules_registers`, for the same reason.
#[tactic(auto, unfolding(rules::specs::Recording::first_entry))]
pub fn first_entry(r: Registers, c: Cycle, event: u8) -> Registers
    ensures { result ≡ first_entry r c event }
{
    Registers {
        control: Control {
            mr: r.control.mr,
            sar: r.control.sar,
            dscr: r.control.dscr,
        },
        faults: Faults {
            vtr: r.faults.vtr | event,
            vsn: c.segment % Unit::NUMBERS,
            voff: c.offset,
            bcsr: bus_status(c),
        },
        fetched: Fetched {
            isn: r.fetched.isn,
            ioff: r.fetched.ioff,
        },
        notes: Notes {
            request: true,
            awaits: true,
            own: true,
            hold: r.notes.hold,
        },
        low: c.low,
    }
}

// The same instruction again: flags are added, nothing else.
#[tactic(auto, unfolding(rules::specs::Recording::added))]
pub fn added(r: Registers, event: u8) -> Registers
    ensures { result ≡ added r event }
{
    with_vtr(r, r.faults.vtr | event)
}

// A later instruction's entry: one flag, SWW or FATL, and a request while FATL is clear.
#[tactic(auto, unfolding(rules::specs::Recording::raised))]
pub fn raised(r: Registers, flag: u8) -> Registers
    ensures { result ≡ raised r flag }
{
    let asks = r.faults.vtr & Unit::FATL == 0;
    with_notes(
        added(r, flag),
        r.notes.request | asks,
        r.notes.awaits | asks,
        r.notes.own,
        r.notes.hold,
    )
}

// The recording rows.
#[tactic(auto, unfolding(rules::specs::Recording::recorded))]
pub fn recorded(r: Registers, c: Cycle, event: u8) -> Registers
    ensures { result ≡ recorded r c event }
{
    let nothing = event == 0;
    if nothing {
        return r;
    }
    let first = r.faults.vtr & Unit::PRIMARY == 0;
    if first {
        return first_entry(r, c, event);
    }
    let own = r.notes.own;
    if own {
        return added(r, event);
    }
    let stack = (event == Unit::PWW) & !c.normal & (c.status == Unit::STACK);
    if stack {
        let standing = r.faults.vtr & Unit::SWW != 0;
        if standing {
            return r;
        }
        return raised(r, Unit::SWW);
    }
    raised(r, Unit::FATL)
}
