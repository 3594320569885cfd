// Document 01, "Fetch" and "Checks": what is decided in a memory cycle.
#![tactic(auto)]

ghost use Rattle.std.specs.Prelude.{◌≡◌};
ghost use Rattle.rules.specs.Memory.{accessed, through, memory};

use rules::{Address, Cycle, Decision, Descriptor, Kind, Registers, Way};

// A translated cycle that is no aborted fetch; `r` are the registers as it begins.
#[tactic(auto, unfolding(rules::specs::Memory::accessed))]
fn accessed(r: Registers, d: Descriptor, c: Cycle, l: Address) -> Decision
    ensures { result ≡ accessed r d c l }
{
    let rights = memory_rights::rights_of(d.attributes, c);
    let long = memory_length::out_of_length(d, c);
    let violation = (rights != 0) | long;
    let warning = memory_length::warns(d, c, violation);
    memory_outcomes::checked(rights, long, violation, warning, r, d, c, l)
}

// One that is no aborted fetch, by its way.
fn through(way: Way, r: Registers, d: Descriptor, c: Cycle, l: Address) -> Decision
    ensures { result ≡ through way r d c l }
{
    match way {
        Way::Translated => accessed(r, d, c, l),
        Way::Passed => memory_outcomes::untranslated(r, c, l, Kind::Passed),
        Way::Silent => memory_outcomes::untranslated(r, c, l, Kind::Ignored),
    }
}

// A memory cycle, with its segment's descriptor.
#[tactic(auto, unfolding(rules::specs::Memory::memory))]
pub fn memory(r: Registers, d: Descriptor, c: Cycle) -> Decision
    ensures { result ≡ memory r d c }
{
    let starts = memory_fetch::is_fetch(c);
    let way = memory_translation::way_of(r.control.mr, c);
    let l = memory_translation::address_of(way, d.base, c);
    let aborts = starts & r.notes.awaits;
    if aborts {
        return memory_outcomes::aborted(r, l);
    }
    through(way, memory_fetch::begun(r, starts), d, c, l)
}
