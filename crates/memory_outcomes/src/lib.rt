// Document 01, "Fetch" and "SUP": what a memory cycle comes to: aborted, not translated, or checked.
#![tactic(auto)]

ghost use Rattle.std.specs.Prelude.{◌≡◌};
ghost use Rattle.rules.specs.Memory.{aborted, untranslated, checked};

use rules::{Address, Change, Cycle, Decision, Descriptor, Kind, Registers};

// The aborted fetch: nothing is checked or recorded.
#[tactic(auto, unfolding(rules::specs::Memory::aborted))]
pub fn aborted(r: Registers, l: Address) -> Decision
    ensures { result ≡ aborted r l }
{
    Decision {
        answer: rules_answers::seen(Kind::Aborted, l, false, r.notes.request, 0),
        registers: memory_fetch::resumed(r),
        change: Change::Keep,
    }
}

// A memory cycle that is not translated; `r` are the registers as it begins.
#[tactic(auto, unfolding(rules::specs::Memory::untranslated))]
pub fn untranslated(r: Registers, c: Cycle, l: Address, kind: Kind) -> Decision
    ensures { result ≡ untranslated r c l kind }
{
    Decision {
        answer: rules_answers::seen(kind, l, !c.dma & r.notes.hold, r.notes.request, 0),
        registers: r,
        change: Change::Keep,
    }
}

// A translated cycle, by what its checks find.
#[tactic(auto, unfolding(rules::specs::Memory::checked))]
pub fn checked(
    rights: u8,
    long: bool,
    violation: bool,
    warning: bool,
    r: Registers,
    d: Descriptor,
    c: Cycle,
    l: Address,
) -> Decision
    ensures { result ≡ checked (record { rights = rights; long = long; violation = violation; warning = warning }) r d c l }
{
    let event = memory_recording::event_of(c.dma, rights, long, violation, warning);
    let after = memory_recording::recorded(r, c, event);
    let sup = violation | (!c.dma & r.notes.hold);
    let stores = memory_fetch::is_fetch(c) & !violation & (r.faults.vtr == 0);
    let distance = memory_length::distance(d, c);
    Decision {
        answer: rules_answers::seen(Kind::Translated, l, sup, after.notes.request, distance),
        registers: memory_touch::noted(after, stores, violation & !c.dma, c),
        change: memory_touch::touched_by(sup, d, c),
    }
}
