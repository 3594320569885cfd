// Document 01, "Fetch": when an instruction starts, and what it clears.
#![tactic(auto)]

ghost use Rattle.std.specs.Prelude.{◌≡◌};
ghost use Rattle.rules.specs.Bus.{fetch};
ghost use Rattle.rules.specs.Memory.{begun, resumed};

use rules::{Cycle, Registers, Unit};
use rules_registers::with_notes;

// A CPU read with status %D starts an instruction.
pub fn is_fetch(c: Cycle) -> bool
    ensures { result ≡ fetch c }
{
    !c.dma & c.read & (c.status == Unit::FETCH)
}

// The registers after the aborted fetch: await, own and hold are cleared.
#[tactic(auto, unfolding(rules::specs::Memory::resumed))]
pub fn resumed(r: Registers) -> Registers
    ensures { result ≡ resumed r }
{
    with_notes(r, r.notes.request, false, false, false)
}

// The registers as an instruction starts: own and hold are cleared.
#[tactic(auto, unfolding(rules::specs::Memory::begun))]
pub fn begun(r: Registers, starts: bool) -> Registers
    ensures { result ≡ begun r starts }
{
    with_notes(
        r,
        r.notes.request,
        r.notes.awaits,
        r.notes.own & !starts,
        r.notes.hold & !starts,
    )
}
