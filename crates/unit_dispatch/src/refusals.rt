// Document 01, "Numbers that say no": the conditions of 2 and 1.
ghost use Rattle.std.specs.Prelude.{◌≡◌};
ghost use Rattle.rules.specs.Refusals.{orphan, damaged, out_of_range};

use rules::{Cycle, Registers, Unit};

// An orphan: SWW or FATL or both standing without a primary flag.
#[tactic(auto, unfolding(rules::specs::Refusals::orphan))]
fn orphan(vtr: u8) -> bool
    ensures { result ≡ orphan vtr }
{
    (vtr & Unit::PRIMARY == 0) & ((vtr & Unit::SWW != 0) | (vtr & Unit::FATL != 0))
}

// Refusal 2: a register past its numbers, or an orphan in the VTR.
#[tactic(auto, unfolding(rules::specs::Refusals::damaged))]
pub fn damaged(r: Registers) -> bool
    ensures { result ≡ damaged r }
{
    (Unit::SIX_BITS < r.control.sar)
        | (Unit::LAST_SEGMENT < r.faults.vsn)
        | (Unit::LAST_SEGMENT < r.fetched.isn)
        | (Unit::SIX_BITS < r.faults.bcsr)
        | (Unit::TWO_BITS < r.control.dscr)
        | orphan(r.faults.vtr)
}

// Refusal 1: a cycle past its numbers.
#[tactic(auto, unfolding(rules::specs::Refusals::out_of_range))]
pub fn out_of_range(c: Cycle) -> bool
    ensures { result ≡ out_of_range c }
{
    (Unit::LAST_STATUS < c.status) | (Unit::LAST_SEGMENT < c.segment)
}
