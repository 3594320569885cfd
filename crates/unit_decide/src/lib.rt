// What is decided in one cycle, from the registers and one descriptor.
#![tactic(auto)]

ghost use Rattle.std.specs.Prelude.{◌≡◌};
ghost use Rattle.rules.specs.Step.{decided, place_of};

use rules::refusal::Refusal;
use rules::{Cycle, Decision, Descriptor, Registers, Unit};
use unit_dispatch::{refusals, status};

// What is decided in one cycle; `d` is the descriptor at its place. The three go down to the leaves one by one, as the definitions take them: a
// struct of them would be a group that is copied whole (`rules_registers`).
#[tactic(auto, unfolding(rules::specs::Step::decided))]
pub fn act(r: Registers, d: Descriptor, c: Cycle) -> Decision
    ensures { result ≡ decided r d c }
{
    let broken = refusals::damaged(r);
    if broken {
        return rules_answers::refused(Refusal::Damaged.into(), r);
    }
    let outside = refusals::out_of_range(c);
    if outside {
        return rules_answers::refused(Refusal::OutOfRange.into(), r);
    }
    let reset = c.reset;
    if reset {
        return status::reset_by(c.select, r);
    }
    status::by_status(r, d, c)
}

// Whose descriptor a cycle looks at, modulo 64: that at SAR in a command, else the segment's. The status is tested against its constant, as
// `place_of` of the definitions says it.
#[tactic(auto, unfolding(rules::specs::Step::place_of))]
pub fn place_of(r: Registers, c: Cycle) -> u8
    ensures { result ≡ place_of r c }
{
    let command = c.status == Unit::COMMAND;
    if command {
        return r.control.sar;
    }
    c.segment
}
