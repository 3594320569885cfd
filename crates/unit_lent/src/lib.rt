// The thin second form of the step: a unit record that the caller lends, stepped where it stands.
#![tactic(auto)]

ghost use Rattle.std.specs.Prelude.{◌≡◌};
ghost use Rattle.rules.specs.Step.{stepped};

use rules::{Answer, Cycle, Stepped, Unit};
use unit_step::step::step;

// One cycle of a unit that the caller lends: its answer, with the unit after the cycle in its place. A refusal leaves what stood there.
pub fn step_in_place(u: &mut Unit, c: Cycle) -> Answer
    ensures { (result ≡ (stepped u.old c).answer) × (u.new ≡ (stepped u.old c).unit) }
{
    let s = step(*u, c);
    *u = s.unit;
    s.answer
}

// A unit kept in a local and lent for one cycle: the same for callers that keep a unit by value. Both stay beside `step`: document 01 names the
// first form, and docs/LIBRARY.md both.
pub fn step_by_lending(u: Unit, c: Cycle) -> Stepped
    ensures { result ≡ stepped u c }
{
    let mut kept = u;
    let answer = step_in_place(&mut kept, c);
    Stepped { unit: kept, answer }
}
