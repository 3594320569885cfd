// One cycle of a unit, by value.
ghost use Rattle.std.specs.Prelude.{◌≡◌};
ghost use Rattle.rules.specs.Step.{stepped};

use crate::table;
use rules::{Cycle, Stepped, Unit};

// The unit after a cycle, and its answer.
#[tactic(auto, unfolding(rules::specs::Step::after, rules::specs::Step::decision))]
pub fn step(u: Unit, c: Cycle) -> Stepped
    ensures { result ≡ stepped u c }
{
    let r = u.registers;
    let t = u.table;
    let place = unit_decide::place_of(r, c);
    let i = usize::from(place % Unit::SEGMENTS);
    let d = t[i];
    let p = unit_decide::act(r, d, c);
    let answer = p.answer;
    let registers = p.registers;
    let change = p.change;
    let table = table::changed(change, place, t);
    Stepped {
        unit: Unit { table, registers },
        answer,
    }
}
