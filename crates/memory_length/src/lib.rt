// Document 01, "Checks": the length of a translated cycle's segment, how many blocks remain to its edge, and the warning at the edge of a stack.
#![tactic(auto)]

ghost use Rattle.std.specs.Prelude.{◌≡◌};
ghost use Rattle.rules.specs.Checks.{out_of_length, distance_of, warns};

use rules::{Cycle, Descriptor, Unit};

// Whether the offset byte is past the limit, in the segment's direction.
#[tactic(auto, unfolding(rules::specs::Checks::out_of_length))]
pub fn out_of_length(d: Descriptor, c: Cycle) -> bool
    ensures { result ≡ out_of_length d c }
{
    let down = d.attributes & Unit::DIRW != 0;
    if down {
        return c.offset < d.limit;
    }
    d.limit < c.offset
}

// How many whole blocks remain between the accessed one and the last permitted, in the segment's direction; 0 past it.
#[tactic(auto, unfolding(rules::specs::Checks::out_of_length, rules::specs::Checks::distance_of))]
pub fn distance(d: Descriptor, c: Cycle) -> u8
    ensures { result ≡ distance_of d c }
{
    let long = out_of_length(d, c);
    if long {
        return 0;
    }
    let down = d.attributes & Unit::DIRW != 0;
    if down {
        return c.offset - d.limit;
    }
    d.limit - c.offset
}

// Whether this cycle warns: a CPU write without violation in the last block of a stack.
#[tactic(auto, unfolding(rules::specs::Checks::warns))]
pub fn warns(d: Descriptor, c: Cycle, violation: bool) -> bool
    ensures { result ≡ warns d c violation }
{
    let dma = c.dma;
    if dma {
        return false;
    }
    let read = c.read;
    if read {
        return false;
    }
    if violation {
        return false;
    }
    let down = d.attributes & Unit::DIRW != 0;
    if down {
        let edge = c.offset == d.limit;
        if edge {
            return true;
        }
    }
    false
}
