// Flags of a byte, where a condition says whether they stand, and one of two values by a condition.
#![tactic(auto)]

ghost use Rattle.std.specs.Prelude.{◌≡◌, cond};
ghost use Rattle.rules.specs.Flags.{flag_if};

// The mask where the condition holds, else no flag.
pub fn flag_if(on: bool, mask: u8) -> u8
    ensures { result ≡ flag_if on mask }
{
    if on { mask } else { 0 }
}

// The first value where the condition holds, else the second.
pub fn pick<T: Copy>(on: bool, a: T, b: T) -> T
    ensures { result ≡ cond on a b }
{
    if on { a } else { b }
}
