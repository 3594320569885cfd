// What a cycle does to the table.
ghost use Rattle.std.specs.Prelude.{◌≡◌, map, ◌%◌};
ghost use Rattle.rules.specs.Step.{with_flags, changed};

use rules::{Change, Descriptor, Unit};

// Flags set in a descriptor.
pub fn with_flags(d: Descriptor, mask: u8) -> Descriptor
    ensures { result ≡ with_flags mask d }
{
    Descriptor {
        attributes: d.attributes | mask,
        ..d
    }
}

// Flags set in every descriptor.
#[tactic(auto, using(crate::proofs::Prefix::up_to_suc, crate::proofs::Prefix::up_to_all))]
pub fn with_flags_in_all(
    t: [Descriptor; Unit::DESCRIPTORS],
    mask: u8,
) -> [Descriptor; Unit::DESCRIPTORS]
    ensures { result ≡ map (with_flags mask) t }
{
    let mut out = t;
    for d in &mut out {
        *d = with_flags(*d, mask);
    }
    out
}

// The table after a change at a place, modulo 64.
#[tactic(auto, unfolding(rules::specs::Step::changed))]
pub fn changed(
    h: Change,
    place: u8,
    t: [Descriptor; Unit::DESCRIPTORS],
) -> [Descriptor; Unit::DESCRIPTORS]
    ensures { result ≡ changed h (place % 64) t }
{
    let i = usize::from(place % Unit::SEGMENTS);
    match h {
        Change::Keep => t,
        Change::Put(d) => {
            let mut out = t;
            out[i] = d;
            out
        }
        Change::Raise(mask) => with_flags_in_all(t, mask),
    }
}
