// Document 01, "Commands": %08 to %0F, which move one byte of the descriptor at SAR.
#![tactic(auto)]

ghost use Rattle.std.specs.Prelude.{◌≡◌};
ghost use Rattle.rules.specs.Entry.{byte_of, replaced, index_of, next_counter, next_segment, moved, written_by};

use rules::{Change, Control, Cycle, Descriptor, Part, Unit};

// Bytes 0 and 1 are the base, high first, 2 the limit, 3 the attributes.
#[tactic(auto, unfolding(rules::specs::Entry::byte_of))]
pub fn byte_of(d: Descriptor, i: u8) -> u8
    ensures { result ≡ byte_of d i }
{
    let [high, low] = d.base.to_be_bytes();
    match i {
        0 => high,
        1 => low,
        2 => d.limit,
        _ => d.attributes,
    }
}

// The descriptor with one byte replaced.
#[tactic(auto, unfolding(rules::specs::Entry::replaced))]
pub fn replaced(d: Descriptor, i: u8, b: u8) -> Descriptor
    ensures { result ≡ replaced d i b }
{
    let [high, low] = d.base.to_be_bytes();
    match i {
        0 => Descriptor {
            base: u16::from_be_bytes([b, low]),
            ..d
        },
        1 => Descriptor {
            base: u16::from_be_bytes([high, b]),
            ..d
        },
        2 => Descriptor { limit: b, ..d },
        _ => Descriptor { attributes: b, ..d },
    }
}

// The byte that a command uses.
#[tactic(auto, unfolding(rules::specs::Entry::index_of))]
pub fn index_of(p: Part, dscr: u8) -> u8
    ensures { result ≡ index_of p dscr }
{
    match p {
        Part::Base | Part::Whole => dscr,
        Part::Limit => 2,
        Part::Attributes => 3,
    }
}

// DSCR after the byte.
#[tactic(auto, unfolding(rules::specs::Entry::next_counter))]
pub fn next_counter(p: Part, dscr: u8) -> u8
    ensures { result ≡ next_counter p dscr }
{
    let first = dscr == 0;
    match p {
        Part::Base => { if first { 1 } else { 0 } }
        Part::Limit | Part::Attributes => 0,
        Part::Whole => (dscr % Unit::BYTES + 1) % Unit::BYTES,
    }
}

// SAR after the byte.
#[tactic(auto, unfolding(rules::specs::Entry::next_segment))]
pub fn next_segment(sar: u8, on: bool) -> u8
    ensures { result ≡ next_segment sar on }
{
    if on {
        (sar % Unit::SEGMENTS + 1) % Unit::SEGMENTS
    } else {
        sar
    }
}

// MR, SAR and DSCR after a descriptor command.
#[tactic(auto, unfolding(rules::specs::Entry::moved))]
pub fn moved(k: Control, p: Part, c: Cycle) -> Control
    ensures { result ≡ moved k p c }
{
    let next = next_counter(p, k.dscr);
    let steps = (Unit::BASE_STEP <= c.offset) & (next == 0);
    Control {
        sar: next_segment(k.sar, steps),
        dscr: next,
        ..k
    }
}

// A write takes the cycle's data byte.
#[tactic(auto, unfolding(rules::specs::Entry::written_by))]
pub fn written_by(read: bool, d: Descriptor, i: u8, b: u8) -> Change
    ensures { result ≡ written_by read d i b }
{
    if read {
        return Change::Keep;
    }
    Change::Put(replaced(d, i, b))
}
