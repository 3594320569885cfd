// An answer packed in bytes.
#![tactic(auto)]

ghost use Rattle.std.specs.Prelude.{◌≡◌, ◌+◌, ◌≤◌, length};
ghost use Rattle.std.proofs.lemmas.List.Edits.{sets};
ghost use Rattle.unit_packed.specs.Packed.{width, flags_of, packed};

use rules::Answer;
use rules_flags::flag_if;
use unit_stores::{store, word_bytes};

// What stands where: the kind's letter, the number of a refusal, the address lines, the flags, the data byte, the distance; and the
// bytes of an answer.
pub const LETTER_AT: usize = 0;

pub const NUMBER_AT: usize = 1;

pub const HIGH_AT: usize = 2;

pub const LOW_AT: usize = 3;

pub const FLAGS_AT: usize = 4;

pub const DATA_BYTE_AT: usize = 5;

pub const DISTANCE_AT: usize = 6;

pub const BYTES: usize = 7;

// The flags: the address is driven, SUP, the trap line, the data byte is driven.

pub const ADDRESS: u8 = 1;

pub const SUP: u8 = 2;

pub const TRAP: u8 = 4;

pub const DRIVES: u8 = 8;

// The flags of an answer. No `From`: `Answer` is of `rules`, and the masks are of this crate.
#[tactic(auto, unfolding(crate::specs::Packed::flags_of))]
fn flags_of(a: Answer) -> u8
    ensures { result ≡ flags_of a }
{
    flag_if(a.address.driven, ADDRESS)
        | flag_if(a.sup, SUP)
        | flag_if(a.trap, TRAP)
        | flag_if(a.drives, DRIVES)
}

// An answer's bytes.
#[tactic(auto, unfolding(crate::specs::Packed::packed))]
pub fn packed(a: Answer) -> [u8; BYTES]
    ensures { result ≡ packed a }
{
    let [high, low] = word_bytes(a.address.block);
    [
        rules_answers::letter(a.kind),
        rules_answers::number(a.kind),
        high,
        low,
        flags_of(a),
        a.byte,
        a.distance,
    ]
}

// An answer's bytes stored from an index on: one line for each type, as a trait for all of them
// would have to stand in `rules`, or wrap them: an impl is of its crate's own trait or type.
pub fn put(out: &mut [u8], at: usize, a: Answer)
    requires { at + width ≤ length out.old }
    ensures { out.new ≡ sets out.old at (packed a) }
{
    store(out, at, packed(a));
}
