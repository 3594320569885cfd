// A board's answer packed in bytes: the answer as a unit's is, and behind it the unit that is named.
#![tactic(auto)]

ghost use Rattle.std.specs.Prelude.{◌≡◌, ◌+◌, ◌≤◌, length};
ghost use Rattle.std.proofs.lemmas.List.Edits.{sets};
ghost use Rattle.board_packed.specs.BoardPacked.{board_width, board_packed};

use board_rules::BoardAnswer;
use unit_stores::store;

// Where the named unit stands, the bytes of an answer, and the byte that says that none is named, since callers in C read it.
pub const NAMED_AT: usize = unit_packed::BYTES;

pub const BYTES: usize = NAMED_AT + 1;

pub const NOBODY: u8 = 255;

// An answer's bytes.
#[tactic(auto, unfolding(crate::specs::BoardPacked::board_packed, unit_packed::specs::Packed::packed))]
pub fn packed(a: BoardAnswer) -> [u8; BYTES]
    ensures { result ≡ board_packed a }
{
    let [letter, number, high, low, flags, byte, distance] = unit_packed::packed(a.answer);
    [
        letter,
        number,
        high,
        low,
        flags,
        byte,
        distance,
        a.named.unwrap_or(NOBODY),
    ]
}

// An answer's bytes stored from an index on: one line, as `unit_packed::put` is.
pub fn put(out: &mut [u8], at: usize, a: BoardAnswer)
    requires { at + board_width ≤ length out.old }
    ensures { out.new ≡ sets out.old at (board_packed a) }
{
    store(out, at, packed(a));
}
