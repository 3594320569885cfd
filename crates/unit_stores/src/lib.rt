// Bytes put into a lent buffer, one after the other, and a number of two bytes.
#![tactic(auto)]

ghost use Rattle.std.specs.Prelude.{[], ◌∷◌, ◌≡◌, ◌+◌, ◌<◌, ◌≤◌, length};
ghost use Rattle.std.proofs.lemmas.List.Edits.{sets};
ghost use Rattle.unit_stores.specs.Put.{Put};
ghost use Rattle.unit_stores.specs.Word.{word, high_of, low_of};

// The number of two bytes, high byte first.
pub fn word(high: u8, low: u8) -> u16
    ensures { result ≡ word high low }
{
    u16::from_be_bytes([high, low])
}

// A number of 16 bits as two bytes, high byte first.
pub fn word_bytes(n: u16) -> [u8; 2]
    ensures { result ≡ high_of n ∷ low_of n ∷ [] }
{
    n.to_be_bytes()
}

// One byte; the answer is the index after it.
pub fn put(out: &mut [u8], at: usize, b: u8) -> usize
    requires { at < length out.old }
    ensures put { Put out.old at (b ∷ []) out.new result }
    ensures upper_bound { result ≤ at + 1 }
{
    out[at] = b;
    at + 1
}

// So many bytes, stored from an index on. By value, since a run takes 2 to 4 % more instructions in four mixes of five where they are lent and
// stored one by one.
pub fn store<const N: usize>(out: &mut [u8], at: usize, bytes: [u8; N])
    requires { at + N ≤ length out.old }
    ensures { out.new ≡ sets out.old at bytes.entry }
{
    out[at..at + N].copy_from_slice(&bytes);
}
