// The header of a trace, and what refuses a trace. No public call asks anything of the trace that it is lent.
#![tactic(auto)]

ghost use Rattle.std.specs.Prelude.{◌≡◌, ◌<◌, get_or};
ghost use Rattle.rules.specs.Numbers.{number_of_outcome};
ghost use Rattle.unit_stores.specs.Word.{word_values, word_at};
ghost use Rattle.trace_header.specs.Header.{head_size, marked, count_of, refusal_of};

use rules::refusal::Refusal;

// The mark that a trace opens with.
pub const MARK: [u8; 3] = *b"MBT";

// The version that is read here.
pub const VERSION: usize = 1;

// The most records that a trace may have.
pub const MOST: usize = 16000;

// Where the version and the record count stand, the bytes of the header, and those of a record.
pub const VERSION_AT: usize = 3;

pub const COUNT_AT: usize = 5;

pub const HEAD: usize = 7;

pub const RECORD: usize = 4;

// The byte at an index, and 0 past the end.
pub fn byte_at(bytes: &[u8], at: usize) -> u8
    ensures { result ≡ get_or bytes.now at 0 }
{
    bytes.get(at).copied().unwrap_or(0)
}

// 16 bits of the header, high byte first.
#[tactic(auto, unfolding(unit_stores::specs::Word::word_at))]
fn word_at(bytes: &[u8], at: usize) -> usize
    requires { at < head_size }
    ensures { (result ≡ word_at bytes.now at) × (result < word_values) }
{
    usize::from(u16::from_be_bytes([byte_at(bytes, at), byte_at(bytes, at + 1)]))
}

// The trace opens with the mark.
#[tactic(auto, unfolding(crate::specs::Header::marked))]
fn marked(trace: &[u8]) -> bool
    ensures { result ≡ marked trace.now }
{
    trace.starts_with(&MARK)
}

// The record count that the header states.
pub fn count_of(trace: &[u8]) -> usize
    ensures { (result ≡ count_of trace.now) × (result < word_values) }
{
    word_at(trace, COUNT_AT)
}

// What refuses the trace, and Ok where nothing does.
#[tactic(auto, unfolding(crate::specs::Header::refusal_in))]
pub fn refusal(trace: &[u8]) -> Result<(), Refusal>
    ensures { number_of_outcome result ≡ refusal_of trace.now }
{
    if trace.len() < HEAD || !marked(trace) {
        return Err(Refusal::NoTrace);
    }
    if word_at(trace, VERSION_AT) != VERSION {
        return Err(Refusal::OtherVersion);
    }
    let count = count_of(trace);
    if count > MOST {
        return Err(Refusal::TooMany);
    }
    if trace.len() != HEAD + RECORD * count {
        return Err(Refusal::WrongLength);
    }
    Ok(())
}
