// The records of a trace and their cycles. No call asks anything of the trace or the part that it is lent.
#![tactic(auto)]

ghost use Rattle.std.specs.Prelude.{◌≡◌};
ghost use Rattle.rules.specs.Numbers.{number_of_outcome};
ghost use Rattle.trace_records.specs.Trace.{given_of, record_refusal_of, Shows, cycle_of};

use rules::refusal::Refusal;
use rules::{Cycle, Unit};
use trace_header::{HEAD, RECORD, byte_at, count_of, refusal};

// The bytes of a record: one with the bits of BCSR, the segment, the byte of the address phase, and the data byte.
pub const STATUS_AT: usize = 0;

pub const SEGMENT_AT: usize = 1;

pub const OFFSET_AT: usize = 2;

pub const DATA_AT: usize = 3;

// The bits of its first byte above those of BCSR, and the reset line in its second.
pub const DMA: u8 = 64;

pub const SELECT: u8 = 128;

pub const RESET: u8 = 128;

// How many records the trace gives: its count, and none where it is refused.
// 0, and no Result: that a refused trace gives no record is what `given_of` says, and so how often a reader is asked.
#[tactic(auto, unfolding(crate::specs::Trace::given_in))]
pub fn count(trace: &[u8]) -> usize
    ensures { result ≡ given_of trace.now }
{
    match refusal(trace) {
        Ok(()) => count_of(trace),
        Err(_) => 0,
    }
}

// What refuses record n: what refuses the trace, or that n is at or past its count; and Ok where nothing does.
#[tactic(auto, unfolding(crate::specs::Trace::record_refusal_in))]
pub fn record_refusal(trace: &[u8], n: usize) -> Result<(), Refusal>
    ensures { number_of_outcome result ≡ record_refusal_of trace.now n }
{
    refusal(trace)?;
    if n >= count_of(trace) {
        return Err(Refusal::PastTheCount);
    }
    Ok(())
}

// Record n as that part of the trace, and the empty part at the trace's start where it is refused.
// The empty part, and no Option: `Shows` promises where it lies.
#[tactic(auto, using(crate::proofs::Within::record_within), unfolding(crate::specs::Trace::part_in, crate::specs::Trace::part_start_in))]
pub fn part(trace: &[u8], n: usize) -> &[u8]
    ensures { Shows trace.entry n result }
{
    if record_refusal(trace, n).is_err() {
        return &trace[0..0];
    }
    let at = HEAD + RECORD * n;
    &trace[at..at + RECORD]
}

// The cycle of a record's four bytes, which have no low byte: it is 0. In a shorter part the bytes that are missing count as 0, and in a longer one the first four are read.
#[tactic(auto, unfolding(crate::specs::Trace::cycle_of))]
pub fn decode(part: &[u8]) -> Cycle
    ensures { result ≡ cycle_of part.now }
{
    let b0 = byte_at(part, STATUS_AT);
    let b1 = byte_at(part, SEGMENT_AT);
    let b2 = byte_at(part, OFFSET_AT);
    let b3 = byte_at(part, DATA_AT);
    Cycle {
        status: b0 % Unit::STATUSES,
        read: b0 & Unit::READ != 0,
        normal: b0 & Unit::NORMAL != 0,
        dma: b0 & DMA != 0,
        select: b0 & SELECT != 0,
        segment: b1 % Unit::NUMBERS,
        offset: b2,
        low: 0,
        byte: b3,
        reset: b1 & RESET != 0,
    }
}
