// A trace reader: the lent trace and the number of its next record, kept together, with few thin functions over the crate `trace_records`.
#![tactic(auto)]

ghost use Rattle.std.specs.Prelude.{◌≡◌};
ghost use Rattle.trace_records.specs.Trace.{Shows};
ghost use Rattle.trace_reader.specs.Reading.{start_of, Answers, Finds, moved_of};

use rules::Cycle;
use rules::refusal::Refusal;
use trace_records::{decode, part, record_refusal};

// What is found at a number of a trace, the cycle of that record or what refuses it, and the number after it.
#[derive(Clone, Copy)]
pub struct Found {
    pub step: Result<Cycle, Refusal>,
    pub next: usize,
}

// The lent trace and the number of its next record, kept together.
#[derive(Clone, Copy)]
pub struct Reader<'a> {
    pub trace: &'a [u8],
    pub next: usize,
}

// A reader of the trace, at record 0.
pub fn start<'a>(trace: &'a [u8]) -> Reader<'a>
    ensures { result ≡ start_of trace.entry }
{
    Reader { trace, next: 0 }
}

// The next record's cycle, or what refuses it. The reader's number goes up by 1 exactly where a record is given.
#[tactic(auto, using(trace_records::proofs::Within::record_within), unfolding(crate::specs::Reading::given_at, crate::specs::Reading::after_of))]
pub fn next<'s, 'a>(r: &'s mut Reader<'a>) -> Result<Cycle, Refusal>
    ensures { Answers r.old.trace.now r.old.next result × (r.new ≡ moved_of r.old) }
{
    record_refusal(r.trace, r.next)?;
    let cycle = decode(part(r.trace, r.next));
    r.next += 1;
    Ok(cycle)
}

// The next record as that part of the trace, and the empty part where there is none.
pub fn shown<'a>(r: Reader<'a>) -> &'a [u8]
    ensures { Shows r.entry.trace r.entry.next result }
{
    part(r.trace, r.next)
}

// A reader of the trace, put to number n and asked once: what it gives, and its number after, at which it can be taken up again. It stays beside
// `next`, as `shown_at` beside `shown`: docs/LIBRARY.md names them.
pub fn read_at(trace: &[u8], n: usize) -> Found
    ensures { Finds trace.now n result }
{
    let mut r = Reader { trace, next: n };
    let step = next(&mut r);
    Found { step, next: r.next }
}

// What such a reader shows.
pub fn shown_at(trace: &[u8], n: usize) -> &[u8]
    ensures { Shows trace.entry n result }
{
    shown(Reader { trace, next: n })
}
