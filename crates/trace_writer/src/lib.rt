// Ticket 1, a recorder: from cycles one after another it fills a lent buffer with a trace. No public call asks anything of the buffer or of the
// count that it is given.
#![tactic(auto)]

ghost use Rattle.std.specs.Prelude.{◌≡◌, ◌+◌, ◌<◌, ◌≤◌, length};
ghost use Rattle.std.proofs.lemmas.List.Edits.{sets};
ghost use Rattle.rules.specs.Numbers.{number_of_outcome};
ghost use Rattle.trace_header.specs.Header.{head_size, Format, format1};
ghost use Rattle.unit_stores.specs.Word.{word_values};
ghost use Rattle.trace_writer.specs.Writing.{head_bytes, record_bytes, record_number, recorded_by, Starts, Records};

use memory_recording::bus_status;
use rules::Cycle;
use rules::refusal::Refusal;
use rules_flags::flag_if;
use trace_header::{COUNT_AT, HEAD, MARK, MOST, RECORD, VERSION, VERSION_AT};
use trace_records::{DMA, RESET, SELECT};
use unit_dispatch::refusals::out_of_range;
use unit_stores::store;

// The header of a trace of so many records. Version and count are cast, since both are proved to fit: `try_from` has an Err that cannot come.
fn put_header(trace: &mut [u8], count: usize)
    requires { (head_size ≤ length trace.old) × (count < word_values) }
    ensures { trace.new ≡ sets trace.old 0 (head_bytes format1 count) }
{
    trace[..VERSION_AT].copy_from_slice(&MARK);
    trace[VERSION_AT..COUNT_AT].copy_from_slice(&(VERSION as u16).to_be_bytes());
    trace[COUNT_AT..HEAD].copy_from_slice(&(count as u16).to_be_bytes());
}

// The bytes of a cycle's record, from an index on.
#[tactic(auto, unfolding(crate::specs::Writing::record_bytes))]
fn put_record(trace: &mut [u8], at: usize, c: Cycle)
    requires { at + format1.record_size ≤ length trace.old }
    ensures { trace.new ≡ sets trace.old at (record_bytes c) }
{
    let status = bus_status(c) | flag_if(c.dma, DMA) | flag_if(c.select, SELECT);
    let segment = c.segment | flag_if(c.reset, RESET);
    store(trace, at, [status, segment, c.offset, c.byte]);
}

// What refuses a cycle at a count, in a buffer of so many bytes. "The count with this cycle" may be past all numbers of a usize, so the bound is
// held to the count without it.
#[tactic(auto, unfolding(crate::specs::Writing::record_number))]
fn refusal(bytes: usize, count: usize, c: Cycle) -> Result<(), Refusal>
    ensures { number_of_outcome result ≡ record_number bytes count c }
{
    if out_of_range(c) {
        return Err(Refusal::OutOfRange);
    }
    if count >= MOST {
        return Err(Refusal::TooMany);
    }
    if bytes < HEAD + RECORD * (count + 1) {
        return Err(Refusal::NoRoomToRecord);
    }
    Ok(())
}

// The start: the header of no record, at the buffer's start, and the count, 0. A buffer that is too short for it is refused, and left as it
// was.
#[tactic(auto, unfolding(crate::specs::Writing::start_number, crate::specs::Writing::buffer_started))]
pub fn record_start(trace: &mut [u8]) -> Result<usize, Refusal>
    ensures { Starts trace.old trace.new (recorded_by 0 result) }
{
    if trace.len() < HEAD {
        return Err(Refusal::NoRoomToRecord);
    }
    put_header(trace, 0);
    Ok(0)
}

// One cycle more, for a trace of `count` records: its record behind them, and the header of one record more, whose count is the answer. Where it is
// refused the buffer is as it was.
// No struct holds the buffer and the count: callers in C keep them apart, and `distantarm_record` hands both over.
#[tactic(auto, using(crate::proofs::Ends::fits), unfolding(crate::specs::Writing::buffer_after, crate::specs::Writing::count_after))]
pub fn record_cycle(trace: &mut [u8], count: usize, c: Cycle) -> Result<usize, Refusal>
    ensures { Records c count trace.old trace.new (recorded_by count result) }
{
    refusal(trace.len(), count, c)?;
    let more = count + 1;
    put_record(trace, HEAD + RECORD * count, c);
    put_header(trace, more);
    Ok(more)
}
