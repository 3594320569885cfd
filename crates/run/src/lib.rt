// The run of a trace from power-on: the table and the registers are locals, and each record is one call of `act`. A loop that calls the by-value
// step takes 1.8 to 4.3 times as long as the witness (docs/PERFORMANCE.md).
#![tactic(auto)]

ghost use Rattle.std.specs.Prelude.{◌≡◌, ◌*◌, ◌+◌, ◌≤◌, length};
ghost use Rattle.rules.specs.Numbers.{number_of_outcome};
ghost use Rattle.unit_packed.specs.Packed.{width};
ghost use Rattle.trace_header.specs.Header.{format1, record_start};
ghost use Rattle.trace_records.specs.Trace.{given_of};
ghost use Rattle.run.specs.Run.{ran_to, Ran};

use rules::refusal::Refusal;
use rules::{Change, Unit};
use trace_header::{HEAD, MOST, RECORD, refusal};
use trace_records::{count, decode};
use unit_step::table;

// The bytes of the answers of the longest trace.
pub const ROOM: usize = unit_packed::BYTES * MOST;

// All records of a trace, answered into the buffer. The turn ends with the change of the table in place.
#[tactic(auto, unfolding(crate::specs::Run::ran_to))]
fn run_to(trace: &[u8], out: &mut [u8])
    requires { (length trace.now ≡ record_start format1 (given_of trace.now)) × (width * given_of trace.now ≤ length out.old) }
    ensures { out.new ≡ ran_to trace.now (given_of trace.now) out.old }
{
    let u = Unit::power_on();
    let mut table = u.table;
    let mut r = u.registers;
    let (records, _) = trace[HEAD..].as_chunks::<RECORD>();
    for (n, record) in records.iter().enumerate() {
        let c = decode(record);
        let i = usize::from(unit_decide::place_of(r, c) % Unit::SEGMENTS);
        let p = unit_decide::act(r, table[i], c);
        // By its index, since the library says nothing of what a slice ends as that `as_chunks_mut` has lent.
        unit_packed::put(out, unit_packed::BYTES * n, p.answer);
        r = p.registers;
        match p.change {
            Change::Keep => {}
            Change::Put(e) => table[i] = e,
            Change::Raise(mask) => table = table::with_flags_in_all(table, mask),
        }
    }
}

// The run of a trace from power-on: the answers of all records, packed, at the start of the buffer. A refused trace gives its refusal,
// a buffer that is too short gives NoRoom, and both leave the buffer as it was.
#[tactic(auto, using(crate::proofs::Ends::fits), unfolding(crate::specs::Run::ran_to))]
pub fn run(trace: &[u8], out: &mut [u8]) -> Result<(), Refusal>
    ensures { Ran trace.now out.old out.new (number_of_outcome result) }
{
    refusal(trace)?;
    if out.len() < unit_packed::BYTES * count(trace) {
        return Err(Refusal::NoRoom);
    }
    run_to(trace, out);
    Ok(())
}
