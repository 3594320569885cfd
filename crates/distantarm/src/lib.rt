// The C interface: a unit in bytes that the caller keeps, stepped cycle by cycle, a board of 1 to 16 such units, one's bytes behind another's,
// stepped where they stand, a recorder of cycles in a buffer that the caller keeps, and the text of a whole trace. It keeps no state, and no call
// asks anything of its caller. `distantarm_c` exports these functions, and `include/distantarm.h` declares them for C: so a cycle is a row of
// parameters, a count stands beside its buffer, and a refusal is a number.
#![tactic(auto)]

ghost use Rattle.std.specs.Prelude.{◌≡◌};
ghost use Rattle.rules.specs.Numbers.{number_of_outcome};
ghost use Rattle.text.specs.Listed.{Listed};
ghost use Rattle.distantarm.specs.Interface.{PoweredOn, Called, given, BoardCalled, board_given, RecordingStarted, CycleRecorded};

use rules::refusal::Refusal;
use rules::{Cycle, Unit};
use unit_bytes::cycle::cycled;
use unit_bytes::snapshot;

// The number of what refuses, and 0 where nothing does.
fn number<T: Copy>(outcome: Result<T, Refusal>) -> u8
    ensures { result ≡ number_of_outcome outcome }
{
    match outcome {
        Ok(_) => 0,
        Err(refusal) => refusal.into(),
    }
}

// The unit at power-on: 0, and its bytes at the start of the buffer. A buffer that is too short gives NO_ROOM and is left as it was.
#[tactic(auto, using(crate::proofs::Ends::powered))]
pub fn distantarm_power_on(unit: &mut [u8]) -> u8
    ensures { PoweredOn unit.old unit.new result }
{
    if unit.len() < snapshot::BYTES {
        return Refusal::NoRoom.into();
    }
    snapshot::put_unit(unit, Unit::power_on());
    0
}

// One cycle: the packed answer in the one buffer, the unit after the cycle in the other, and 0 or the number of the refusal. Where a
// buffer is too short it gives NO_ROOM, and both are left as they were.
#[tactic(auto, using(crate::proofs::Ends::roomy))]
pub fn distantarm_cycle(
    unit: &mut [u8],
    answer: &mut [u8],
    status: u8,
    read: bool,
    normal: bool,
    dma: bool,
    select: bool,
    segment: u8,
    offset: u8,
    low: u8,
    byte: u8,
    reset: bool,
) -> u8
    ensures { Called (given status read normal dma select segment offset low byte reset)
        unit.old answer.old unit.new answer.new result }
{
    if unit.len() < snapshot::BYTES || answer.len() < unit_packed::BYTES {
        return Refusal::NoRoom.into();
    }
    let c = Cycle {
        status,
        read,
        normal,
        dma,
        select,
        segment,
        offset,
        low,
        byte,
        reset,
    };
    cycled(unit, answer, c)
}

// One cycle of a board of `count` units, for all of them, with a select bit for each, unit 0 in bit 0: the packed answer of the board in the one
// buffer, the units after the cycle in the other, and 0 or the number of the refusal. A count that is not 1 to 16 gives 11, whatever the
// units' buffer holds. Where a buffer is too short it gives NO_ROOM, and both are left as they were.
pub fn distantarm_board_cycle(
    units: &mut [u8],
    answer: &mut [u8],
    count: usize,
    status: u8,
    read: bool,
    normal: bool,
    dma: bool,
    segment: u8,
    offset: u8,
    low: u8,
    byte: u8,
    reset: bool,
    selects: u16,
) -> u8
    ensures { BoardCalled (board_given status read normal dma segment offset low byte reset selects) count
        units.old answer.old units.new answer.new result }
{
    let c = Cycle {
        status,
        read,
        normal,
        dma,
        select: false,
        segment,
        offset,
        low,
        byte,
        reset,
    };
    number(board_bytes::cycle(units, answer, count, c, selects))
}

// The start of a recording: 0, the header of no record at the start of the buffer, and the count 0. A buffer that is too short for it gives 10 and
// is left as it was; the count is 0 there too.
pub fn distantarm_record_start(trace: &mut [u8], count: &mut usize) -> u8
    ensures { RecordingStarted trace.old trace.new count.new result }
{
    *count = 0;
    number(trace_writer::record_start(trace))
}

// One cycle more in a recording of `count` records: 0, its record behind them, the header of one record more, and one more in `count`. Where a
// number says no, the buffer and the count are as they were.
pub fn distantarm_record(
    trace: &mut [u8],
    count: &mut usize,
    status: u8,
    read: bool,
    normal: bool,
    dma: bool,
    select: bool,
    segment: u8,
    offset: u8,
    low: u8,
    byte: u8,
    reset: bool,
) -> u8
    ensures { CycleRecorded (given status read normal dma select segment offset low byte reset)
        trace.old count.old trace.new count.new result }
{
    let c = Cycle {
        status,
        read,
        normal,
        dma,
        select,
        segment,
        offset,
        low,
        byte,
        reset,
    };
    let outcome = trace_writer::record_cycle(trace, *count, c);
    *count = outcome.unwrap_or(*count);
    number(outcome)
}

// The text of a trace, as mmurun prints it, and its length. A buffer that is shorter than text::listing::ROOM is left as it was, and the answer
// is 0.
pub fn distantarm_list(trace: &[u8], text: &mut [u8]) -> usize
    ensures { Listed trace.now text.old text.new result }
{
    text::listing::list(trace, text).unwrap_or(0)
}
