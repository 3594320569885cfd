// The C interface as C links it: each function here is that of `distantarm` of the same name, and promises what that one does.
// `include/distantarm.h` declares these functions for C. They are twins of those: what C links is a static library, which no crate can call.
#![tactic(auto)]

ghost use Rattle.text.specs.Listed.{Listed};
ghost use Rattle.distantarm.specs.Interface.{PoweredOn, Called, given, BoardCalled, board_given, RecordingStarted, CycleRecorded};

// The unit at power-on: 0, and its bytes at the start of the buffer. A buffer that is too short gives NO_ROOM and is left as it was.
#[unsafe(no_mangle)]
pub extern "C" fn distantarm_power_on(unit: &mut [u8]) -> u8
    ensures { PoweredOn unit.old unit.new result }
{
    distantarm::distantarm_power_on(unit)
}

// One cycle: the packed answer in the one buffer, the unit after the cycle in the other, and 0 or the number of the refusal. Where a
// buffer is too short it gives NO_ROOM, and both are left as they were.
#[unsafe(no_mangle)]
pub extern "C" fn distantarm_cycle(
    unit: &mut [u8],
    answer: &mut [u8],
    status: u8,
    read: bool,
    normal: bool,
    dma: bool,
    select: bool,
    segment: u8,
    offset: u8,
    low: u8,
    byte: u8,
    reset: bool,
) -> u8
    ensures { Called (given status read normal dma select segment offset low byte reset)
        unit.old answer.old unit.new answer.new result }
{
    distantarm::distantarm_cycle(
        unit, answer, status, read, normal, dma, select, segment, offset, low, byte, reset,
    )
}

// One cycle of a board of `count` units, for all of them, with a select bit for each, unit 0 in bit 0: the packed answer of the board in the one
// buffer, the units after the cycle in the other, and 0 or the number of the refusal. A count that is not 1 to 16 gives 11, whatever the
// units' buffer holds. Where a buffer is too short it gives NO_ROOM, and both are left as they were.
#[unsafe(no_mangle)]
pub extern "C" fn distantarm_board_cycle(
    units: &mut [u8],
    answer: &mut [u8],
    count: usize,
    status: u8,
    read: bool,
    normal: bool,
    dma: bool,
    segment: u8,
    offset: u8,
    low: u8,
    byte: u8,
    reset: bool,
    selects: u16,
) -> u8
    ensures { BoardCalled (board_given status read normal dma segment offset low byte reset selects) count
        units.old answer.old units.new answer.new result }
{
    distantarm::distantarm_board_cycle(
        units, answer, count, status, read, normal, dma, segment, offset, low, byte, reset, selects,
    )
}

// The start of a recording: 0, the header of no record at the start of the buffer, and the count 0. A buffer that is too short for it gives 10 and
// is left as it was; the count is 0 there too.
#[unsafe(no_mangle)]
pub extern "C" fn distantarm_record_start(trace: &mut [u8], count: &mut usize) -> u8
    ensures { RecordingStarted trace.old trace.new count.new result }
{
    distantarm::distantarm_record_start(trace, count)
}

// One cycle more in a recording of `count` records: 0, its record behind them, the header of one record more, and one more in `count`. Where a
// number says no, the buffer and the count are as they were.
#[unsafe(no_mangle)]
pub extern "C" fn distantarm_record(
    trace: &mut [u8],
    count: &mut usize,
    status: u8,
    read: bool,
    normal: bool,
    dma: bool,
    select: bool,
    segment: u8,
    offset: u8,
    low: u8,
    byte: u8,
    reset: bool,
) -> u8
    ensures { CycleRecorded (given status read normal dma select segment offset low byte reset)
        trace.old count.old trace.new count.new result }
{
    distantarm::distantarm_record(
        trace, count, status, read, normal, dma, select, segment, offset, low, byte, reset,
    )
}

// The text of a trace, as mmurun prints it, and its length. A buffer that is shorter than text::listing::ROOM is left as it was, and the answer
// is 0.
#[unsafe(no_mangle)]
pub extern "C" fn distantarm_list(trace: &[u8], text: &mut [u8]) -> usize
    ensures { Listed trace.now text.old text.new result }
{
    distantarm::distantarm_list(trace, text)
}
