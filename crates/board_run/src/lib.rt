// A run of a board from power-on over records, its answers packed in a lent buffer: registers and tables are locals, and each record is judged
// from the registers before any unit is touched.
#![tactic(auto)]

ghost use Rattle.std.specs.Prelude.{◌≡◌, false, ◌+◌, ◌*◌, ◌≤◌, length, is_some, unwrap_or};
ghost use mir.Val.{bool_byte};
ghost use Rattle.rules.specs.Refusals.{damaged, out_of_range};
ghost use Rattle.rules.specs.Step.{decided};
ghost use Rattle.board_run.specs.BoardRun.{record_size, most, board_cycle_at, board_ran_to, refused_to, cycles_for};
ghost use Rattle.board_run.specs.Plan.{RaisedIn, any_on, several_on, first_on, DrivingIs, PlanIs, any_asks, uncommanded, first_verdict};
ghost use Rattle.board_packed.specs.BoardPacked.{board_width};

use board_refusals::{Judged, Verdict};
use board_rules::{Board, BoardCycle, seen_by};
use rules::refusal::Refusal;
use rules::{Change, Cycle, Decision, Descriptor, Registers, Unit};
use unit_dispatch::status;
use unit_step::table::with_flags;
use unit_stores::word;

// The bytes of a record, and the most that are run at once.
pub const RECORD: usize = 7;

pub const MOST: usize = 16000;

// Where a record has the low byte, and the select bits, high byte first.
const LOW_AT: usize = 4;

const SELECTS_AT: usize = 5;

// The descriptors of all units of a board, one unit's behind another's.
const ALL: usize = Board::UNITS * Unit::DESCRIPTORS;

// A bit for each unit of the largest board.
const EVERY: u32 = 65535;

// The units that a memory cycle may concern, unit 0 in bit 0; whether one of them drives the address, and whether two do.
#[derive(Clone, Copy)]
struct Drivers {
    mask: u32,
    drives: bool,
    clash: bool,
}

// The first unit that is selected, if one is, and whether several are.
#[derive(Clone, Copy)]
struct Chosen {
    first: Option<u8>,
    several: bool,
}

// What is to be done for a cycle: the units to look at, and what the board refuses, but for the requests that stand.
#[derive(Clone, Copy)]
struct Prepared {
    mask: u32,
    judged: Judged,
}

// The cycle of a record.
#[tactic(auto, unfolding(crate::specs::BoardRun::board_cycle_at, unit_stores::specs::Word::word_at))]
fn cycle_of(bytes: &[u8; RECORD]) -> BoardCycle
    ensures { result ≡ board_cycle_at bytes.now 0 }
{
    let cycle = trace_records::decode(&bytes[..LOW_AT]);
    BoardCycle {
        cycle: Cycle {
            low: bytes[LOW_AT],
            ..cycle
        },
        selects: word(bytes[SELECTS_AT], bytes[SELECTS_AT + 1]),
    }
}

// Flags set in every descriptor of unit i. `unit_step::table::with_flags_in_all` takes a table of its own, and `unit_bytes` has bytes: what the
// three share is the change of one descriptor, and around it are three lines each.
fn raised(tables: [Descriptor; ALL], i: usize, mask: u8) -> [Descriptor; ALL]
    requires { i + 1 ≤ 16 }
    ensures { RaisedIn mask i tables result }
{
    let mut out = tables;
    let at = Unit::DESCRIPTORS * i;
    for d in &mut out[at..at + Unit::DESCRIPTORS] {
        *d = with_flags(*d, mask);
    }
    out
}

// A bit of a mask: a function of its own, so that its callers know that it is at most 1.
fn bit(on: bool) -> u32
    ensures { (result ≡ bool_byte on) × (result ≤ 1) }
{
    u32::from(on)
}

// The units that a memory cycle may concern, from the last to the first, so that the first has the lowest bit.
// Registers and a count, no slice of them, here and in `plan`: `DrivingIs` and `PlanIs` take the array and a count.
fn driving(registers: [Registers; Board::UNITS], count: usize, c: Cycle) -> Drivers
    requires { count ≤ 16 }
    ensures { DrivingIs registers count c result }
{
    let mut mask: u32 = 0;
    let mut drives = false;
    let mut clash = false;
    for r in registers[..count].iter().rev() {
        let drive = board_refusals::may_drive(r.control.mr, c);
        let on = drive | (r.notes.awaits | (r.notes.own | r.notes.hold));
        clash = clash | (drive & drives);
        drives = drive | drives;
        mask = mask * 2 + bit(on);
    }
    Drivers {
        mask,
        drives,
        clash,
    }
}

// The selects of the first `count` units. A count is all that there is to ask: the selects are the bits of one number.
// The place of a bit of sixteen is cast, as a unit's number is in `board_step`.
fn selected(selects: u16, count: usize) -> Chosen
    requires { count ≤ 16 }
    ensures { (is_some result.first ≡ any_on count selects) × (result.several ≡ several_on count selects)
        × (unwrap_or result.first count ≡ first_on 0 count selects) }
{
    let live = u32::from(selects) % (1 << count);
    Chosen {
        first: (live != 0).then_some(live.trailing_zeros() as u8),
        several: 1 < live.count_ones(),
    }
}

// A request stands in a unit.
// Registers and a count, as in `driving`: a slice was proved too, and is no plainer, since the one call would cut it; and it took 1.6 % more
// instructions.
#[tactic(auto, unfolding(crate::specs::Plan::asks_from))]
fn asks(registers: [Registers; Board::UNITS], count: usize) -> bool
    requires { count ≤ 16 }
    ensures { result ≡ any_asks registers count }
{
    let mut trap = false;
    for r in &registers[..count] {
        trap = trap | r.notes.request;
    }
    trap
}

// What is judged where no unit takes a command: no unit refuses, and two may drive.
fn uncommanded(clash: bool) -> Judged
    ensures { result ≡ uncommanded clash }
{
    Judged {
        clash,
        ..board_refusals::unjudged()
    }
}

// A command's refusal, if it has one, by the first unit that is selected.
fn first_verdict(first: Option<u8>, number: Option<u8>) -> Option<Verdict>
    ensures { result ≡ first_verdict first number }
{
    match (first, number) {
        (Some(_), Some(number)) => Some(Verdict {
            number,
            named: first,
        }),
        _ => None,
    }
}

// What is to be done for a cycle that is in range, by units that are undamaged. The status is tested as `memory_cycle` and `PlanIs` say it.
fn plan(registers: [Registers; Board::UNITS], count: usize, b: BoardCycle) -> Prepared
    requires { count ≤ 16 }
    ensures { PlanIs registers count b.cycle b.selects result.mask result.judged }
{
    let c = b.cycle;
    let memory = !c.reset & ((8 <= c.status) & (c.status <= 13));
    if memory {
        let d = driving(registers, count, c);
        return Prepared {
            mask: d.mask,
            judged: uncommanded(d.clash),
        };
    }
    let command = !c.reset & (c.status == Unit::COMMAND) & !c.dma;
    if command {
        let s = selected(b.selects, count);
        let q = board_refusals::ask(c);
        return Prepared {
            mask: u32::from(b.selects),
            judged: Judged {
                own: first_verdict(s.first, q.number),
                drives: false,
                clash: false,
                command: s.first.is_some(),
                several: s.several,
                stood: false,
            },
        };
    }
    let all = c.reset | (!c.reset & (c.status == Unit::ACKNOWLEDGE) & !c.dma);
    let judged = uncommanded(false);
    if all {
        return Prepared {
            mask: EVERY,
            judged,
        };
    }
    Prepared { mask: 0, judged }
}

// What is decided of an undamaged unit in a cycle that is in range. It is no `unit_decide::act` with a parameter: they differ in the tests of
// refusals 2 and 1, and one function would carry both contracts.
#[tactic(auto, unfolding(rules::specs::Step::decided))]
fn act(r: Registers, d: Descriptor, c: Cycle) -> Decision
    requires { (damaged r ≡ false) × (out_of_range c ≡ false) }
    ensures { result ≡ decided r d c }
{
    let reset = c.reset;
    if reset {
        return status::reset_by(c.select, r);
    }
    status::by_status(r, d, c)
}

// The first `cycles` records, answered into the buffer, by a board of `count` units. There is one call of `act` in it: the compiler then writes
// its code here. Registers and tables are its own, so that a count of units is all that it can be given.
fn run_to(records: &[u8], count: usize, cycles: usize, out: &mut [u8])
    requires { (1 ≤ count) × (count ≤ 16) × (cycles ≤ most) × (record_size * cycles ≤ length records.now) × (board_width * cycles ≤ length out.old) }
    ensures { out.new ≡ board_ran_to records.now count cycles out.old }
{
    let u = Unit::power_on();
    let r0 = u.registers;
    let mut tables = [Descriptor::BLANK; ALL];
    let mut registers = [r0; Board::UNITS];
    let (records, _) = records.as_chunks::<RECORD>();
    // The answers by their index, since the library says nothing of what a slice ends as that `as_chunks_mut` has lent.
    for (n, record) in records[..cycles].iter().enumerate() {
        let b = cycle_of(record);
        let c = b.cycle;
        let p = plan(registers, count, b);
        let j = p.judged;
        if let Some(v) = board_refusals::refuses(j, c.read) {
            let a = board_refusals::refused(v.number, v.named, asks(registers, count));
            board_packed::put(out, board_packed::BYTES * n, a);
        } else {
            let mut joint = board_answers::nothing();
            let selects = b.selects;
            let mask = p.mask;
            // By the unit's number: its registers and its descriptors stand in two arrays, and `raised` takes the tables whole.
            for i in 0..count {
                let select = (selects >> i) % 2 == 1;
                let on = (mask >> i) % 2 == 1;
                let r = registers[i];
                if on {
                    let seen = seen_by(c, select);
                    let place = usize::from(unit_decide::place_of(r, seen) % Unit::SEGMENTS);
                    let at = Unit::DESCRIPTORS * i + place;
                    let d = tables[at];
                    let p = act(r, d, seen);
                    let x = p.answer;
                    joint = board_answers::join(joint, i as u8, x);
                    let after = p.registers;
                    registers[i] = after;
                    let h = p.change;
                    match h {
                        Change::Keep => {}
                        Change::Put(e) => {
                            tables[at] = e;
                        }
                        Change::Raise(flags) => {
                            tables = raised(tables, i, flags);
                        }
                    }
                } else {
                    joint = board_answers::pass_by(joint, r.notes.request);
                }
            }
            let a = board_answers::told(joint, c, j.command);
            board_packed::put(out, board_packed::BYTES * n, a);
        }
    }
}

// Every record refused by 11.
#[tactic(auto, using(crate::proofs::Turns::eleven_stored), unfolding(crate::specs::BoardRun::refused_to, board_packed::specs::BoardPacked::board_packed_all))]
fn refuse_to(cycles: usize, out: &mut [u8])
    requires { (cycles ≤ most) × (board_width * cycles ≤ length out.old) }
    ensures { out.new ≡ refused_to cycles out.old }
{
    // By its index, since the library says nothing of what a slice ends as that `as_chunks_mut` has lent.
    for n in 0..cycles {
        let a = board_refusals::refused(Refusal::WrongCount.into(), None, false);
        board_packed::put(out, board_packed::BYTES * n, a);
    }
}

// A board of `count` units at power-on, run over the records: as many as there are whole records, as the buffer has room for their answers, and
// no more than MOST. The answer is their number.
pub fn run(records: &[u8], count: u8, out: &mut [u8]) -> usize
    ensures { (result ≡ cycles_for (length records.now) (length out.old))
        × (out.new ≡ board_ran_to records.now count result out.old) }
{
    let there = records.len() / RECORD;
    let room = out.len() / board_packed::BYTES;
    let cycles = there.min(room).min(MOST);
    let wrong = (count == 0) | (Board::MOST < count);
    if wrong {
        refuse_to(cycles, out);
    } else {
        run_to(records, usize::from(count), cycles, out);
    }
    cycles
}
