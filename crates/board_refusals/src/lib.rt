// Ticket 3's refusals: what a board refuses, judged from the registers of its units, one after another, before any unit is touched.
#![tactic(auto)]

ghost use Rattle.std.specs.Prelude.{◌≡◌, cond, unwrap_or};
ghost use Rattle.std.proofs.Math.Option.{some, none};
ghost use Rattle.board_rules.specs.Board.{refusing};
ghost use Rattle.theorems_boards.specs.Numbers.{may_drive};
ghost use Rattle.board_refusals.specs.Judged.{code_refusal, number_given, code_number, asking, own_refusal_of, own_number_of, unjudged, judging, refuses, refusal_in, given};

use board_rules::BoardAnswer;
use rules::refusal::Refusal;
use rules::{Command, Cycle, Kind, Registers, Unit};
use unit_dispatch::refusals;

// What a cycle asks of every unit alike: whether it is past its numbers, a memory cycle, a command to the units that are selected, and the
// number that says no to this command, if one does. Any number, here and in a verdict, as callers always could give one: a `Refusal` is one of
// fourteen, and would ask more of them.
#[derive(Clone, Copy)]
pub struct Asked {
    pub outside: bool,
    pub memory: bool,
    pub command: bool,
    pub number: Option<u8>,
}

// The number that a board refuses by, and that of the unit whose own refusal it is, if it is one's.
#[derive(Clone, Copy)]
pub struct Verdict {
    pub number: u8,
    pub named: Option<u8>,
}

// What is known of the units that were judged so far: the lowest one's own refusal, whether one of them drives the address and whether two do,
// whether one takes a command and whether two do, and whether a request stands.
#[derive(Clone, Copy)]
pub struct Judged {
    pub own: Option<Verdict>,
    pub drives: bool,
    pub clash: bool,
    pub command: bool,
    pub several: bool,
    pub stood: bool,
}

// Why a command is refused in this direction, if it is: a read of a set or clear command, a write of a read-only register.
fn code_refusal(m: Command, read: bool) -> Option<Refusal>
    ensures refusal { result ≡ code_refusal m read }
    ensures number { number_given result ≡ code_number m read }
{
    match m {
        Command::Unlisted => Some(Refusal::Unlisted),
        Command::Act(_) => read.then_some(Refusal::WrongWay),
        Command::Show(_) => (!read).then_some(Refusal::WrongWay),
        _ => None,
    }
}

// What a cycle asks of every unit. The status is tested and not made a `Purpose`: each answer is one of its cases, as `memory_cycle` says it.
pub fn ask(c: Cycle) -> Asked
    ensures { result ≡ asking c }
{
    Asked {
        outside: refusals::out_of_range(c),
        memory: !c.reset & ((8 <= c.status) & (c.status <= 13)),
        command: !c.reset & (c.status == Unit::COMMAND) & !c.dma,
        number: code_refusal(Command::from(c.offset), c.read).map(u8::from),
    }
}

// A unit with this MR drives the address of a memory cycle.
pub fn may_drive(mr: u8, c: Cycle) -> bool
    ensures { result ≡ may_drive mr c }
{
    let half = (mr & Unit::URS != 0) == (c.segment & Unit::UPPER != 0);
    let mode = (mr & Unit::NMS != 0) == c.normal;
    (mr & Unit::MSEN != 0) & (!(mr & Unit::TRNS != 0) | (half & (!(mr & Unit::MST != 0) | mode)))
}

// The number of a unit's own refusal, if it has one.
fn own_refusal(r: Registers, select: bool, q: Asked) -> Option<u8>
    ensures refusal { result ≡ own_refusal_of r select q }
    ensures number { unwrap_or result 0 ≡ own_number_of r select q }
{
    if refusals::damaged(r) {
        return Some(Refusal::Damaged.into());
    }
    if q.outside {
        return Some(Refusal::OutOfRange.into());
    }
    if q.command & select {
        return q.number;
    }
    None
}

// No unit was judged yet.
pub fn unjudged() -> Judged
    ensures { result ≡ unjudged }
{
    Judged {
        own: None,
        drives: false,
        clash: false,
        command: false,
        several: false,
        stood: false,
    }
}

// One unit more, unit i. The first refusal is the one that is kept. Where one is, no other is made, and in a cycle that is none of memory nobody
// is asked whether it drives: sixteen units are judged in each cycle of a full board.
#[tactic(auto, unfolding(crate::specs::Judged::judging))]
pub fn judge(j: Judged, i: u8, r: Registers, select: bool, c: Cycle, q: Asked) -> Judged
    ensures { result ≡ judging j i r select c q }
{
    let own = || {
        own_refusal(r, select, q).map(|number| Verdict {
            number,
            named: Some(i),
        })
    };
    let drives = q.memory && may_drive(r.control.mr, c);
    let command = q.command & select;
    Judged {
        own: j.own.or_else(own),
        drives: j.drives | drives,
        clash: j.clash | (j.drives & drives),
        command: j.command | command,
        several: j.several | (j.command & command),
        stood: j.stood | r.notes.request,
    }
}

// What the board refuses the cycle by, if it does; `read` is its direction.
pub fn refuses(j: Judged, read: bool) -> Option<Verdict>
    ensures { given result ≡ cond (refuses j read) (some (refusal_in j)) none }
{
    if j.own.is_some() {
        return j.own;
    }
    if j.clash {
        return Some(Verdict {
            number: Refusal::TwoDrive.into(),
            named: None,
        });
    }
    (read & j.several).then_some(Verdict {
        number: Refusal::SeveralRead.into(),
        named: None,
    })
}

// A refusal's answer: nothing driven, SUP off. It takes any number, as it always did: a type that has only some would ask more of its callers.
pub fn refused(number: u8, named: Option<u8>, trap: bool) -> BoardAnswer
    ensures { result ≡ refusing (record { number = number; named = named }) trap }
{
    let answer = rules_answers::spoken(Kind::Refused(number), trap, false, 0);
    BoardAnswer { answer, named }
}
