// Ticket 3's joined lines: what a board answers that does not refuse, from the answers of its units, one after another.
#![tactic(auto)]

ghost use Rattle.std.specs.Prelude.{◌≡◌};
ghost use Rattle.board_rules.specs.Board.{kind_by};
ghost use Rattle.board_answers.specs.Joint.{nothing, driving, joining, quietly, told};

use board_rules::BoardAnswer;
use rules::{Address, Answer, Cycle, Kind, Unit};
use rules_flags::pick;

// The unit that drives the address, by its number, and what its answer says of it.
#[derive(Clone, Copy)]
pub struct Driver {
    pub unit: u8,
    pub kind: Kind,
    pub address: Address,
    pub distance: u8,
}

// The answers so far: the first unit that drives the address, if one does, and the block and the distance that are shown where none does;
// whether it is an aborted fetch in any unit; and the joined lines. A data byte that is not driven is 0, as in an answer: `joined_byte` of
// Board.antt joins the bytes alone. A board's undriven block and distance are 0 too; they are no constants, since callers always could hand any.
#[derive(Clone, Copy)]
pub struct Joint {
    pub driver: Option<Driver>,
    pub block: u16,
    pub distance: u8,
    pub aborted: bool,
    pub sup: bool,
    pub trap: bool,
    pub drives: bool,
    pub byte: u8,
}

// No answer yet.
pub fn nothing() -> Joint
    ensures { result ≡ nothing }
{
    Joint {
        driver: None,
        block: 0,
        distance: 0,
        aborted: false,
        sup: false,
        trap: false,
        drives: false,
        byte: 0,
    }
}

// The unit of an answer, where it drives the address.
fn driving(unit: u8, x: Answer) -> Option<Driver>
    ensures { result ≡ driving unit x }
{
    x.address.driven.then_some(Driver {
        unit,
        kind: x.kind,
        address: x.address,
        distance: x.distance,
    })
}

// One answer more, of unit i. The first unit that drives is the one that is kept.
#[tactic(auto, unfolding(crate::specs::Joint::joining))]
pub fn join(t: Joint, i: u8, x: Answer) -> Joint
    ensures { result ≡ joining t i x }
{
    Joint {
        driver: t.driver.or_else(|| driving(i, x)),
        aborted: t.aborted | matches!(x.kind, Kind::Aborted),
        sup: t.sup | x.sup,
        trap: t.trap | x.trap,
        drives: t.drives | x.drives,
        byte: t.byte | x.byte,
        ..t
    }
}

// One unit more that the cycle does not concern: its answer is the trap line alone.
pub fn pass_by(t: Joint, request: bool) -> Joint
    ensures { result ≡ quietly t request }
{
    Joint {
        trap: t.trap | request,
        ..t
    }
}

// The kind of a board's answer; `k` is that of the unit that drives, or of nobody.
fn kind_by(reset: bool, acknowledge: bool, command: bool, k: Kind) -> Kind
    ensures { result ≡ kind_by reset acknowledge command k }
{
    if reset {
        Kind::Reset
    } else if acknowledge {
        Kind::Acknowledge
    } else if command {
        Kind::Command
    } else {
        k
    }
}

// The board's answer to a cycle; `command`: at least one unit takes it as a selected command. Of the status one code is asked, as `acknowledge`
// of the definitions says it.
pub fn told(t: Joint, c: Cycle, command: bool) -> BoardAnswer
    ensures { result ≡ told t c command }
{
    let acknowledge = !c.reset & (c.status == Unit::ACKNOWLEDGE) & !c.dma;
    let (kind, address, distance) = match t.driver {
        Some(d) => (d.kind, d.address, d.distance),
        None => (
            pick(t.aborted, Kind::Aborted, Kind::Ignored),
            Address {
                driven: false,
                block: t.block,
            },
            t.distance,
        ),
    };
    BoardAnswer {
        answer: Answer {
            kind: kind_by(c.reset, acknowledge, command, kind),
            address,
            sup: t.sup,
            trap: t.trap,
            drives: t.drives,
            byte: t.byte,
            distance,
        },
        named: t.driver.map(|d| d.unit),
    }
}
