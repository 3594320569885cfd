// A board of 1 to 16 units, its cycle and its answer: the types that ticket 3's rules, in specs/, speak of, and the
// cycle as one unit sees it.
#![tactic(auto)]

ghost use Rattle.std.specs.Prelude.{◌≡◌};
ghost use Rattle.board_rules.specs.Board.{seen_by};

use rules::{Answer, Cycle, Unit};

// A board. Units past the count are looked at by nothing. The count stands beside the units, since the rules and the theorems speak of those past
// it.
#[derive(Clone, Copy)]
pub struct Board {
    pub units: [Unit; Board::UNITS],
    pub count: u8,
}

// A cycle for all units, with a select bit for each: unit 0 in bit 0. The cycle's own select is looked at by nothing.
#[derive(Clone, Copy)]
pub struct BoardCycle {
    pub cycle: Cycle,
    pub selects: u16,
}

// What the board drives, and the number of the unit that drove the address or refused, if one did.
#[derive(Clone, Copy)]
pub struct BoardAnswer {
    pub answer: Answer,
    pub named: Option<u8>,
}

// The board after a cycle, and the cycle's answer.
#[derive(Clone, Copy)]
pub struct BoardStepped {
    pub board: Board,
    pub answer: BoardAnswer,
}

impl Board {
    // The most units of a board, as a length and as a count (cast, since a constant takes no `From`).
    pub const UNITS: usize = 16;

    pub const MOST: u8 = Board::UNITS as u8;
}

// The cycle as a unit sees it, with its own select.
#[tactic(auto, unfolding(crate::specs::Board::seen_by))]
pub fn seen_by(c: Cycle, select: bool) -> Cycle
    ensures { result ≡ seen_by select c }
{
    Cycle { select, ..c }
}
