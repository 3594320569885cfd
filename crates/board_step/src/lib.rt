// One cycle of a board, by value: all units are judged, and only where the board does not refuse is any of them stepped.
#![tactic(auto)]

ghost use Rattle.std.specs.Prelude.{◌≡◌, map, [], ◌≤◌, length};
ghost use Rattle.board_rules.specs.Board.{seated, answer_of, afterwards, board_stepped};
ghost use Rattle.board_answers.specs.Joint.{nothing, ahead};
ghost use Rattle.board_refusals.proofs.Laws.{Known};

use board_answers::Joint;
use board_refusals::Judged;
use board_rules::{Board, BoardCycle, BoardStepped, seen_by};
use rules::Unit;
use rules::refusal::Refusal;
use unit_step::step::step as unit_after;

// The units, judged. The number of one is cast, here and in `step_all`, since it is proved to fit: `try_from` has an Err that cannot come.
fn judge_all(units: &[Unit], c: BoardCycle) -> Judged
    requires { length units.now ≤ 16 }
    ensures { Known result c.cycle (seated units.now c.selects) }
{
    let q = board_refusals::ask(c.cycle);
    let mut j = board_refusals::unjudged();
    for (i, u) in units.iter().enumerate() {
        let select = (c.selects >> i) % 2 == 1;
        j = board_refusals::judge(j, i as u8, u.registers, select, c.cycle, q);
    }
    j
}

// The units, each stepped alone, and what they answered.
fn step_all(units: &mut [Unit], c: BoardCycle) -> Joint
    requires { length units.old ≤ 16 }
    ensures { (units.new ≡ map (afterwards c.cycle) (seated units.old c.selects))
        × (ahead result (length units.old) [] ≡ ahead nothing 0 (map (answer_of c.cycle) (seated units.old c.selects))) }
{
    let mut joint = board_answers::nothing();
    for (i, u) in units.iter_mut().enumerate() {
        let select = (c.selects >> i) % 2 == 1;
        let s = unit_after(*u, seen_by(c.cycle, select));
        joint = board_answers::join(joint, i as u8, s.answer);
        *u = s.unit;
    }
    joint
}

// The board after a cycle, and its answer.
#[tactic(auto, using(theorems_boards::proofs::Numbers::good_count, crate::proofs::Ends::wrong_end, crate::proofs::Ends::refused_end, crate::proofs::Ends::stepped_end))]
pub fn step_board(b: Board, c: BoardCycle) -> BoardStepped
    ensures { result ≡ board_stepped b c }
{
    let wrong = (b.count == 0) | (Board::MOST < b.count);
    if wrong {
        let answer = board_refusals::refused(Refusal::WrongCount.into(), None, false);
        return BoardStepped { board: b, answer };
    }
    let count = usize::from(b.count);
    let j = judge_all(&b.units[..count], c);
    if let Some(v) = board_refusals::refuses(j, c.cycle.read) {
        let answer = board_refusals::refused(v.number, v.named, j.stood);
        return BoardStepped { board: b, answer };
    }
    let mut units = b.units;
    let joint = step_all(&mut units[..count], c);
    let answer = board_answers::told(joint, c.cycle, j.command);
    BoardStepped {
        board: Board { units, ..b },
        answer,
    }
}
