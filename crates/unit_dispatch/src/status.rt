// Document 01, "Which cycle is what": the reset line, and then the status, which decides.
ghost use Rattle.std.specs.Prelude.{◌≡◌};
ghost use Rattle.rules.specs.Status.{reset_by, acknowledge_byte, quieted, acknowledged, ignored, by_status};

use command_codes::execute;
use rules::{Address, Answer, Change, Cycle, Decision, Descriptor, Kind, Purpose, Registers, Unit};
use rules_flags::flag_if;
use rules_registers::with_notes;

// The reset line.
#[tactic(auto, unfolding(rules::specs::Status::reset_by))]
pub fn reset_by(select: bool, r: Registers) -> Decision
    ensures { result ≡ reset_by select r }
{
    let mr = flag_if(select, Unit::MSEN);
    rules_answers::plain(Kind::Reset, command_single::restarted(r, mr), Change::Keep)
}

// The byte that an acknowledge drives: 2^ID while the request stands, else 0.
#[tactic(auto, unfolding(rules::specs::Status::acknowledge_byte))]
fn acknowledge_byte(r: Registers) -> u8
    ensures { result ≡ acknowledge_byte r }
{
    let drives = (r.control.mr & Unit::MSEN != 0) & r.notes.request;
    if drives {
        return 1 << (r.control.mr & Unit::ID);
    }
    0
}

// All four notes cleared.
#[tactic(auto, unfolding(rules::specs::Status::quieted))]
fn quieted(r: Registers) -> Registers
    ensures { result ≡ quieted r }
{
    with_notes(r, false, false, false, false)
}

// Status 4: the line of the unit's number, and the notes cleared. The one answer that is not made in `rules_answers`: made there, it costs
// three instructions in every cycle of the built run.
#[tactic(auto, unfolding(rules::specs::Status::acknowledged))]
fn acknowledged(r: Registers) -> Decision
    ensures { result ≡ acknowledged r }
{
    Decision {
        answer: Answer {
            kind: Kind::Acknowledge,
            address: Address {
                driven: false,
                block: 0,
            },
            sup: false,
            trap: false,
            drives: r.control.mr & Unit::MSEN != 0,
            byte: acknowledge_byte(r),
            distance: 0,
        },
        registers: quieted(r),
        change: Change::Keep,
    }
}

// Nothing driven, nothing changed.
#[tactic(auto, unfolding(rules::specs::Status::ignored))]
fn ignored(r: Registers) -> Decision
    ensures { result ≡ ignored r }
{
    rules_answers::plain(Kind::Ignored, r, Change::Keep)
}

// A cycle with the reset line off.
#[tactic(auto, unfolding(rules::specs::Status::by_status))]
pub fn by_status(r: Registers, d: Descriptor, c: Cycle) -> Decision
    ensures { result ≡ by_status r d c }
{
    let cpu = !c.dma;
    let selected = !c.dma & c.select;
    match Purpose::from(c.status) {
        Purpose::Acknowledge => { if cpu { acknowledged(r) } else { ignored(r) } }
        Purpose::Command => {
            if selected {
                execute::commanded(r, d, c)
            } else {
                ignored(r)
            }
        }
        Purpose::Memory => memory_cycle::memory(r, d, c),
        Purpose::Other => ignored(r),
    }
}
