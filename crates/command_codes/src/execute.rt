// Document 01, "Commands": what is decided in a selected command, refusals 3 and 4 with it.
ghost use Rattle.std.specs.Prelude.{◌≡◌};
ghost use Rattle.rules.specs.Commands.{executed, commanded};

use rules::refusal::Refusal;
use rules::{Change, Command, Cycle, Decision, Descriptor, Registers};

// What a code stands for, done.
#[tactic(auto, unfolding(rules::specs::Commands::executed))]
fn executed(m: Command, read: bool, r: Registers, d: Descriptor, c: Cycle) -> Decision
    ensures { result ≡ executed m read r d c }
{
    match m {
        Command::Mr => command_single::mode(r, c),
        Command::Sar => command_single::segment(r, c),
        Command::Dscr => command_single::counter(r, c),
        Command::Show(g) => {
            if read {
                command_single::replied(true, command_single::register_of(r, g), r, Change::Keep)
            } else {
                rules_answers::refused(Refusal::WrongWay.into(), r)
            }
        }
        Command::Entry(p) => command_single::entry(r, d, p, c),
        Command::Act(a) => {
            if read {
                rules_answers::refused(Refusal::WrongWay.into(), r)
            } else {
                command_single::acted(r, a)
            }
        }
        Command::Unlisted => rules_answers::refused(Refusal::Unlisted.into(), r),
    }
}

// A selected command.
#[tactic(auto, unfolding(rules::specs::Commands::commanded))]
pub fn commanded(r: Registers, d: Descriptor, c: Cycle) -> Decision
    ensures { result ≡ commanded r d c }
{
    executed(Command::from(c.offset), c.read, r, d, c)
}
