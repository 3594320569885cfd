// What the numbers of a cycle stand for: a status, and the code of a command.
ghost use Rattle.std.specs.Prelude.{◌≡◌};
ghost use Rattle.rules.specs.Codes.{command_of};
ghost use Rattle.rules.specs.Status.{purpose_of};

use crate::{Action, Command, Part, Purpose, Register, Unit};

// Document 01, "Which cycle is what": what a status asks for.
impl From<u8> for Purpose {
    ghost from_gives = { λ status p. p ≡ purpose_of status };

    #[tactic(auto, unfolding(crate::specs::Status::purpose_of))]
    fn from(status: u8) -> Purpose {
        match status {
            Unit::ACKNOWLEDGE => Purpose::Acknowledge,
            Unit::COMMAND => Purpose::Command,
            8..=13 => Purpose::Memory,
            _ => Purpose::Other,
        }
    }
}

// Document 01, "Commands": what each code stands for.
impl From<u8> for Command {
    ghost from_gives = { λ code m. m ≡ command_of code };

    #[tactic(auto, unfolding(crate::specs::Codes::command_of))]
    fn from(code: u8) -> Command {
        match code {
            Unit::MR => Command::Mr,
            Unit::SAR => Command::Sar,
            Unit::VTR => Command::Show(Register::Vtr),
            Unit::VSN => Command::Show(Register::Vsn),
            Unit::VOFF => Command::Show(Register::Voff),
            Unit::BCSR => Command::Show(Register::Bcsr),
            Unit::ISN => Command::Show(Register::Isn),
            Unit::IOFF => Command::Show(Register::Ioff),
            Unit::BASE | Unit::BASE_STEP => Command::Entry(Part::Base),
            Unit::LIMIT | Unit::LIMIT_STEP => Command::Entry(Part::Limit),
            Unit::ATTRIBUTES | Unit::ATTRIBUTES_STEP => Command::Entry(Part::Attributes),
            Unit::WHOLE | Unit::WHOLE_STEP => Command::Entry(Part::Whole),
            Unit::SOFTWARE_RESET => Command::Act(Action::SoftwareReset),
            Unit::CLEAR_VTR => Command::Act(Action::ClearVtr),
            Unit::CLEAR_SWW => Command::Act(Action::ClearSww),
            Unit::CLEAR_FATL => Command::Act(Action::ClearFatl),
            Unit::SET_CPUI => Command::Act(Action::SetCpui),
            Unit::SET_DMAI => Command::Act(Action::SetDmai),
            Unit::DSCR => Command::Dscr,
            _ => Command::Unlisted,
        }
    }
}
