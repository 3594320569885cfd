// Document 01, "Commands": each command by itself.
#![tactic(auto)]

ghost use Rattle.std.specs.Prelude.{◌≡◌, ◌%◌};
ghost use Rattle.rules.specs.Commands.{replied, register_of, restarted, programmed, entry, acted};

use rules::{
    Action, Change, Control, Cycle, Decision, Descriptor, Kind, Part, Register, Registers, Unit,
};
use rules_flags::{flag_if, pick};
use rules_registers::{with_control, with_notes, with_vtr};

// A command: a read drives the byte, a write none.
#[tactic(auto, unfolding(rules::specs::Commands::replied))]
pub fn replied(read: bool, b: u8, r: Registers, h: Change) -> Decision
    ensures { result ≡ replied read b r h }
{
    Decision {
        answer: rules_answers::spoken(Kind::Command, r.notes.request, read, flag_if(read, b)),
        registers: r,
        change: h,
    }
}

// The byte of a register that commands can only read.
pub fn register_of(r: Registers, g: Register) -> u8
    ensures { result ≡ register_of r g }
{
    match g {
        Register::Vtr => r.faults.vtr,
        Register::Vsn => r.faults.vsn,
        Register::Voff => r.faults.voff,
        Register::Bcsr => r.faults.bcsr,
        Register::Isn => r.fetched.isn,
        Register::Ioff => r.fetched.ioff,
    }
}

// VTR, DSCR and all notes cleared, with another MR.
#[tactic(auto, unfolding(rules::specs::Commands::restarted))]
pub fn restarted(r: Registers, mr: u8) -> Registers
    ensures { result ≡ restarted r mr }
{
    let control = Control {
        mr,
        dscr: 0,
        ..r.control
    };
    let cleared = with_vtr(with_control(r, control), 0);
    with_notes(cleared, false, false, false, false)
}

// MR, SAR and DSCR, which a read leaves.
#[tactic(auto, unfolding(rules::specs::Commands::programmed))]
fn programmed(r: Registers, c: Cycle, old: u8, k: Control) -> Decision
    ensures { result ≡ programmed r c old k }
{
    let next = pick(c.read, r.control, k);
    replied(c.read, old, with_control(r, next), Change::Keep)
}

// MR, the whole byte.
pub fn mode(r: Registers, c: Cycle) -> Decision
    ensures { result ≡ programmed r c r.control.mr (record { mr = c.byte; sar = r.control.sar; dscr = r.control.dscr }) }
{
    let k = Control {
        mr: c.byte,
        ..r.control
    };
    programmed(r, c, r.control.mr, k)
}

// SAR, its low six bits.
pub fn segment(r: Registers, c: Cycle) -> Decision
    ensures { result ≡ programmed r c r.control.sar (record { mr = r.control.mr; sar = c.byte % 64; dscr = r.control.dscr }) }
{
    let k = Control {
        sar: c.byte % Unit::SEGMENTS,
        ..r.control
    };
    programmed(r, c, r.control.sar, k)
}

// DSCR, its low two bits.
pub fn counter(r: Registers, c: Cycle) -> Decision
    ensures { result ≡ programmed r c r.control.dscr (record { mr = r.control.mr; sar = r.control.sar; dscr = c.byte % 4 }) }
{
    let k = Control {
        dscr: c.byte % Unit::BYTES,
        ..r.control
    };
    programmed(r, c, r.control.dscr, k)
}

// One byte of the descriptor at SAR.
#[tactic(auto, unfolding(rules::specs::Commands::entry))]
pub fn entry(r: Registers, d: Descriptor, p: Part, c: Cycle) -> Decision
    ensures { result ≡ entry r d p c }
{
    let control = r.control;
    let i = command_descriptors::index_of(p, control.dscr);
    let next = command_descriptors::moved(control, p, c);
    replied(
        c.read,
        command_descriptors::byte_of(d, i),
        with_control(r, next),
        command_descriptors::written_by(c.read, d, i, c.byte),
    )
}

// A set or clear command.
#[tactic(auto, unfolding(rules::specs::Commands::acted))]
pub fn acted(r: Registers, a: Action) -> Decision
    ensures { result ≡ acted r a }
{
    let vtr = r.faults.vtr;
    match a {
        Action::SoftwareReset => rules_answers::plain(Kind::Command, restarted(r, 0), Change::Keep),
        Action::ClearVtr => rules_answers::plain(Kind::Command, with_vtr(r, 0), Change::Keep),
        Action::ClearSww => rules_answers::plain(
            Kind::Command,
            with_vtr(r, vtr & !Unit::SWW),
            Change::Keep,
        ),
        Action::ClearFatl => rules_answers::plain(
            Kind::Command,
            with_vtr(r, vtr & !Unit::FATL),
            Change::Keep,
        ),
        Action::SetCpui => rules_answers::plain(Kind::Command, r, Change::Raise(Unit::CPUI)),
        Action::SetDmai => rules_answers::plain(Kind::Command, r, Change::Raise(Unit::DMAI)),
    }
}
