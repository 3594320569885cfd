// The registers with some of them as said and the rest as it was. They are rebuilt field by field, here and where a first entry or a fetch is
// stored: `..r` was tried in all three, and a run then takes 1.12 to 1.19 times the witness's instructions in quiet, faults and mixed, and 1.01
// in commands, where it takes 0.63 to 0.95 so. A group that is copied whole is packed into one word and taken apart again by shifts.
#![tactic(auto)]

ghost use Rattle.std.specs.Prelude.{◌≡◌};
ghost use Rattle.rules.specs.PowerOn.{notes_of};
ghost use Rattle.rules.specs.Registers.{with_control, with_vtr, with_notes};

use rules::{Control, Faults, Fetched, Notes, Registers};

// All registers as said, but those that a first entry or a fetch stores, which stay. The registers are written out here, and where these
// are stored.
fn with_all(
    r: Registers,
    control: Control,
    vtr: u8,
    request: bool,
    awaits: bool,
    own: bool,
    hold: bool,
) -> Registers
    ensures { result ≡ with_notes (with_vtr (with_control r control) vtr) (notes_of request awaits own hold) }
{
    Registers {
        control: Control {
            mr: control.mr,
            sar: control.sar,
            dscr: control.dscr,
        },
        faults: Faults {
            vtr,
            vsn: r.faults.vsn,
            voff: r.faults.voff,
            bcsr: r.faults.bcsr,
        },
        fetched: Fetched {
            isn: r.fetched.isn,
            ioff: r.fetched.ioff,
        },
        notes: Notes {
            request,
            awaits,
            own,
            hold,
        },
        low: r.low,
    }
}

// Other notes. They come one by one: lent as one `Notes`, here and in `with_all`, a run takes 1.01 times the witness's instructions in quiet
// and 1.04 in faults, where it takes 0.92 and 0.95 so.
pub fn with_notes(r: Registers, request: bool, awaits: bool, own: bool, hold: bool) -> Registers
    ensures { result ≡ with_notes r (notes_of request awaits own hold) }
{
    with_all(r, r.control, r.faults.vtr, request, awaits, own, hold)
}

// Another VTR.
pub fn with_vtr(r: Registers, vtr: u8) -> Registers
    ensures { result ≡ with_vtr r vtr }
{
    with_all(
        r,
        r.control,
        vtr,
        r.notes.request,
        r.notes.awaits,
        r.notes.own,
        r.notes.hold,
    )
}

// Another MR, SAR and DSCR.
pub fn with_control(r: Registers, control: Control) -> Registers
    ensures { result ≡ with_control r control }
{
    with_all(
        r,
        control,
        r.faults.vtr,
        r.notes.request,
        r.notes.awaits,
        r.notes.own,
        r.notes.hold,
    )
}
