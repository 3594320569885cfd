// The unit, its cycle and its answer: the types that the rules of specs/ speak of, the constants that belong to the unit, and power-on.
#![tactic(auto)]

pub mod codes;
pub mod refusal;

ghost use Rattle.std.specs.Prelude.{◌≡◌};
ghost use Rattle.rules.specs.PowerOn.{power_on};

// A segment's descriptor.
#[derive(Clone, Copy)]
pub struct Descriptor {
    pub base: u16,
    pub limit: u8,
    pub attributes: u8,
}

// The registers that commands write.
#[derive(Clone, Copy)]
pub struct Control {
    pub mr: u8,
    pub sar: u8,
    pub dscr: u8,
}

// The VTR, and what its first entry stored.
#[derive(Clone, Copy)]
pub struct Faults {
    pub vtr: u8,
    pub vsn: u8,
    pub voff: u8,
    pub bcsr: u8,
}

// Where the last instruction was fetched.
#[derive(Clone, Copy)]
pub struct Fetched {
    pub isn: u8,
    pub ioff: u8,
}

// The four notes. `awaits` is document 01's await, a word that the language keeps for itself.
#[derive(Clone, Copy)]
pub struct Notes {
    pub request: bool,
    pub awaits: bool,
    pub own: bool,
    pub hold: bool,
}

// Everything that a unit keeps beside its descriptors. `low` is the low byte of the address whose offset byte is VOFF, which a latch on the board
// can have: the chip has no such register, and no command shows it.
#[derive(Clone, Copy)]
pub struct Registers {
    pub control: Control,
    pub faults: Faults,
    pub fetched: Fetched,
    pub notes: Notes,
    pub low: u8,
}

// A unit record.
#[derive(Clone, Copy)]
pub struct Unit {
    pub table: [Descriptor; Unit::DESCRIPTORS],
    pub registers: Registers,
}

// A bus cycle. `offset` is the byte of the address phase: the offset's high byte, or the command code; `low` is the offset's low byte.
#[derive(Clone, Copy)]
pub struct Cycle {
    pub status: u8,
    pub read: bool,
    pub normal: bool,
    pub dma: bool,
    pub select: bool,
    pub segment: u8,
    pub offset: u8,
    pub low: u8,
    pub byte: u8,
    pub reset: bool,
}

// What a cycle was; `Refused` holds the number that says no. It is no `refusal::Refusal`: `unit_packed::put` and `rules_answers::{number, refused}`
// take any number.
#[derive(Clone, Copy)]
pub enum Kind {
    Reset,
    Acknowledge,
    Command,
    Aborted,
    Translated,
    Passed,
    Ignored,
    Refused(u8),
}

// The address, on lines A23 to A8: the number of a block. One that is not driven has the value 0, as `spoken` of specs/Replies.antt and all
// theorems on refusals say; so it is no Option.
#[derive(Clone, Copy)]
pub struct Address {
    pub driven: bool,
    pub block: u16,
}

// What the unit drives, and how many blocks a translated cycle is from the edge of its segment. A data byte that is not driven has the value 0,
// as with the address.
#[derive(Clone, Copy)]
pub struct Answer {
    pub kind: Kind,
    pub address: Address,
    pub sup: bool,
    pub trap: bool,
    pub drives: bool,
    pub byte: u8,
    pub distance: u8,
}

// What the status asks for.
#[derive(Clone, Copy)]
pub enum Purpose {
    Command,
    Acknowledge,
    Memory,
    Other,
}

// How a memory cycle goes through the unit.
#[derive(Clone, Copy)]
pub enum Way {
    Silent,
    Passed,
    Translated,
}

// A register that commands can only read.
#[derive(Clone, Copy)]
pub enum Register {
    Vtr,
    Vsn,
    Voff,
    Bcsr,
    Isn,
    Ioff,
}

// What a descriptor command works on.
#[derive(Clone, Copy)]
pub enum Part {
    Base,
    Limit,
    Attributes,
    Whole,
}

// A set or clear command.
#[derive(Clone, Copy)]
pub enum Action {
    SoftwareReset,
    ClearVtr,
    ClearSww,
    ClearFatl,
    SetCpui,
    SetDmai,
}

// What a command code stands for.
#[derive(Clone, Copy)]
pub enum Command {
    Mr,
    Sar,
    Dscr,
    Show(Register),
    Entry(Part),
    Act(Action),
    Unlisted,
}

// What a cycle does to the table: nothing, one descriptor put in place, or flags set in all.
#[derive(Clone, Copy)]
pub enum Change {
    Keep,
    Put(Descriptor),
    Raise(u8),
}

// What is decided from the registers, one descriptor and the cycle.
#[derive(Clone, Copy)]
pub struct Decision {
    pub answer: Answer,
    pub registers: Registers,
    pub change: Change,
}

// The unit after a cycle, and the cycle's answer.
#[derive(Clone, Copy)]
pub struct Stepped {
    pub unit: Unit,
    pub answer: Answer,
}

impl Descriptor {
    pub const BLANK: Descriptor = Descriptor {
        base: 0,
        limit: 0,
        attributes: 0,
    };
}

impl Unit {
    // ---- sizes: how many descriptors, as a length and as a number of segments (cast, since a constant takes no `From`), and how many bytes one has
    // for the commands
    pub const DESCRIPTORS: usize = 64;

    pub const SEGMENTS: u8 = Unit::DESCRIPTORS as u8;

    pub const BYTES: u8 = 4;
    // How many status codes and segment numbers a cycle can have.
    pub const STATUSES: u8 = 16;

    pub const NUMBERS: u8 = 128;
    // The largest SAR and BCSR, the largest DSCR, the largest status and segment of a cycle. VSN and ISN keep a segment.
    pub const SIX_BITS: u8 = Unit::SEGMENTS - 1;

    pub const TWO_BITS: u8 = Unit::BYTES - 1;

    pub const LAST_STATUS: u8 = Unit::STATUSES - 1;

    pub const LAST_SEGMENT: u8 = Unit::NUMBERS - 1;
    // ---- attributes
    pub const RD: u8 = 1;

    pub const SYS: u8 = 2;

    pub const CPUI: u8 = 4;

    pub const EXC: u8 = 8;

    pub const DMAI: u8 = 16;

    pub const DIRW: u8 = 32;

    pub const CHG: u8 = 64;

    pub const REF: u8 = 128;
    // The five protection flags.
    pub const PROTECTION: u8 = 31;
    // ---- VTR
    pub const RDV: u8 = 1;

    pub const SYSV: u8 = 2;

    pub const SLV: u8 = 4;

    pub const CPUIV: u8 = 8;

    pub const EXCV: u8 = 16;

    pub const PWW: u8 = 32;

    pub const SWW: u8 = 64;

    pub const FATL: u8 = 128;
    // The first six, which are primary.
    pub const PRIMARY: u8 = 63;
    // A violation of DMAI, which no VTR ever holds: bit 7 of the rights byte.
    pub const DMAIV: u8 = 128;
    // ---- MR
    pub const ID: u8 = 7;

    pub const NMS: u8 = 8;

    pub const MST: u8 = 16;

    pub const URS: u8 = 32;

    pub const TRNS: u8 = 64;

    pub const MSEN: u8 = 128;
    // ---- BCSR, above the status
    pub const READ: u8 = 16;

    pub const NORMAL: u8 = 32;
    // ---- the segment number's bit 6, which URS must equal
    pub const UPPER: u8 = 64;
    // ---- status codes
    pub const COMMAND: u8 = 3;

    pub const ACKNOWLEDGE: u8 = 4;

    pub const STACK: u8 = 9;

    pub const PROGRAM: u8 = 12;

    pub const FETCH: u8 = 13;
    // ---- command codes
    pub const MR: u8 = 0x00;

    pub const SAR: u8 = 0x01;

    pub const VTR: u8 = 0x02;

    pub const VSN: u8 = 0x03;

    pub const VOFF: u8 = 0x04;

    pub const BCSR: u8 = 0x05;

    pub const ISN: u8 = 0x06;

    pub const IOFF: u8 = 0x07;

    pub const BASE: u8 = 0x08;

    pub const LIMIT: u8 = 0x09;

    pub const ATTRIBUTES: u8 = 0x0A;

    pub const WHOLE: u8 = 0x0B;
    // The same four with SAR stepped.
    pub const BASE_STEP: u8 = 0x0C;

    pub const LIMIT_STEP: u8 = 0x0D;

    pub const ATTRIBUTES_STEP: u8 = 0x0E;

    pub const WHOLE_STEP: u8 = 0x0F;

    pub const SOFTWARE_RESET: u8 = 0x10;

    pub const CLEAR_VTR: u8 = 0x11;

    pub const CLEAR_SWW: u8 = 0x13;

    pub const CLEAR_FATL: u8 = 0x14;

    pub const SET_CPUI: u8 = 0x15;

    pub const SET_DMAI: u8 = 0x16;

    pub const DSCR: u8 = 0x20;

    // The unit at power-on: all zero and false.
    pub fn power_on() -> Unit
        ensures { result ≡ power_on }
    {
        let table = [Descriptor::BLANK; Unit::DESCRIPTORS];
        let registers = Registers {
            control: Control {
                mr: 0,
                sar: 0,
                dscr: 0,
            },
            faults: Faults {
                vtr: 0,
                vsn: 0,
                voff: 0,
                bcsr: 0,
            },
            fetched: Fetched { isn: 0, ioff: 0 },
            notes: Notes {
                request: false,
                awaits: false,
                own: false,
                hold: false,
            },
            low: 0,
        };
        Unit { table, registers }
    }
}
