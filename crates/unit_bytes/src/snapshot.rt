// A unit record as bytes: the registers, the notes, the descriptors, and the low byte.
ghost use Rattle.std.specs.Prelude.{◌≡◌, [], ◌∷◌, ◌++◌, ◌*◌, ◌+◌, ◌≤◌, length};
ghost use Rattle.std.proofs.lemmas.List.Edits.{sets};
ghost use Rattle.unit_bytes.specs.Snapshot.{table_at, descriptor_size, segments, unit_size};
ghost use Rattle.unit_bytes.specs.Snapshot.{descriptor_in, table_in, notes_in, registers_in, unit_in};
ghost use Rattle.unit_bytes.specs.Snapshot.{descriptor_bytes, table_bytes, notes_byte, register_bytes, unit_bytes};

use rules::{Control, Descriptor, Faults, Fetched, Notes, Registers, Unit};
use rules_flags::flag_if;
use std::array;
use unit_stores::{store, word, word_bytes};

// Where each register of a unit stands, the notes, and the first descriptor.
pub const MR: usize = 0;

pub const SAR: usize = 1;

pub const DSCR: usize = 2;

pub const VTR: usize = 3;

pub const VSN: usize = 4;

pub const VOFF: usize = 5;

pub const BCSR: usize = 6;

pub const ISN: usize = 7;

pub const IOFF: usize = 8;

pub const NOTES: usize = 9;

pub const TABLE: usize = 10;

// Where limit and attributes stand in a descriptor's bytes, behind the base, and how many these are.
const LIMIT: usize = 2;

pub const ATTRIBUTES: usize = 3;

pub const DESCRIPTOR: usize = 4;

// Where the low byte stands, and the bytes of a unit.
pub const LOW: usize = TABLE + DESCRIPTOR * Unit::DESCRIPTORS;

pub const BYTES: usize = LOW + 1;

// The bits of the notes, and the largest byte that is made of them.
pub const REQUEST: u8 = 1;

pub const AWAIT: u8 = 2;

pub const OWN: u8 = 4;

pub const HOLD: u8 = 8;

pub const LAST_NOTES: u8 = REQUEST | AWAIT | OWN | HOLD;

// The descriptor of the four bytes from an index on.
#[tactic(auto, unfolding(crate::specs::Snapshot::descriptor_in, unit_stores::specs::Word::word_at))]
pub fn descriptor_in(bytes: &[u8], at: usize) -> Descriptor
    requires { at + descriptor_size ≤ length bytes.now }
    ensures { result ≡ descriptor_in bytes.now at }
{
    Descriptor {
        base: word(bytes[at], bytes[at + 1]),
        limit: bytes[at + LIMIT],
        attributes: bytes[at + ATTRIBUTES],
    }
}

// The four notes of their byte. No `From`: `Notes` is of `rules`, and the bits are of this crate.
#[tactic(auto, unfolding(crate::specs::Snapshot::notes_in))]
fn notes_in(byte: u8) -> Notes
    ensures { result ≡ notes_in byte }
{
    Notes {
        request: byte & REQUEST != 0,
        awaits: byte & AWAIT != 0,
        own: byte & OWN != 0,
        hold: byte & HOLD != 0,
    }
}

// The registers of a unit's bytes. This and the functions below take a slice and no `&[u8; BYTES]`, which would ask more: the buffers that
// `distantarm_power_on` and `distantarm_cycle` lend are as long as their callers like, and `PoweredOn` and `Called` speak of every byte of them.
#[tactic(auto, unfolding(crate::specs::Snapshot::registers_in))]
pub fn registers_in(bytes: &[u8]) -> Registers
    requires { unit_size ≤ length bytes.now }
    ensures { result ≡ registers_in bytes.now }
{
    Registers {
        control: Control {
            mr: bytes[MR],
            sar: bytes[SAR],
            dscr: bytes[DSCR],
        },
        faults: Faults {
            vtr: bytes[VTR],
            vsn: bytes[VSN],
            voff: bytes[VOFF],
            bcsr: bytes[BCSR],
        },
        fetched: Fetched {
            isn: bytes[ISN],
            ioff: bytes[IOFF],
        },
        notes: notes_in(bytes[NOTES]),
        low: bytes[LOW],
    }
}

// The unit of its bytes.
pub fn unit_in(bytes: &[u8]) -> Unit
    requires { unit_size ≤ length bytes.now }
    ensures { result ≡ unit_in bytes.now }
{
    Unit {
        table: array::from_fn(|i| descriptor_in(bytes, TABLE + DESCRIPTOR * i)),
        registers: registers_in(bytes),
    }
}

// A descriptor's bytes.
#[tactic(auto, unfolding(crate::specs::Snapshot::descriptor_bytes))]
pub fn descriptor_bytes(d: Descriptor) -> [u8; DESCRIPTOR]
    ensures { result ≡ descriptor_bytes d }
{
    let [high, low] = word_bytes(d.base);
    [high, low, d.limit, d.attributes]
}

// A descriptor's bytes stored from an index on: one line, as `unit_packed::put` is.
pub fn put_descriptor(out: &mut [u8], at: usize, d: Descriptor)
    requires { at + descriptor_size ≤ length out.old }
    ensures { out.new ≡ sets out.old at (descriptor_bytes d) }
{
    store(out, at, descriptor_bytes(d));
}

// The notes in a byte. No `From`, as above.
#[tactic(auto, unfolding(crate::specs::Snapshot::notes_byte))]
fn notes_byte(n: Notes) -> u8
    ensures { result ≡ notes_byte n }
{
    flag_if(n.request, REQUEST)
        | flag_if(n.awaits, AWAIT)
        | flag_if(n.own, OWN)
        | flag_if(n.hold, HOLD)
}

// The registers' bytes, all but the low byte.
#[tactic(auto, unfolding(crate::specs::Snapshot::register_bytes))]
pub fn register_bytes(r: Registers) -> [u8; TABLE]
    ensures { result ≡ register_bytes r }
{
    [
        r.control.mr,
        r.control.sar,
        r.control.dscr,
        r.faults.vtr,
        r.faults.vsn,
        r.faults.voff,
        r.faults.bcsr,
        r.fetched.isn,
        r.fetched.ioff,
        notes_byte(r.notes),
    ]
}

// A unit's bytes stored at the start.
#[tactic(auto, unfolding(crate::specs::Snapshot::table_bytes))]
pub fn put_unit(out: &mut [u8], u: Unit)
    requires { unit_size ≤ length out.old }
    ensures { out.new ≡ sets out.old 0 (unit_bytes u) }
{
    store(out, 0, register_bytes(u.registers));
    for (i, d) in u.table.iter().enumerate() {
        store(out, TABLE + DESCRIPTOR * i, descriptor_bytes(*d));
    }
    out[LOW] = u.registers.low;
}
