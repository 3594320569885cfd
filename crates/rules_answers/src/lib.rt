// Answers: all are made here. And the kind of an answer as a letter and a number.
#![tactic(auto)]

ghost use Rattle.std.specs.Prelude.{◌≡◌};
ghost use Rattle.rules.specs.Replies.{seen, spoken, plain, refused};
ghost use Rattle.rules.specs.Kinds.{letter_of, number_of};

use rules::{Address, Answer, Change, Decision, Kind, Registers};

// What a memory cycle answers: no data byte.
#[tactic(auto, unfolding(rules::specs::Replies::seen))]
pub fn seen(kind: Kind, l: Address, sup: bool, trap: bool, distance: u8) -> Answer
    ensures { result ≡ seen kind l sup trap distance }
{
    Answer {
        kind,
        address: l,
        sup,
        trap,
        drives: false,
        byte: 0,
        distance,
    }
}

// What any other cycle answers: no address, SUP off, and no distance.
pub fn spoken(kind: Kind, trap: bool, drives: bool, byte: u8) -> Answer
    ensures { result ≡ spoken kind trap drives byte }
{
    Answer {
        kind,
        address: Address {
            driven: false,
            block: 0,
        },
        sup: false,
        trap,
        drives,
        byte,
        distance: 0,
    }
}

// Nothing driven, SUP off, and the trap line as the request stands.
#[tactic(auto, unfolding(rules::specs::Replies::plain))]
pub fn plain(kind: Kind, r: Registers, h: Change) -> Decision
    ensures { result ≡ plain kind r h }
{
    Decision {
        answer: spoken(kind, r.notes.request, false, 0),
        registers: r,
        change: h,
    }
}

// A refusal: all as it was. It takes any number, as a kind does (`rules::Kind`).
#[tactic(auto, unfolding(rules::specs::Replies::refused))]
pub fn refused(n: u8, r: Registers) -> Decision
    ensures { result ≡ refused n r }
{
    plain(Kind::Refused(n), r, Change::Keep)
}

// The letter that stands for the kind. It and the number are functions and not `From<Kind>`: both are a byte of one kind, and a type has one
// `From` of another.
pub fn letter(kind: Kind) -> u8
    ensures { result ≡ letter_of kind }
{
    match kind {
        Kind::Reset => b'R',
        Kind::Acknowledge => b'A',
        Kind::Command => b'C',
        Kind::Aborted => b'F',
        Kind::Translated => b'T',
        Kind::Passed => b'P',
        Kind::Ignored => b'I',
        Kind::Refused(_) => b'X',
    }
}

// The number of a refusal, and 0 where nothing was refused: no Option, since `number_of` says 0.
pub fn number(kind: Kind) -> u8
    ensures { result ≡ number_of kind }
{
    match kind {
        Kind::Refused(n) => n,
        _ => 0,
    }
}
