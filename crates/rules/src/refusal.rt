// What says no, and the number of each: to a cycle, to a trace, to a record of it, to a recording, to a board, and to a lent buffer.
ghost use Rattle.std.specs.Prelude.{◌≡◌};
ghost use Rattle.rules.specs.Numbers.{refusal_number};

// Why something is refused.
#[derive(Clone, Copy, Debug, PartialEq, Eq)]
pub enum Refusal {
    OutOfRange,
    Damaged,
    Unlisted,
    WrongWay,
    NoTrace,
    OtherVersion,
    TooMany,
    WrongLength,
    PastTheCount,
    NoRoomToRecord,
    WrongCount,
    TwoDrive,
    SeveralRead,
    NoRoom,
}

// The number that says no, as documents, traces and callers in C know it.
impl From<Refusal> for u8 {
    ghost from_gives = { λ r n. n ≡ refusal_number r };

    fn from(refusal: Refusal) -> u8 {
        match refusal {
            Refusal::OutOfRange => 1,
            Refusal::Damaged => 2,
            Refusal::Unlisted => 3,
            Refusal::WrongWay => 4,
            Refusal::NoTrace => 5,
            Refusal::OtherVersion => 6,
            Refusal::TooMany => 7,
            Refusal::WrongLength => 8,
            Refusal::PastTheCount => 9,
            Refusal::NoRoomToRecord => 10,
            Refusal::WrongCount => 11,
            Refusal::TwoDrive => 12,
            Refusal::SeveralRead => 13,
            Refusal::NoRoom => 255,
        }
    }
}
