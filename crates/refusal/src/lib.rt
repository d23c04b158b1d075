// Why a call is refused: the refusal numbers of the specification, by name.
#![tactic(auto)]

ghost use Rattle.refusal.specs.Numbers.{IsNumberOf};

use std::error::Error;
use std::fmt;

/// What is wrong with a call, or with a packet that is read. The names are those of include/bannogwy.h, and `u32::from` gives the number.
#[derive(Clone, Copy, Debug, PartialEq, Eq, Drop)]
pub enum Refusal {
    /// n, p, h or n x S is out of range, or a network slice has the wrong length.
    Sizes = 1,
    /// The diagonal of the links is not 0, or a link goes one way.
    Links = 2,
    /// A table slice has the wrong length.
    Table = 3,
    /// A node, a protocol, a height, a stack number or a step limit is out of range.
    Range = 4,
    /// The waiting bit is not set.
    NoMessage = 5,
    /// There is no row, and the packet is not delivered here.
    NoRoute = 6,
    /// The table holds what no delivery writes.
    Broken = 7,
    /// The packet is not delivered after the step limit's hops.
    Limit = 8,
    /// A slice is too short for the answer.
    NoRoom = 9,
    /// A packet has fewer bytes than its header.
    Short = 61,
    /// A header has another version than the one that is announced.
    WrongVersion = 62,
    /// A header's length is wrong.
    Header = 63,
    /// A packet is longer than what holds it.
    Beyond = 64,
    /// A header's checksum is wrong.
    Checksum = 65,
    /// A packet is a fragment.
    Fragment = 66,
    /// There is one header more than the height bound.
    Higher = 67,
}

impl From<Refusal> for u32 {
    ghost from_gives = { IsNumberOf };

    fn from(refusal: Refusal) -> u32 {
        refusal as u32
    }
}

impl fmt::Display for Refusal {
    fn fmt<W: fmt::Write>(&self, f: &mut fmt::Formatter<W>) -> fmt::Result {
        f.write_str(match self {
            Refusal::Sizes => "a size out of range",
            Refusal::Links => "a link to itself or one way",
            Refusal::Table => "a table of the wrong length",
            Refusal::Range => "a number out of range",
            Refusal::NoMessage => "no such message",
            Refusal::NoRoute => "no route",
            Refusal::Broken => "a broken table",
            Refusal::Limit => "not delivered within the limit",
            Refusal::NoRoom => "no room",
            Refusal::Short => "too short",
            Refusal::WrongVersion => "wrong version",
            Refusal::Header => "bad header length",
            Refusal::Beyond => "longer than what holds it",
            Refusal::Checksum => "bad checksum",
            Refusal::Fragment => "a fragment",
            Refusal::Higher => "too many headers",
        })
    }
}

impl Error for Refusal {}
