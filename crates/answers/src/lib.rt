// The answers of the calls, and what they say.
#![tactic(auto)]

ghost use Rattle.std.specs.Prelude.{◌≡◌, Some, decimal};
ghost use Rattle.answers.specs.Answers.{number};

use std::fmt;

// The refusals, each a line of the table (document 01, Where a call is turned away; document 02), in the order of
// their numbers.
#[derive(Clone, Copy, Debug, PartialEq, Eq)]
pub enum Refusal {
    WrongKind = 1,
    WrongLength,
    WrongByte,
    WrongNames,
    EqualNames,
    WrongCount,
    WrongLines,
    WrongValues,
    NotMirrored,
    WrongListLength,
    OutOfRange,
    NoDistances,
    FewSlots,
    ShortBuffer,
    OutOfPlace,
    Unscored,
    NamesDiffer,
    SumOutOfRange,
    WrongSide,
}

impl Refusal {
    pub fn number(self) -> u8
        ensures { result ≡ number self }
    {
        self as u8
    }
}

impl fmt::Display for Refusal {
    ghost output = { λ refusal. Some (decimal (number refusal)) };

    fn fmt<W: fmt::Write>(&self, f: &mut fmt::Formatter<W>) -> fmt::Result {
        write!(f, "{}", self.number())
    }
}

// A place in a line.
#[derive(Clone, Copy, Debug, PartialEq, Eq)]
pub struct Cursor {
    pub at: usize,
}
