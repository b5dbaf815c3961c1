// What every call gives: its count, or why it was refused; and the same as three numbers.
#![tactic(auto)]

ghost use Rattle.std.specs.Prelude.{◌≡◌};
ghost use Rattle.answers.specs.Answers.{number_of, answer_from};

use std::error::Error;
use std::fmt;

/// The question that got a no. Its discriminant is its number; 16 is withdrawn.
#[derive(Clone, Copy, Debug, PartialEq, Eq)]
pub enum Reason {
    Places = 1,
    Width = 2,
    BlockBytes = 3,
    BitCount = 4,
    LogRoom = 5,
    Entry = 6,
    BitByte = 7,
    NextByte = 8,
    ShortestForm = 9,
    FormNumber = 10,
    FillBits = 11,
    InputEnd = 12,
    OutputRoom = 13,
    Place = 14,
    OneLength = 15,
    SmallOrder = 17,
    Words = 18,
}

impl Reason {
    pub fn number(self) -> usize
        ensures { result ≡ number_of self }
    {
        self as usize
    }
}

/// Why a call was refused: the first question that got a no, and the place that it names.
#[derive(Clone, Copy, Debug, PartialEq, Eq)]
pub struct Refusal {
    pub reason: Reason,
    pub place: usize,
}

impl Refusal {
    pub fn of(reason: Reason) -> Refusal
        ensures { result ≡ record { reason = reason; place = 0 } }
    {
        Refusal { reason, place: 0 }
    }

    pub fn at(reason: Reason, place: usize) -> Refusal
        ensures { result ≡ record { reason = reason; place = place } }
    {
        Refusal { reason, place }
    }
}

impl fmt::Display for Refusal {
    fn fmt<W: fmt::Write>(&self, f: &mut fmt::Formatter<W>) -> fmt::Result {
        write!(f, "refused {} at {}", self.reason.number(), self.place)
    }
}

impl Error for Refusal {}

/// The answer of a call in three numbers, as it crosses to C and goes to a program's streams: the number of the question that refused
/// it, or 0; a place; a count.
#[repr(C)]
#[derive(Clone, Copy, Debug, PartialEq, Eq)]
pub struct Answer {
    pub number: usize,
    pub place: usize,
    pub count: usize,
}

impl From<Result<usize, Refusal>> for Answer {
    ghost from_gives = { λ given answer. answer ≡ answer_from given };

    fn from(given: Result<usize, Refusal>) -> Answer {
        match given {
            Ok(count) => Answer {
                number: 0,
                place: 0,
                count,
            },
            Err(refusal) => Answer {
                number: refusal.reason.number(),
                place: refusal.place,
                count: 0,
            },
        }
    }
}
