//! What comes of a call, and the line that is written for it.
ghost use Rattle.std.specs.Prelude.{◌≡◌, Some};
ghost use Rattle.journal.specs.Outcomes.{ground_number, ground_words, refusal_words, fault_numbers, fault_words, outcome_words};
ghost use Rattle.journal.specs.Report.{kind_of, counts_as};

use hours::Fault;
use std::fmt;

/// Why a call is refused.
#[derive(Clone, Copy, Drop)]
pub enum Ground {
    UnlawfulPosting,
    UnlawfulAverage,
    UnlawfulRecords,
    UnlawfulBand,
}

/// The line is the first entry or row at fault, counted from 1, and 0 where none is: the rules give every refusal a line.
#[derive(Clone, Copy, Drop)]
pub struct Refusal {
    pub ground: Ground,
    pub line: u32,
}

/// A fault by the numbers that are printed of it, whatever they are: a fault of the library has a location and a year only where its
/// cause has them.
#[derive(Clone, Copy, PartialEq, Eq, Debug)]
pub struct FaultNumbers {
    pub layer: u8,
    pub cause: u8,
    pub location: u8,
    pub year: u8,
}

impl From<Fault> for FaultNumbers {
    ghost from_gives = { λ fault numbers. numbers ≡ fault_numbers fault };

    fn from(fault: Fault) -> FaultNumbers {
        FaultNumbers {
            layer: u8::from(fault.layer),
            cause: u8::from(fault.cause),
            location: fault.cause.location(),
            year: fault.cause.year(),
        }
    }
}

#[derive(Clone, Copy)]
pub enum Outcome {
    Book,
    Price(i64),
    Fault(FaultNumbers),
    Refused(Refusal),
    Unreadable(usize),
}

/// How an outcome is counted. A question that was answered is taken, be the answer a price or a fault.
#[derive(Clone, Copy, Drop, PartialEq, Eq)]
pub(crate) enum Kind {
    Taken,
    Refused,
    Unreadable,
}

impl Outcome {
    fn kind(&self) -> Kind
        ensures { result ≡ kind_of self.now }
    {
        match self {
            Outcome::Book | Outcome::Price(_) | Outcome::Fault(_) => Kind::Taken,
            Outcome::Refused(_) => Kind::Refused,
            Outcome::Unreadable(_) => Kind::Unreadable,
        }
    }

    pub(crate) fn is(&self, kind: Kind) -> bool
        ensures { result ≡ counts_as kind self.now }
    {
        self.kind() == kind
    }
}

/// The number of a refusal. Calls that this journal has are refused for unlawful values alone.
impl From<Ground> for u8 {
    ghost from_gives = { λ x n. n ≡ ground_number x };

    fn from(ground: Ground) -> u8 {
        match ground {
            Ground::UnlawfulPosting
            | Ground::UnlawfulAverage
            | Ground::UnlawfulRecords
            | Ground::UnlawfulBand => 14,
        }
    }
}

impl fmt::Display for Ground {
    ghost output = { λ x. Some (ground_words x) };

    fn fmt<W: fmt::Write>(&self, f: &mut fmt::Formatter<W>) -> fmt::Result {
        match self {
            Ground::UnlawfulPosting => write!(
                f,
                "a posted row is unlawful or listed twice, or there are too many rows"
            ),
            Ground::UnlawfulAverage => write!(
                f,
                "a count or a mean of the average hours is unlawful or listed twice, or there are too many"
            ),
            Ground::UnlawfulRecords => write!(
                f,
                "an entry of the recorded hours is cut short, unlawful or listed twice, or the numbers as a whole are"
            ),
            Ground::UnlawfulBand => write!(
                f,
                "a limit of a band is unlawful, or the low one is above the high one"
            ),
        }
    }
}

impl fmt::Display for Refusal {
    ghost output = { λ x. Some (refusal_words x) };

    fn fmt<W: fmt::Write>(&self, f: &mut fmt::Formatter<W>) -> fmt::Result {
        let Refusal { ground, line } = *self;
        let number = u8::from(ground);
        write!(f, "refused {number} line {line}: {ground}")
    }
}

impl fmt::Display for FaultNumbers {
    ghost output = { λ x. Some (fault_words x) };

    fn fmt<W: fmt::Write>(&self, f: &mut fmt::Formatter<W>) -> fmt::Result {
        let FaultNumbers {
            layer,
            cause,
            location,
            year,
        } = *self;
        write!(f, "fault {layer} {cause} {location} {year}")
    }
}

impl fmt::Display for Outcome {
    ghost output = { λ x. Some (outcome_words x) };

    fn fmt<W: fmt::Write>(&self, f: &mut fmt::Formatter<W>) -> fmt::Result {
        match self {
            Outcome::Book => write!(f, "ok book"),
            Outcome::Price(price) => write!(f, "price {price}"),
            Outcome::Fault(fault) => write!(f, "{fault}"),
            Outcome::Refused(refusal) => write!(f, "{refusal}"),
            Outcome::Unreadable(line) => write!(f, "unreadable {line}"),
        }
    }
}
