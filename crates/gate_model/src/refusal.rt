//! Why a call is turned down.
ghost use Rattle.gate_model.specs.Refusals.{ground_number};
ghost use Rattle.std.specs.Prelude.{◌≡◌};

use hours::Fault;

/// The grounds on which the gate refuses, in the order in which they are tried.
#[derive(Clone, Copy, PartialEq, Eq, Debug)]
pub enum Ground {
    /// no customer of that number, or a transfer to oneself
    UnknownCustomer,
    /// an amount, or what it would lead to, out of bounds
    AmountOutOfBounds,
    /// the wrong phase or another window; a month turn in the last month
    WrongPhase,
    /// a period that there is none of, or one that has begun
    UnlawfulPeriod,
    /// no line, or more than 16
    LineCount,
    /// a path, class, curve, price or megawatts out of bounds
    UnlawfulLine,
    /// no such right, or another's
    NotTheirRight,
    /// a right of another period, or begun, or with fewer megawatts uncommitted
    NotFree,
    /// no place or number left for what the call would make
    NoRoom,
    /// the book has no price for a key
    NoPrice,
    /// the cost would pass its limit
    CostTooLarge,
    /// the requirement would be above the security
    AboveSecurity,
    /// no such standing item, or an award that its curve does not allow
    UnlawfulAward,
}

/// Where a ground is met: the line at which it was first, or 0 where the call has none (the rules give every refusal a line), and
/// the fault where a price was missing.
// the fault stands here and not in the ground, since a table of grounds names each before it is tried
#[derive(Clone, Copy, PartialEq, Eq, Debug)]
pub struct Met {
    pub line: u32,
    pub fault: Option<Fault>,
}

/// The ground of a refusal, and where it was met.
#[derive(Clone, Copy, PartialEq, Eq, Debug)]
pub struct Refusal {
    pub ground: Ground,
    pub met: Met,
}

impl From<Ground> for u8 {
    ghost from_gives = { λ ground number. number ≡ ground_number ground };

    fn from(ground: Ground) -> u8 {
        match ground {
            Ground::UnknownCustomer => 1,
            Ground::AmountOutOfBounds => 2,
            Ground::WrongPhase => 3,
            Ground::UnlawfulPeriod => 4,
            Ground::LineCount => 5,
            Ground::UnlawfulLine => 6,
            Ground::NotTheirRight => 7,
            Ground::NotFree => 8,
            Ground::NoRoom => 9,
            Ground::NoPrice => 10,
            Ground::CostTooLarge => 11,
            Ground::AboveSecurity => 12,
            Ground::UnlawfulAward => 13,
        }
    }
}
