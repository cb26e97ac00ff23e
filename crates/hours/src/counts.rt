//! How many hours a slot has, year by year.
ghost use Rattle.hours.specs.Counting.{counted_in};
ghost use Rattle.std.specs.Prelude.{◌≡◌};

use super::period::{AHEAD, DISTANT, RECENT};

/// The hours of the recent year, of the distant year and ahead.
#[derive(Clone, Copy, PartialEq, Eq, Debug)]
pub struct Counts<N> {
    pub recent: N,
    pub distant: N,
    pub ahead: N,
}

impl<N: Copy> Counts<N> {
    /// The count of a year, if there is such a year.
    pub fn of(self, year: u8) -> Option<N>
        ensures { result ≡ counted_in self year }
    {
        match year {
            RECENT => Some(self.recent),
            DISTANT => Some(self.distant),
            AHEAD => Some(self.ahead),
            _ => None,
        }
    }
}
