//! The prices of a location in a past year: what a source answers hour by hour.
ghost use Rattle.hours.specs.Questions.{askable};
ghost use Rattle.hours.specs.RecordedEntries.{lawful_series};
ghost use Rattle.hours.specs.Periods.{lawful_slot, past_year};
ghost use Rattle.std.specs.Prelude.{◌≡◌, ◌<◌, true, IfOk};

use super::fault::{Fault, unknown_location, unlawful_question};
use super::period::{Slot, is_lawful_slot, is_past_year};

/// A location, a slot, and a past year of it.
#[derive(Clone, Copy, PartialEq, Eq, Debug)]
pub struct Series {
    pub location: u8,
    pub slot: Slot,
    /// a number, as the class of a slot is
    pub year: u8,
}

impl Series {
    /// Whether there can be these prices: of one of 64 locations, in a slot and a past year that there are.
    pub(crate) fn is_lawful(self) -> bool
        ensures { result ≡ lawful_series self }
    {
        is_lawful_slot(self.slot) && is_past_year(self.year) && self.location <= 63
    }

    /// Whether a source that knows so many locations can be asked for these prices: the slot and the year are looked at first, then the location.
    pub fn check(self, locations: u8) -> Result<(), Fault>
        ensures answer { result ≡ askable locations self.location self.slot self.year }
        ensures known { IfOk result (λ _. (lawful_slot self.slot ≡ true) × (past_year self.year ≡ true) × (self.location < locations)) }
    {
        if !is_lawful_slot(self.slot) || !is_past_year(self.year) {
            return Err(unlawful_question());
        }
        if self.location >= locations {
            return Err(unknown_location(self.location));
        }
        Ok(())
    }
}
