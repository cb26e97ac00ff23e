//! The interface of an hour source: what it means, what holds of every source, and the questions.
ghost use Rattle.std.specs.Prelude.{◌≡◌, ℕ, ◌<◌, ◌≤◌, List, length, ℤ, pos, Some, None, Option, slice_index_or};
ghost use Rattle.hours.specs.Bounds.{Within};
ghost use Rattle.hours.specs.Questions.{counted, year_of, priced, how_many, written};
ghost use Rattle.hours.specs.declared.period.Slot.{Slot};

use super::fault::Fault;
use super::period::Slot;
use super::series::Series;

/// The most hours that a year of a slot can have: room for a whole year of one class and more.
pub const MOST_HOURS: usize = 9000;

/// The most that a price can be in cents, either way.
pub const MOST_PRICE: u64 = 200_000;

pub trait HourSource {
    /// How many locations the source knows, from 0 up.
    const LOCATIONS: u8;

    ghost LOCATIONS: { ℕ };

    /// The meaning: the hours of a slot in a year; the prices of a location, slot and year, or none.
    ghost hours: { Self → Slot → ℕ → ℕ };

    ghost prices: { Self → ℕ → Slot → ℕ → Option (List ℤ) };

    /// How many hours a slot has in a year: recent, distant or ahead. Two parameters: tables are kept by slot alone.
    fn count(&self, slot: Slot, year: u8) -> Result<u16, Fault>
        ensures { result ≡ counted (hours self.now) slot year };

    /// The price in one hour of a series.
    fn mcc(&self, series: Series, hour: u16) -> Result<i32, Fault>
        ensures { result ≡ priced LOCATIONS (prices self.now) series.location series.slot series.year hour };

    /// All prices of a series, written to the front of the buffer, which is an array so that no answer wants memory; how many they are. A fault leaves the buffer as it was.
    fn fill(&self, series: Series, buffer: &mut [i32; MOST_HOURS]) -> Result<u16, Fault>
        ensures answer { result ≡ how_many (year_of LOCATIONS (prices self.now) series.location series.slot series.year) }
        ensures after { buffer.new ≡ written (year_of LOCATIONS (prices self.now) series.location series.slot series.year) buffer.old }
    {
        self.mcc(series, 0)?;
        let n = self.count(series.slot, series.year)?;
        // not a loop over the buffer: the hour is what is asked for, and so also a place
        for hour in 0..n {
            if let Ok(price) = self.mcc(series, hour) {
                buffer[usize::from(hour)] = price;
            }
        }
        Ok(n)
    }

    /// At least one location is known, and at most 64.
    ghost some_location: { 1 ≤ LOCATIONS };

    ghost few_locations: { LOCATIONS ≤ 64 };

    /// No year has more than 9,000 hours.
    ghost few_hours: { (source : Self) (slot : Slot) (year : ℕ) → hours source slot year ≤ 9000 };

    /// A location has a price for every hour of a year, or none at all; and none where the year has no hours.
    ghost whole_year: { (source : Self) (location : ℕ) (slot : Slot) (year : ℕ) (zs : List ℤ) → prices source location slot year ≡ Some zs → length zs ≡ hours source slot year };

    ghost empty_year: { (source : Self) (location : ℕ) (slot : Slot) (year : ℕ) → hours source slot year ≡ 0 → prices source location slot year ≡ None };

    /// A price is within 200,000 cents either way.
    ghost small_prices: { (source : Self) (location : ℕ) (slot : Slot) (year : ℕ) (zs : List ℤ) (hour : ℕ) → prices source location slot year ≡ Some zs → Within 200000 (slice_index_or zs hour (pos 0)) };
}
