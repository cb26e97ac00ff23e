//! An hour source: one location, with the same price in each of the 24 hours of every year.
ghost use Rattle.hours.specs.Bounds.{Within, within};
ghost use Rattle.std.specs.Prelude.{◌≡◌, false, replicate, Some, MatchOption};
ghost use Rattle.std.proofs.Common.{rules};

use hours::{Fault, HourSource, Series, Slot, is_within, past_count};

/// The price of every hour.
#[derive(Drop)]
pub struct Flat {
    price: i32,
    ghost small: { Within 200000 price },
}

impl Flat {
    /// A source of this price, or none where the price is out of bounds.
    pub fn new(price: i32) -> Option<Flat>
        ensures { MatchOption result (within 200000 price ≡ false) (λ flat. flat.price ≡ price) }
    {
        if is_within(200_000, i64::from(price)) {
            Some(Flat { price })
        } else {
            None
        }
    }
}

impl HourSource for Flat {
    const LOCATIONS: u8 = 1;

    ghost LOCATIONS = { 1 };

    ghost hours = { λ source slot year. 24 };

    ghost prices = { λ source location slot year. Some (replicate 24 source.price) };

    ghost some_location = { Prim.search rules };

    ghost few_locations = { Prim.search rules };

    ghost few_hours = { Prim.search rules };

    ghost whole_year = { Prim.search rules };

    ghost empty_year = { Prim.search rules };

    ghost small_prices = { Prim.search rules };

    fn count(&self, slot: Slot, year: u8) -> Result<u16, Fault> {
        slot.check(year)?;
        Ok(24)
    }

    fn mcc(&self, series: Series, hour: u16) -> Result<i32, Fault> {
        series.check(Self::LOCATIONS)?;
        if hour >= 24 {
            return Err(past_count(series.location, series.year));
        }
        Ok(self.price)
    }
}
