//! Average hours as an hour source.
ghost use Rattle.hours.specs.Means.{rows_count, mean_prices};
ghost use Rattle.hours.specs.LawfulRows.{few_hours_lem, whole_year_lem, empty_year_lem, small_prices_lem};
ghost use Rattle.std.proofs.Common.{rules};

use super::average::Average;
use super::fault::{Fault, lacking_year, past_count};
use super::period::Slot;
use super::rows::{count_in, mean_of};
use super::series::Series;
use super::source::HourSource;

impl HourSource for Average {
    const LOCATIONS: u8 = 64;

    ghost LOCATIONS = { 64 };

    ghost hours = { λ source slot year. rows_count source.counts.items slot year };

    ghost prices = { λ source location slot year. mean_prices source.counts.items source.means.items location slot year };

    ghost some_location = { Prim.search rules };

    ghost few_locations = { Prim.search rules };

    ghost few_hours = { λ source slot year. few_hours_lem source.counts.items source.means.items source.lawful slot year };

    ghost whole_year = { λ source location slot year zs there. whole_year_lem _ _ zs there };

    ghost empty_year = { λ source location slot year none. empty_year_lem source.counts.items source.means.items source.lawful location slot year none };

    ghost small_prices = { λ source location slot year zs hour there. small_prices_lem source.counts.items source.means.items source.lawful location slot year zs hour there };

    fn count(&self, slot: Slot, year: u8) -> Result<u16, Fault> {
        slot.check(year)?;
        Ok(count_in(self.counts.as_slice(), slot, year) as u16)
    }

    fn mcc(&self, series: Series, hour: u16) -> Result<i32, Fault> {
        series.check(Self::LOCATIONS)?;
        let Series {
            location,
            slot,
            year,
        } = series;
        let Some(row) = mean_of(self.means.as_slice(), series) else {
            return Err(lacking_year(location, year));
        };
        if u32::from(hour) >= count_in(self.counts.as_slice(), slot, year) {
            return Err(past_count(location, year));
        }
        Ok(row.mcc as i32)
    }
}
