//! Recorded hours as an hour source.
ghost use Rattle.hours.specs.RecordedFormat.{recorded_hours, recorded_prices};
ghost use Rattle.hours.specs.RecordedAnswers.{few_hours_lem, whole_year_lem, empty_year_lem, small_prices_lem};
ghost use Rattle.std.proofs.Common.{rules};

use super::entry::{RECORDED_LOCATIONS, hours_by};
use super::made::Recorded;
use super::span::copy_prices;
use crate::fault::{Fault, past_count};
use crate::period::Slot;
use crate::series::Series;
use crate::source::{HourSource, MOST_HOURS};

#[tactic(auto, unfolding(crate::specs::RecordedFormat::recorded_hours, crate::specs::RecordedFormat::recorded_prices))]
impl HourSource for Recorded {
    const LOCATIONS: u8 = RECORDED_LOCATIONS;

    ghost LOCATIONS = { 64 };

    /// A slot that is not listed has no hours, and a year that is not listed has no prices.
    ghost hours = { λ source slot year. recorded_hours source slot year };

    ghost prices = { λ source location slot year. recorded_prices source location slot year };

    ghost some_location = { Prim.search rules };

    ghost few_locations = { Prim.search rules };

    ghost few_hours = { unfold recorded_hours recorded_prices in few_hours_lem };

    ghost whole_year = { unfold recorded_hours recorded_prices in whole_year_lem };

    ghost empty_year = { unfold recorded_hours recorded_prices in empty_year_lem };

    ghost small_prices = { unfold recorded_hours recorded_prices in small_prices_lem };

    fn count(&self, slot: Slot, year: u8) -> Result<u16, Fault> {
        slot.check(year)?;
        Ok(hours_by(self.tables.counts_of(slot), year))
    }

    fn mcc(&self, series: Series, hour: u16) -> Result<i32, Fault> {
        let span = self.span(series)?;
        if span.hours <= hour {
            return Err(past_count(series.location, series.year));
        }
        Ok(self.numbers[span.start as usize + usize::from(hour)])
    }

    /// All prices of the series stand in a row, so they are copied at once.
    fn fill(&self, series: Series, buffer: &mut [i32; MOST_HOURS]) -> Result<u16, Fault> {
        let span = self.span(series)?;
        let start = span.start as usize;
        copy_prices(
            &self.numbers.as_slice()[start..start + usize::from(span.hours)],
            buffer,
        );
        Ok(span.hours)
    }
}
