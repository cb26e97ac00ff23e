//! Where the prices of a year stand among the numbers.
ghost use Rattle.std.specs.Prelude.{◌≡◌, ◌+◌, ◌≤◌, ◌++◌, length, drop, IfOk};
ghost use Rattle.hours.specs.Questions.{year_of};
ghost use Rattle.hours.specs.RecordedFormat.{records_of, prices_in};
ghost use Rattle.hours.specs.RecordedSpans.{spanned};

use super::entry::{RECORDED_LOCATIONS, hours_by};
use super::made::Recorded;
use crate::fault::{Fault, lacking_year};
use crate::series::Series;
use crate::source::MOST_HOURS;

/// The first of the prices, and how many there are.
#[derive(Clone, Copy)]
pub struct Span {
    pub start: u32,
    pub hours: u16,
}

impl Recorded {
    /// Where the prices of a series stand. The faults come in the order of the questions: the question itself, the location, the year.
    pub(super) fn span(&self, series: Series) -> Result<Span, Fault>
        ensures within { IfOk result (λ s. (s.start + s.hours ≤ length self.now) × (s.hours ≤ 9000)) }
        ensures prices { spanned self.now result ≡ year_of 64 (prices_in (records_of self.now)) series.location series.slot series.year }
    {
        series.check(RECORDED_LOCATIONS)?;
        let Some(start) = self.tables.start_of(series) else {
            return Err(lacking_year(series.location, series.year));
        };
        let hours = hours_by(self.tables.counts_of(series.slot), series.year);
        Ok(Span { start, hours })
    }
}

/// Writes the prices to the front of the buffer.
pub fn copy_prices(prices: &[i32], buffer: &mut [i32; MOST_HOURS])
    requires { length prices.now ≤ 9000 }
    ensures { buffer.new ≡ prices.now ++ drop (length prices.now) buffer.old }
{
    buffer[0..prices.len()].copy_from_slice(prices);
}
