//! The proxy: over any source, a location that lacks a year gets the mean of the locations that have it, hour by hour.
ghost use Rattle.std.specs.Prelude.{◌≡◌, ℕ, ◌*◌, ◌<◌, ◌≤◌, true, [], ◌∷◌, pos, negsuc, if◌then◌else◌, Some, nat_lt};
ghost use Rattle.hours.specs.Bounds.{Within};
ghost use Rattle.hours.specs.Periods.{lawful_slot, past_year};
ghost use Rattle.hours.specs.Questions.{present, hour_of, priced};
ghost use Rattle.hours.specs.StandIns.{mean_down, stand_in, proxied, sum_of, number_of, two_prices};
ghost use Rattle.hours.specs.MeanPrices.{proxied_whole, proxied_empty, proxied_small};
ghost use Rattle.std.proofs.Common.{rules};

use super::fault::{Cause, Fault, lacking_year, past_count};
use super::period::Slot;
use super::series::Series;
use super::source::HourSource;

/// Stands over the source `below`, and knows the locations that it knows.
#[derive(Drop)]
pub struct Proxy<S> {
    pub below: S,
}

/// The prices of one hour over the locations that have one: their sum, and how many there are.
#[derive(Clone, Copy)]
struct Prices {
    sum: i64,
    number: u8,
    ghost few: { number ≤ 64 },
    ghost small: { Within (200000 * number) sum },
}

impl Prices {
    /// Their mean, rounded down: `/` would round a negative one up.
    fn mean(self) -> i32
        requires { 0 < self.number }
        ensures { result ≡ mean_down self.sum self.number }
    {
        self.sum.div_euclid(i64::from(self.number)) as i32
    }
}

fn prices_at<S: HourSource>(below: &S, slot: Slot, year: u8, hour: u16) -> Prices
    ensures sum { result.sum ≡ sum_of (λ l. priced S.HourSource.LOCATIONS (S.HourSource.prices below.now) l slot year hour) S.HourSource.LOCATIONS }
    ensures number { result.number ≡ number_of (λ l. priced S.HourSource.LOCATIONS (S.HourSource.prices below.now) l slot year hour) S.HourSource.LOCATIONS }
{
    let mut sum: i64 = 0;
    let mut number: u8 = 0;
    for location in 0..S::LOCATIONS {
        let series = Series {
            location,
            slot,
            year,
        };
        if let Ok(price) = below.mcc(series, hour) {
            sum += i64::from(price);
            number += 1;
        }
    }
    Prices { sum, number }
}

/// The hour, or the first one in place of an hour past the count: whether some location has the year shows at any hour that the year has.
fn hour_or_first(hour: u16, count: u16) -> u16
    ensures { result ≡ (if nat_lt hour count then hour else 0) }
{
    if hour < count { hour } else { 0 }
}

/// The price of an hour of a series that the source below lacks.
fn stand_in<S: HourSource>(below: &S, series: Series, hour: u16) -> Result<i32, Fault>
    requires lawful { lawful_slot series.slot ≡ true }
    requires past { past_year series.year ≡ true }
    ensures { result ≡ hour_of (present (stand_in (λ l. S.HourSource.prices below.now l series.slot series.year) S.HourSource.LOCATIONS (S.HourSource.hours below.now series.slot series.year)) series.location series.year) series.location series.year hour }
{
    let Series {
        location,
        slot,
        year,
    } = series;
    let count = below.count(slot, year)?;
    let prices = prices_at(below, slot, year, hour_or_first(hour, count));
    if prices.number == 0 {
        return Err(lacking_year(location, year));
    }
    if hour >= count {
        return Err(past_count(location, year));
    }
    Ok(prices.mean())
}

/// Where two locations have 5 and -6, a third that lacks the year gets -1: the mean of -1/2 is rounded down, not toward zero.
pub fn stand_in_for_five_and_minus_six() -> i32
    ensures minus_one { result ≡ negsuc 0 }
    ensures proxied { proxied (two_prices (pos 5) (negsuc 5)) 3 1 2 ≡ Some (result ∷ []) }
{
    let prices = Prices {
        sum: 5 - 6,
        number: 2,
    };
    prices.mean()
}

impl<S: HourSource> HourSource for Proxy<S> {
    const LOCATIONS: u8 = S::LOCATIONS;

    ghost LOCATIONS = { S.HourSource.LOCATIONS };

    ghost hours = { λ source slot year. S.HourSource.hours source.below slot year };

    ghost prices = { λ source location slot year. proxied (λ l. S.HourSource.prices source.below l slot year) S.HourSource.LOCATIONS (S.HourSource.hours source.below slot year) location };

    ghost some_location = { Prim.search rules };

    ghost few_locations = { Prim.search rules };

    ghost few_hours = { Prim.search rules };

    ghost whole_year = { λ source location slot year zs there.
        proxied_whole (λ l. S.HourSource.prices source.below l slot year) (S.HourSource.hours source.below slot year)
        (λ l. S.HourSource.whole_year source.below l slot year) (λ l ws h. S.HourSource.small_prices source.below l slot year ws h) S.HourSource.LOCATIONS location zs there };

    ghost empty_year = { λ source location slot year none.
        proxied_empty (λ l. S.HourSource.prices source.below l slot year) (S.HourSource.hours source.below slot year)
        (λ l. S.HourSource.whole_year source.below l slot year) (λ l ws h. S.HourSource.small_prices source.below l slot year ws h) S.HourSource.LOCATIONS location
        (λ l. S.HourSource.empty_year source.below l slot year none) };

    ghost small_prices = { λ source location slot year zs hour there.
        proxied_small (λ l. S.HourSource.prices source.below l slot year) (S.HourSource.hours source.below slot year)
        (λ l. S.HourSource.whole_year source.below l slot year) (λ l ws h. S.HourSource.small_prices source.below l slot year ws h) S.HourSource.LOCATIONS location zs hour there };

    fn count(&self, slot: Slot, year: u8) -> Result<u16, Fault> {
        self.below.count(slot, year)
    }

    fn mcc(&self, series: Series, hour: u16) -> Result<i32, Fault> {
        let answer = self.below.mcc(series, hour);
        match answer {
            Err(
                Fault {
                    cause: Cause::LackingYear { .. },
                    ..
                },
            ) => stand_in(&self.below, series, hour),
            _ => answer,
        }
    }
}
