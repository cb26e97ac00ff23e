//! A book whose prices come from the hours of two past years.
ghost use Rattle.std.specs.Prelude.{◌≡◌, ◌++◌, length, pos, ◌-ℤ◌, ◌*ℤ◌, Ok, Err, MatchResult};
ghost use Rattle.books.specs.Differences.{lost, gained, summed_years, LeftIn, Small};
ghost use Rattle.books.specs.Histories.{floored, percent, stress_of, some_hours, path_years, priced_years, history_price};
ghost use Rattle.books.specs.Percentiles.{percentile_of};
ghost use Rattle.hours.specs.Bounds.{Within};
ghost use Rattle.hours.specs.Questions.{year_of};
ghost use Rattle.books.specs.PathYears.{There, history_bounded};

use super::book::Book;
use super::count::Hours;
use super::fault::no_hours;
use super::key::Key;
use super::mean::Mean;
use super::stress::stress;
use super::total::YearTotal;
use super::year::Year;
use hours::{AHEAD, DISTANT, Fault, HourSource, RECENT, Series, Slot};

/// Stands over the source of the hours.
#[derive(Drop)]
pub struct History<S> {
    pub source: S,
}

/// The hours of a slot in a year, of which there have to be some.
fn hours_of<S: HourSource>(source: &S, slot: Slot, year: u8) -> Result<Hours, Fault>
    ensures { MatchResult result (λ h. some_hours (S.HourSource.hours source.now) slot year ≡ Ok h.number) (λ e. some_hours (S.HourSource.hours source.now) slot year ≡ Err e) }
{
    let number = source.count(slot, year)?;
    if number == 0 {
        return Err(no_hours(year));
    }
    Ok(Hours { number })
}

/// The total of a year's differences: the sink's prices are read, and the source's, which stand in
/// `prices`, give way to the losses.
fn year_between<S: HourSource>(
    source: &S,
    sink: Series,
    prices: &mut Year,
) -> Result<YearTotal, Fault>
    requires { There (S.HourSource.hours source.now sink.slot sink.year) prices.old }
    ensures answer { result ≡ gained (year_of S.HourSource.LOCATIONS (S.HourSource.prices source.now) sink.location sink.slot sink.year) prices.old }
    ensures after { prices.new ≡ lost (year_of S.HourSource.LOCATIONS (S.HourSource.prices source.now) sink.location sink.slot sink.year) prices.old }
{
    let mut sinks = Year::new();
    sinks.read(source, sink)?;
    Ok(prices.lose_to(&sinks))
}

/// The totals of both years. The losses are left in the years, in two parameters: each step reads or writes one of them, and a struct would be opened at each.
fn read_path<S: HourSource>(
    source: &S,
    key: Key,
    recent: &mut Year,
    distant: &mut Year,
) -> Result<(YearTotal, YearTotal), Fault>
    ensures answer { result ≡ summed_years (path_years (year_of S.HourSource.LOCATIONS (S.HourSource.prices source.now)) key.path key.slot) }
    ensures after { LeftIn (path_years (year_of S.HourSource.LOCATIONS (S.HourSource.prices source.now)) key.path key.slot) recent.new distant.new }
{
    let Key { path, slot } = key;
    let from = Series {
        location: path.source,
        slot,
        year: RECENT,
    };
    let to = Series {
        location: path.sink,
        ..from
    };
    let from_distant = Series {
        year: DISTANT,
        ..from
    };
    let to_distant = Series {
        year: DISTANT,
        ..to
    };
    recent.read(source, from)?;
    distant.read(source, from_distant)?;
    let first = year_between(source, to, recent)?;
    let second = year_between(source, to_distant, distant)?;
    Ok((first, second))
}

/// The mean, less what may be lost.
fn less(mean: i64, stress: i64) -> i64
    requires mean { Within 3600000000 mean }
    requires stress { Within 3600000000 stress }
    ensures { result ≡ mean -ℤ stress }
{
    mean - stress
}

/// The mean over the hours ahead, less the stress in each of them.
fn price_from(ahead: Hours, mean: Mean, recent: &Year, distant: &Year) -> i64
    ensures { result ≡ floored (mean.above *ℤ pos ahead.number) mean.below -ℤ stress_of (percentile_of (percent mean.above) (recent.now ++ distant.now)) *ℤ pos ahead.number }
{
    let hourly = stress(mean, recent, distant);
    less(mean.over(ahead), ahead.times(hourly))
}

/// The price of a path, from the prices at its two locations: each is read once.
fn path_price<S: HourSource>(source: &S, key: Key, ahead: Hours) -> Result<i64, Fault>
    ensures { result ≡ priced_years ahead.number (path_years (year_of S.HourSource.LOCATIONS (S.HourSource.prices source.now)) key.path key.slot) }
{
    let mut recent = Year::new();
    let mut distant = Year::new();
    let (first, second) = read_path(source, key, &mut recent, &mut distant)?;
    Ok(price_from(ahead, Mean::of(first, second), &recent, &distant))
}

impl<S: HourSource> Book for History<S> {
    ghost meaning = { λ b k. history_price (S.HourSource.hours b.source) S.HourSource.LOCATIONS (S.HourSource.prices b.source) k };

    ghost bounded = { λ b k.
        let m = S.HourSource in
        history_bounded (S.HourSource.hours b.source) S.HourSource.LOCATIONS (S.HourSource.prices b.source) (record { few = m.few_hours b.source; whole = m.whole_year b.source; empty = m.empty_year b.source; small = m.small_prices b.source }) k };

    fn price(&self, key: Key) -> Result<i64, Fault> {
        key.check()?;
        hours_of(&self.source, key.slot, RECENT)?;
        hours_of(&self.source, key.slot, DISTANT)?;
        let ahead = hours_of(&self.source, key.slot, AHEAD)?;
        path_price(&self.source, key, ahead)
    }
}
