//! The rows that average hours are made of, which of them are lawful, and what they say.
ghost use Rattle.std.specs.Prelude.{◌≡◌};
ghost use Rattle.hours.specs.Means.{row_of, rows_count, mean_of, lawful_count, lawful_mean, count_at_fault, mean_at_fault, rows_refusal};
ghost use Rattle.hours.specs.Refusals.{as_refusal};

use super::bounds::is_within;
use super::counts::Counts;
use super::listing::first_at_fault;
use super::period::{Slot, is_lawful_slot};
use super::series::Series;
use super::source::MOST_PRICE;
use super::unlawful::Unlawful;

/// How many hours a slot has.
#[derive(Clone, Copy, PartialEq, Eq, Debug)]
pub struct CountRow<N> {
    pub slot: Slot,
    pub counts: Counts<N>,
}

/// The mean price of a location over a past year of a slot.
#[derive(Clone, Copy, PartialEq, Eq, Debug)]
pub struct MeanRow {
    pub series: Series,
    pub mcc: i64,
}

// Here, in `mean_of` and in posted rows: one line each, and a trait for what a row is found by would be longer.
fn row_of(rows: &[CountRow<u32>], slot: Slot) -> Option<CountRow<u32>>
    ensures { result ≡ row_of rows.now slot }
{
    rows.iter().copied().find(|row| row.slot == slot)
}

// Beside `hours_by`, which does the same in 16 bits: one function for both would need the zero of its type.
pub(crate) fn count_in(rows: &[CountRow<u32>], slot: Slot, year: u8) -> u32
    ensures { result ≡ rows_count rows.now slot year }
{
    row_of(rows, slot)
        .and_then(|row| row.counts.of(year))
        .unwrap_or(0)
}

pub(crate) fn mean_of(rows: &[MeanRow], series: Series) -> Option<MeanRow>
    ensures { result ≡ mean_of rows.now series.location series.slot series.year }
{
    rows.iter().copied().find(|row| row.series == series)
}

fn is_lawful_count(row: CountRow<u32>) -> bool
    ensures { result ≡ lawful_count row }
{
    let counts = row.counts;
    is_lawful_slot(row.slot)
        && counts.recent <= 9000
        && counts.distant <= 9000
        && counts.ahead <= 9000
}

fn is_lawful_mean(counts: &[CountRow<u32>], row: MeanRow) -> bool
    ensures { result ≡ lawful_mean counts.now row }
{
    let series = row.series;
    series.is_lawful()
        && is_within(MOST_PRICE, row.mcc)
        && 0 < count_in(counts, series.slot, series.year)
}

fn is_count_at_fault(before: &[CountRow<u32>], row: CountRow<u32>) -> bool
    ensures { result ≡ count_at_fault before.now row }
{
    !is_lawful_count(row) || row_of(before, row.slot).is_some()
}

fn is_mean_at_fault(counts: &[CountRow<u32>], before: &[MeanRow], row: MeanRow) -> bool
    ensures { result ≡ mean_at_fault counts.now before.now row }
{
    !is_lawful_mean(counts, row) || mean_of(before, row.series).is_some()
}

/// Refuses rows that make no source: as a whole if they are too many, else at the first row at fault, the rows of counts numbered first.
pub(crate) fn check_rows(counts: &[CountRow<u32>], means: &[MeanRow]) -> Result<(), Unlawful>
    ensures { result ≡ as_refusal (rows_refusal counts.now means.now) }
{
    if counts.len() > 12 || means.len() > 48 {
        return Err(Unlawful { line: 0 });
    }
    if let Some(place) = first_at_fault(counts, is_count_at_fault) {
        return Err(Unlawful { line: place as u32 });
    }
    let at_fault = first_at_fault(means, |before, row| is_mean_at_fault(counts, before, row));
    match at_fault {
        Some(place) => Err(Unlawful {
            line: (counts.len() + place) as u32,
        }),
        None => Ok(()),
    }
}
