//! The entries of recorded hours, each taken from its own numbers.
ghost use Rattle.hours.specs.RecordedEntries.{up_to, slot_from, entry_from, head_from, hours_by};
ghost use Rattle.std.specs.Prelude.{◌≡◌, ◌≤◌, IfSome};

use crate::counts::Counts;
use crate::period::{Period, Slot, is_lawful_slot};
use crate::rows::CountRow;
use crate::series::Series;
use crate::source::MOST_HOURS;

/// An entry of the second section up to its prices, and how many of them follow.
#[derive(Clone, Copy)]
pub struct Head {
    pub series: Series,
    pub hours: u16,
}

/// The number, if it is from 0 to a bound.
fn up_to(most: u16, x: i32) -> Option<u16>
    ensures value { result ≡ up_to most x }
    ensures within { IfSome result (λ n. n ≤ most) }
{
    let n = u16::try_from(x).ok()?;
    if n <= most { Some(n) } else { None }
}

fn slot_of(first: i32, months: i32, class: i32) -> Option<Slot>
    ensures { result ≡ slot_from first months class }
{
    let first = up_to(12, first)? as u8;
    let months = up_to(12, months)? as u8;
    let class = up_to(1, class)? as u8;
    let period = Period { first, months };
    let slot = Slot { period, class };
    if is_lawful_slot(slot) {
        Some(slot)
    } else {
        None
    }
}

/// An entry of the first section: the counts of a slot.
pub fn entry_of(numbers: &[i32; 6]) -> Option<CountRow<u16>>
    ensures { result ≡ entry_from numbers.now }
{
    let [first, months, class, recent, distant, ahead] = *numbers;
    let slot = slot_of(first, months, class)?;
    let counts = Counts {
        recent: up_to(MOST_HOURS as u16, recent)?,
        distant: up_to(MOST_HOURS as u16, distant)?,
        ahead: up_to(MOST_HOURS as u16, ahead)?,
    };
    Some(CountRow { slot, counts })
}

pub fn head_of(numbers: &[i32; 6]) -> Option<Head>
    ensures { result ≡ head_from numbers.now }
{
    let [location, first, months, class, year, hours] = *numbers;
    let series = Series {
        location: up_to(u16::from(RECORDED_LOCATIONS) - 1, location)? as u8,
        slot: slot_of(first, months, class)?,
        year: up_to(1, year)? as u8,
    };
    let hours = up_to(MOST_HOURS as u16, hours)?;
    Some(Head { series, hours })
}

/// The hours of a year by the counts of its slot. A slot that is not listed has none.
pub fn hours_by(counts: Option<Counts<u16>>, year: u8) -> u16
    ensures { result ≡ hours_by counts year }
{
    counts.and_then(|counts| counts.of(year)).unwrap_or(0)
}

/// The locations that there can be prices of.
pub const RECORDED_LOCATIONS: u8 = 64;
