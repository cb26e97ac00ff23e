//! Periods of months, classes of hours, and the years that a source answers for.
ghost use Rattle.hours.specs.Periods.{lawful_period, lawful_class, lawful_slot, lawful_year, past_year};
ghost use Rattle.hours.specs.Questions.{countable};
ghost use Rattle.std.specs.Prelude.{◌≡◌, true, IfOk};

use super::fault::{Fault, unlawful_question};

/// A run of whole months of one year: the first month, 1 to 12, and how many there are.
#[derive(Clone, Copy, PartialEq, Eq, Debug)]
pub struct Period {
    pub first: u8,
    pub months: u8,
}

/// The hours of one class in a period. What a source counts, it counts by slot.
#[derive(Clone, Copy, PartialEq, Eq, Debug)]
pub struct Slot {
    pub period: Period,
    pub class: u8,
}

/// The classes. Numbers and no enum, as the years are: the rules have an answer for every number that is asked for.
pub const ON_PEAK: u8 = 0;

pub const OFF_PEAK: u8 = 1;

/// The years: two past ones, which have prices, and the hours ahead, which are only counted.
pub const RECENT: u8 = 0;

pub const DISTANT: u8 = 1;

pub const AHEAD: u8 = 2;

/// Periods have 1, 2, 3, 4, 6 or 12 months, all of them in one year.
pub fn is_lawful_period(period: Period) -> bool
    ensures { result ≡ lawful_period period }
{
    let n = period.months;
    matches!(n, 1 | 2 | 3 | 4 | 6 | 12)
        && 1 <= period.first
        && u32::from(period.first) + u32::from(n) <= 13
}

pub fn is_lawful_class(class: u8) -> bool
    ensures { result ≡ lawful_class class }
{
    class <= OFF_PEAK
}

pub fn is_lawful_slot(slot: Slot) -> bool
    ensures { result ≡ lawful_slot slot }
{
    is_lawful_period(slot.period) && is_lawful_class(slot.class)
}

/// A year that hours can be counted in.
pub fn is_lawful_year(year: u8) -> bool
    ensures { result ≡ lawful_year year }
{
    year <= AHEAD
}

/// A year that has prices.
pub fn is_past_year(year: u8) -> bool
    ensures { result ≡ past_year year }
{
    year <= DISTANT
}

impl Slot {
    /// Whether hours of this slot can be counted in a year.
    pub fn check(self, year: u8) -> Result<(), Fault>
        ensures answer { result ≡ countable self year }
        ensures lawful { IfOk result (λ _. (lawful_slot self ≡ true) × (lawful_year year ≡ true)) }
    {
        if !is_lawful_slot(self) || !is_lawful_year(year) {
            return Err(unlawful_question());
        }
        Ok(())
    }
}
