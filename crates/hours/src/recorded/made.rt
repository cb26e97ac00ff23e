//! Recorded hours that answer questions: the numbers, with the tables of what stands where.
ghost use Rattle.hours.specs.RecordedFormat.{records_of, counts_in, prices_in};
ghost use Rattle.hours.specs.RecordedTables.{tables_of};
ghost use Rattle.std.specs.Prelude.{◌≡◌, List, ℤ, is_some};

use super::check::list_in;
use super::tables::Tables;
use crate::counts::Counts;
use crate::period::{Slot, is_lawful_slot};
use crate::series::Series;
use std::marker::Model;

/// The numbers as they were given, and the tables of what they list, which are empty where the numbers are refused.
#[derive(Drop)]
pub struct Recorded {
    pub(super) numbers: Vec<i32>,
    pub(super) tables: Tables,
}

impl Model for Recorded {
    ghost Value = { List ℤ };

    ghost view = { λ r. r.numbers.items };

    ghost invariant = { λ r. r.tables ≡ tables_of r.numbers.items };
}

impl Recorded {
    /// Recorded hours of these numbers. Numbers that the check refuses list nothing: every count is 0, and no location has a year.
    pub fn new(numbers: Vec<i32>) -> Recorded
        ensures { result ≡ numbers.items }
    {
        let mut tables = Tables::empty();
        list_in(&mut tables, numbers.as_slice());
        Recorded { numbers, tables }
    }

    /// The counts of a slot, if it is listed.
    #[tactic(auto, using(crate::specs::RecordedAnswers::counts_found, crate::specs::RecordedAnswers::counts_unlawful))]
    pub fn counts(&self, slot: Slot) -> Option<Counts<u16>>
        ensures { result ≡ counts_in (records_of self.now) slot }
    {
        if !is_lawful_slot(slot) {
            return None;
        }
        self.tables.counts_of(slot)
    }

    /// Whether the numbers have prices of a series.
    pub fn has_year(&self, series: Series) -> bool
        ensures { result ≡ is_some (prices_in (records_of self.now) series.location series.slot series.year) }
    {
        series.is_lawful() && self.tables.start_of(series).is_some()
    }
}
