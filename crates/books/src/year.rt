//! The hours of one year, with a number for each: prices at a location, or what a path loses.
ghost use Rattle.std.specs.Prelude.{◌≡◌, ◌≤◌, [], length, OnOk};
ghost use Rattle.books.specs.Differences.{differences, summed, losses, there_now, Small};
ghost use Rattle.books.specs.PathYears.{There};
ghost use Rattle.books.specs.Results.{done};
ghost use Rattle.hours.specs.Questions.{year_of};

use super::count::Hours;
use super::difference::subtract;
use super::total::YearTotal;
use hours::{Fault, HourSource, MOST_HOURS, Series};
use std::marker::Model;

/// At most 9,000 hours, and no number more than 400,000 either way. An array and a count in place of
/// a `Vec`: a book answers without taking memory, and `fill` writes into a whole array.
#[derive(Drop)]
pub(crate) struct Year {
    numbers: [i32; MOST_HOURS],
    hours: u16,
}

impl Model for Year {
    ghost use Rattle.std.specs.Prelude.{List, ℤ, ◌≤◌, take};
    ghost use Rattle.books.specs.Differences.{Small};

    ghost Value = { List ℤ };

    ghost view = { λ y. take y.hours y.numbers };

    ghost invariant = { λ y. (y.hours ≤ 9000) × Small 400000 (take y.hours y.numbers) };
}

impl Year {
    /// A year with room for all hours, and none yet.
    pub(crate) fn new() -> Year
        ensures { result ≡ [] }
    {
        Year {
            numbers: [0; MOST_HOURS],
            hours: 0,
        }
    }

    pub(crate) fn as_slice(&self) -> &[i32]
        ensures numbers { result.now ≡ self.now }
        ensures few { length result.now ≤ 9000 }
        ensures small { Small 400000 result.now }
    {
        &self.numbers[..usize::from(self.hours)]
    }

    /// Reads the prices of a series, or leaves what was there.
    pub(crate) fn read<S: HourSource>(&mut self, source: &S, series: Series) -> Result<(), Fault>
        ensures answer { result ≡ done (year_of S.HourSource.LOCATIONS (S.HourSource.prices source.now) series.location series.slot series.year) }
        ensures after { self.new ≡ there_now (year_of S.HourSource.LOCATIONS (S.HourSource.prices source.now) series.location series.slot series.year) self.old }
        ensures known { OnOk result (There (S.HourSource.hours source.now series.slot series.year) self.new) }
    {
        self.hours = source.fill(series, &mut self.numbers)?;
        Ok(())
    }

    /// The prices give way to the losses against the sink's prices. The total of the differences comes back.
    pub(crate) fn lose_to(&mut self, sinks: &Year) -> YearTotal
        requires sinks { There (length self.old) sinks.now }
        requires sources { There (length self.old) self.old }
        ensures total { result ≡ summed (differences sinks.now self.old) }
        ensures after { self.new ≡ losses (differences sinks.now self.old) }
    {
        let number = self.hours;
        let sum = subtract(sinks.as_slice(), &mut self.numbers[..usize::from(number)]);
        YearTotal {
            sum,
            hours: Hours { number },
        }
    }
}
