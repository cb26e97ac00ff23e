//! What is known of the entries before the one at hand, found by its number.
ghost use Rattle.std.specs.Prelude.{◌≡◌, ◌+◌, ◌^◌, ◌<◌, true, []};
ghost use Rattle.hours.specs.Periods.{lawful_slot};
ghost use Rattle.hours.specs.RecordedEntries.{LawfulSeries, fitting};
ghost use Rattle.hours.specs.RecordedTables.{slot_number, series_number, tabled_counts, start_of, start_found, has_start, with_entry, with_series, empty_tables};

use super::entry::{Head, hours_by};
use crate::counts::Counts;
use crate::period::Slot;
use crate::rows::CountRow;
use crate::series::Series;

/// One more than the greatest number of a slot and of a series. The numbering leaves gaps: it asks for no list of the periods.
const SLOTS: usize = 338;

const SERIES: usize = 43_264;

/// Fixed memory in place of maps: what checks or answers takes none from the heap.
#[derive(Drop)]
pub struct Tables {
    /// the counts of each slot that is listed
    counts: [Option<Counts<u16>>; SLOTS],
    /// where the prices of each series start among all numbers, and 0 where it is not there: an `Option` would double the table
    starts: [u32; SERIES],
    /// where the entry at hand starts, once the second section has begun: a place to be kept, and no index of a loop
    pub(super) next: u32,
}

fn slot_number(slot: Slot) -> usize
    ensures { result ≡ slot_number slot }
{
    usize::from(slot.period.months) * 26
        + usize::from(slot.period.first) * 2
        + usize::from(slot.class)
}

fn series_number(series: Series) -> usize
    ensures { result ≡ series_number series }
{
    slot_number(series.slot) * 128 + usize::from(series.location) * 2 + usize::from(series.year)
}

impl Tables {
    pub fn empty() -> Tables
        ensures { result ≡ empty_tables }
    {
        Tables {
            counts: [None; SLOTS],
            starts: [0; SERIES],
            next: 2,
        }
    }

    /// Empties the tables where they stand.
    pub fn clear(&mut self)
        ensures { self.new ≡ empty_tables }
    {
        self.counts.fill(None);
        self.starts.fill(0);
        self.next = 2;
    }

    pub fn counts_of(&self, slot: Slot) -> Option<Counts<u16>>
        ensures { result ≡ tabled_counts self.now slot }
    {
        *self.counts.get(slot_number(slot))?
    }

    pub fn start_of(&self, series: Series) -> Option<u32>
        ensures { result ≡ start_found (start_of self.now series) }
    {
        match *self.starts.get(series_number(series))? {
            0 => None,
            start => Some(start),
        }
    }

    /// Whether the entry of a head may stand: its count is that of the slot, and the series is not there already.
    pub fn fits(&self, head: Head) -> bool
        ensures { result ≡ fitting (tabled_counts self.now head.series.slot) (has_start self.now head.series) head }
    {
        let counted = hours_by(self.counts_of(head.series.slot), head.series.year);
        1 <= head.hours && head.hours == counted && self.start_of(head.series).is_none()
    }

    /// Lists the counts of a slot.
    pub fn list(&mut self, entry: CountRow<u16>)
        requires lawful { lawful_slot entry.slot ≡ true }
        requires next { self.old.next < 2 ^ 31 }
        ensures { self.new ≡ with_entry self.old entry }
    {
        self.counts[slot_number(entry.slot)] = Some(entry.counts);
        self.next += 6;
    }

    /// Puts down where the prices of a series start.
    pub fn put(&mut self, head: Head)
        requires lawful { LawfulSeries head.series }
        requires next { self.old.next < 2 ^ 31 }
        ensures { self.new ≡ with_series self.old head [] }
    {
        self.next += 6;
        self.starts[series_number(head.series)] = self.next;
        self.next += u32::from(head.hours);
    }
}
