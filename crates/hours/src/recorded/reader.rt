//! The reading of recorded hours, one entry after the other.
ghost use Rattle.std.specs.Prelude.{◌≡◌, ◌+◌, ◌-◌, ◌≤◌, ◌^◌, ◌<◌, true, length, drop, IfOk, IfSome};
ghost use Rattle.std.specs.Option.{option_map};
ghost use Rattle.std.specs.List.{list_all};
ghost use Rattle.hours.specs.Periods.{lawful_slot};
ghost use Rattle.hours.specs.RecordedEntries.{lawful_price, LawfulSeries};
ghost use Rattle.hours.specs.RecordedFormat.{Taken, count_at, entry_at, year_at, read_entries, read_years, ended};
ghost use Rattle.hours.specs.RecordedTables.{in_tables, empty_tables, refused_at, came_out, left_at};

use super::entry::{Head, entry_of, head_of};
use super::tables::Tables;
use crate::bounds::is_within;
use crate::rows::CountRow;
use crate::source::MOST_PRICE;
use crate::unlawful::Unlawful;
use std::ops::Range;

/// The refusal for which no entry is to blame.
pub const NO_ENTRY: Unlawful = Unlawful { line: 0 };

/// How far the numbers were read.
#[derive(Drop)]
pub struct Reader<'a> {
    /// what the entries before say, lent: the tables are too large to be handed on
    tables: &'a mut Tables,
    /// the numbers that are left
    rest: &'a [i32],
    /// the place of the next entry is at most how far the numbers were read
    ghost near: { tables.now.next + length rest.now ≤ 1000002 },
}

fn are_lawful_prices(prices: &[i32]) -> bool
    ensures { result ≡ list_all lawful_price prices.now }
{
    prices.iter().all(|x| is_within(MOST_PRICE, i64::from(*x)))
}

impl<'a> Reader<'a> {
    pub fn new(tables: &'a mut Tables, rest: &'a [i32]) -> Reader<'a>
        requires empty { tables.old ≡ empty_tables }
        requires few { length rest.now ≤ 1000000 }
        ensures same { result.tables.ghost_name ≡ tables.entry.ghost_name }
        ensures tables { result.tables.now ≡ empty_tables }
        ensures rest { result.rest.now ≡ rest.now }
    {
        Reader { tables, rest }
    }

    /// The entry of the first section at the front, unless it is cut short, unlawful or listed already.
    #[tactic(auto, using(crate::specs::RecordedLawful::entry_lawful))]
    fn entry(&self) -> Option<CountRow<u16>>
        ensures answer { result ≡ entry_at in_tables self.now.tables.now self.now.rest.now }
        ensures lawful { IfSome result (λ e. lawful_slot e.slot ≡ true) }
        ensures long { IfSome result (λ _. 6 ≤ length self.now.rest.now) }
    {
        let entry = entry_of(self.rest.first_chunk()?)?;
        match self.tables.counts_of(entry.slot) {
            Some(_) => None,
            None => Some(entry),
        }
    }

    /// The head of the entry of the second section at the front, unless the head or its prices are cut short or unlawful, or it is of another count than its slot has, or there already.
    #[tactic(auto, using(crate::specs::RecordedLawful::head_lawful))]
    fn year(&self) -> Option<Head>
        ensures answer { result ≡ option_map (λ (y : Taken). y.head) (year_at in_tables self.now.tables.now self.now.rest.now) }
        ensures lawful { IfSome result (λ h. LawfulSeries h.series) }
        ensures long { IfSome result (λ h. 6 + h.hours ≤ length self.now.rest.now) }
    {
        let (numbers, rest) = self.rest.split_first_chunk()?;
        let head = head_of(numbers)?;
        if !self.tables.fits(head) {
            return None;
        }
        let prices = rest.get(..usize::from(head.hours))?;
        are_lawful_prices(prices).then_some(head)
    }

    /// The count of a section.
    pub fn count(&mut self) -> Result<u32, Unlawful>
        ensures answer { result ≡ refused_at (count_at self.old.rest.now) }
        ensures small { IfOk result (λ n. n < 2 ^ 31) }
        ensures rest { self.new.rest.now ≡ drop 1 self.old.rest.now }
        ensures same { self.new.tables.ghost_name ≡ self.old.tables.ghost_name }
        ensures tables { self.new.tables.now ≡ self.old.tables.now }
    {
        let (count, rest) = self.rest.split_first().ok_or(NO_ENTRY)?;
        self.rest = rest;
        u32::try_from(*count).map_err(|_| NO_ENTRY)
    }

    /// The entries of the first section, at these lines.
    pub fn entries(&mut self, lines: Range<u32>) -> Result<(), Unlawful>
        requires { lines.start ≤ lines.end }
        ensures same { self.new.tables.ghost_name ≡ self.old.tables.ghost_name }
        ensures read { came_out result (left_at self.new.tables.now lines.end self.new.rest.now) ≡ read_entries in_tables (lines.end - lines.start) self.old.tables.now lines.start self.old.rest.now }
    {
        for line in lines {
            let Some(entry) = self.entry() else {
                return Err(Unlawful { line });
            };
            self.tables.list(entry);
            self.rest = &self.rest[6..];
        }
        Ok(())
    }

    /// The entries of the second section, at these lines. A loop of its own: for both sections one would need a trait whose ghost members say a second time what each reads; a closure cannot read the entry, since it would hold the tables that the loop changes.
    pub fn years(&mut self, lines: Range<u32>) -> Result<(), Unlawful>
        requires { lines.start ≤ lines.end }
        ensures same { self.new.tables.ghost_name ≡ self.old.tables.ghost_name }
        ensures read { came_out result (left_at self.new.tables.now lines.end self.new.rest.now) ≡ read_years in_tables (lines.end - lines.start) self.old.tables.now lines.start self.old.rest.now }
    {
        for line in lines {
            let Some(head) = self.year() else {
                return Err(Unlawful { line });
            };
            self.tables.put(head);
            self.rest = &self.rest[6 + usize::from(head.hours)..];
        }
        Ok(())
    }

    /// Whether nothing is left.
    pub fn finish(&self) -> Result<(), Unlawful>
        ensures { came_out result self.now.tables.now ≡ ended self.now.tables.now self.now.rest.now }
    {
        if self.rest.is_empty() {
            Ok(())
        } else {
            Err(NO_ENTRY)
        }
    }
}
