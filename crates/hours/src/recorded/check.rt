//! The check of recorded hours: every number once, in its order.
ghost use Rattle.hours.specs.RecordedFormat.{records, checked};
ghost use Rattle.hours.specs.RecordedTables.{empty_tables, tables_read, tables_of, came_out};
ghost use Rattle.std.specs.Prelude.{◌≡◌};

use super::reader::{NO_ENTRY, Reader};
use super::tables::Tables;
use crate::unlawful::Unlawful;

/// More numbers are refused before any is looked at.
const MOST_NUMBERS: usize = 1_000_000;

/// Reads all numbers into empty tables, which are lent, or answers the line of the first fault.
fn read_numbers(numbers: &[i32], tables: &mut Tables) -> Result<(), Unlawful>
    requires { tables.old ≡ empty_tables }
    ensures { came_out result tables.new ≡ tables_read numbers.now }
{
    if MOST_NUMBERS < numbers.len() {
        return Err(NO_ENTRY);
    }
    let mut reader = Reader::new(tables, numbers);
    let listed = 1 + reader.count()?;
    reader.entries(1..listed)?;
    let end = listed + reader.count()?;
    reader.years(listed..end)?;
    reader.finish()
}

/// Refuses numbers that are not recorded hours. The line is the first entry at fault, both sections counted through from 1,
/// and 0 where no entry is to blame: too many numbers, a count that is missing or negative, or numbers left over.
pub fn check_recorded(numbers: &[i32]) -> Result<(), Unlawful>
    ensures { result ≡ checked (records numbers.now) }
{
    read_numbers(numbers, &mut Tables::empty())
}

/// Lists in empty tables what the numbers say, and leaves them empty where the numbers are refused.
pub fn list_in(tables: &mut Tables, numbers: &[i32])
    requires { tables.old ≡ empty_tables }
    ensures { tables.new ≡ tables_of numbers.now }
{
    if read_numbers(numbers, tables).is_err() {
        tables.clear();
    }
}
