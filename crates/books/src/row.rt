//! The rows that a posted book is made of, which of them are lawful, and what they say.
ghost use Rattle.std.specs.Prelude.{◌≡◌};
ghost use Rattle.books.specs.Postings.{listed, lawful_row, row_at_fault, posting_refusal};
ghost use Rattle.hours.specs.Refusals.{as_refusal};

use super::book::is_lawful_price;
use super::key::{Key, is_lawful_key};
use hours::{Unlawful, first_at_fault};

/// The price of a key, in cents per megawatt for the whole period.
#[derive(Clone, Copy, PartialEq, Eq, Debug)]
pub struct Row {
    pub key: Key,
    pub price: i64,
}

// As in average hours, one line: a trait for what a row is found by would be longer.
pub(crate) fn row_of(rows: &[Row], key: Key) -> Option<Row>
    ensures { result ≡ listed rows.now key }
{
    rows.iter().find(|row| row.key == key).copied()
}

fn is_lawful_row(row: Row) -> bool
    ensures { result ≡ lawful_row row }
{
    is_lawful_key(row.key) && is_lawful_price(row.price)
}

fn is_at_fault(before: &[Row], row: Row) -> bool
    ensures { result ≡ row_at_fault before.now row }
{
    !is_lawful_row(row) || row_of(before, row.key).is_some()
}

/// Refused with line 0 for too many rows, else with the place of the first row at fault.
pub(crate) fn check_rows(rows: &[Row]) -> Result<(), Unlawful>
    ensures { result ≡ as_refusal (posting_refusal rows.now) }
{
    if rows.len() > 128 {
        return Err(Unlawful { line: 0 });
    }
    match first_at_fault(rows, is_at_fault) {
        Some(place) => Err(Unlawful { line: place as u32 }),
        None => Ok(()),
    }
}
