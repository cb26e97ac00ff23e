//! A book of posted rows.
ghost use Rattle.books.specs.Postings.{posted, posting_refusal};
ghost use Rattle.std.specs.Prelude.{◌≡◌, false, is_some, Some, None, MatchResult};
ghost use Rattle.books.specs.Listings.{posted_bounded};

use super::book::Book;
use super::fault::not_posted;
use super::key::Key;
use super::row::{Row, check_rows, row_of};
use hours::{Fault, Unlawful};

/// At most 128 lawful rows, no key twice.
#[derive(Drop)]
pub struct Posted {
    rows: Vec<Row>,
    ghost lawful: { is_some (posting_refusal rows.items) ≡ false },
}

/// Rows that make no book, as they were given, and the line that is at fault. A type of its own, as `RefusedRows` is: each names what
/// it gives back.
#[derive(Drop)]
pub struct RefusedPosting {
    pub unlawful: Unlawful,
    pub rows: Vec<Row>,
}

impl Posted {
    /// Refused with line 0 for more than 128 rows, else with the place of the first row that is
    /// unlawful or whose key an earlier row lists.
    pub fn new(rows: Vec<Row>) -> Result<Posted, RefusedPosting>
        ensures made { MatchResult result (λ b. b.rows ≡ rows) (λ e. e.rows ≡ rows) }
        ensures refusal { MatchResult result (λ b. posting_refusal rows.items ≡ None) (λ e. posting_refusal rows.items ≡ Some e.unlawful.line) }
    {
        match check_rows(rows.as_slice()) {
            Ok(()) => Ok(Posted { rows }),
            Err(unlawful) => Err(RefusedPosting { unlawful, rows }),
        }
    }
}

impl Book for Posted {
    ghost meaning = { λ b k. posted b.rows.items k };

    ghost bounded = { λ b k. posted_bounded b.rows.items k b.lawful };

    fn price(&self, key: Key) -> Result<i64, Fault> {
        key.check()?;
        let row = row_of(self.rows.as_slice(), key).ok_or(not_posted())?;
        Ok(row.price)
    }
}
