//! Average hours: every hour of a location's year has the year's mean price.
ghost use Rattle.hours.specs.Means.{rows_refusal};
ghost use Rattle.std.specs.Prelude.{◌≡◌, false, is_some, Some, None, MatchResult};

use super::rows::{CountRow, MeanRow, check_rows};
use super::unlawful::Unlawful;

/// At most 12 rows of counts and 48 rows of means, all lawful, none listed twice.
#[derive(Drop)]
pub struct Average {
    pub(super) counts: Vec<CountRow<u32>>,
    pub(super) means: Vec<MeanRow>,
    ghost lawful: { is_some (rows_refusal counts.items means.items) ≡ false },
}

/// Rows that make no source, as they were given, and the line that is at fault. As of a posting and of a band, a type of its own: each names what it gives back.
#[derive(Drop)]
pub struct RefusedRows {
    pub unlawful: Unlawful,
    pub counts: Vec<CountRow<u32>>,
    pub means: Vec<MeanRow>,
}

impl Average {
    /// A source of these rows, or the rows back with the line at which they are refused: the rows of counts are numbered first, then those of means.
    pub fn new(counts: Vec<CountRow<u32>>, means: Vec<MeanRow>) -> Result<Average, RefusedRows>
        ensures made { MatchResult result (λ a. (a.counts ≡ counts) × (a.means ≡ means)) (λ e. (e.counts ≡ counts) × (e.means ≡ means)) }
        ensures refusal { MatchResult result (λ a. rows_refusal counts.items means.items ≡ None) (λ e. rows_refusal counts.items means.items ≡ Some e.unlawful.line) }
    {
        match check_rows(counts.as_slice(), means.as_slice()) {
            Ok(()) => Ok(Average { counts, means }),
            Err(unlawful) => Err(RefusedRows {
                unlawful,
                counts,
                means,
            }),
        }
    }
}
