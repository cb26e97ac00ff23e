//! A book that holds the prices of the book below between two limits.
ghost use Rattle.books.specs.Bands.{lawful_limits, held, banded};
ghost use Rattle.std.specs.Prelude.{◌≡◌, true, false, is_ok, MatchOption, MatchResult};
ghost use Rattle.std.proofs.Common.{rules};

use super::book::{Book, is_lawful_price};
use super::key::Key;
use hours::{Fault, Unlawful};

/// Two lawful prices, the low one not above the high one.
#[derive(Clone, Copy)]
struct Limits {
    low: i64,
    high: i64,
    ghost lawful: { lawful_limits low high ≡ true },
}

impl Limits {
    fn new(low: i64, high: i64) -> Option<Limits>
        ensures { MatchOption result (lawful_limits low high ≡ false) (λ l. (l.low ≡ low) × (l.high ≡ high)) }
    {
        if is_lawful_price(low) && is_lawful_price(high) && low <= high {
            Some(Limits { low, high })
        } else {
            None
        }
    }

    fn hold(self, price: i64) -> i64
        ensures { result ≡ held self.low self.high price }
    {
        price.clamp(self.low, self.high)
    }
}

/// A price below the low limit is raised to it, one above the high limit is lowered to that.
#[derive(Drop)]
pub struct Band<B> {
    below: B,
    limits: Limits,
}

/// Limits that make no band, and the book that it was to stand on. A type of its own, as `RefusedRows` is: each names what it gives
/// back.
#[derive(Drop)]
pub struct RefusedBand<B> {
    pub unlawful: Unlawful,
    pub below: B,
}

impl<B> Band<B> {
    /// Limits that are no lawful prices, or that lie the wrong way round, are refused with line 0.
    pub fn new(below: B, low: i64, high: i64) -> Result<Band<B>, RefusedBand<B>>
        ensures made { MatchResult result (λ b. (b.below ≡ below) × (b.limits.low ≡ low) × (b.limits.high ≡ high)) (λ e. (e.below ≡ below) × (e.unlawful.line ≡ 0)) }
        ensures refusal { is_ok result ≡ lawful_limits low high }
    {
        match Limits::new(low, high) {
            Some(limits) => Ok(Band { below, limits }),
            None => Err(RefusedBand {
                unlawful: Unlawful { line: 0 },
                below,
            }),
        }
    }
}

impl<B: Book> Book for Band<B> {
    ghost meaning = { λ b k. banded b.limits.low b.limits.high (B.Book.meaning b.below k) };

    ghost bounded = { Prim.search rules };

    fn price(&self, key: Key) -> Result<i64, Fault> {
        let price = self.below.price(key)?;
        Ok(self.limits.hold(price))
    }
}
