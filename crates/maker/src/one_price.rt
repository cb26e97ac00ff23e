//! A price book: the same price for every lawful key.
ghost use Rattle.books.specs.BookFaults.{unlawful_key};
ghost use Rattle.books.specs.Keys.{lawful_key};
ghost use Rattle.hours.specs.Bounds.{Within, within};
ghost use Rattle.std.specs.Prelude.{◌≡◌, false, if◌then◌else◌, Ok, Err, MatchOption};
ghost use Rattle.std.proofs.Common.{rules};

use books::{Book, Key};
use hours::{Fault, is_within};

/// The price, in cents per megawatt for a whole period.
#[derive(Drop)]
pub struct OnePrice {
    price: i64,
    ghost small: { Within 8000000000 price },
}

impl OnePrice {
    /// A book of this price, or none where the price is out of bounds.
    pub fn new(price: i64) -> Option<OnePrice>
        ensures { MatchOption result (within 8000000000 price ≡ false) (λ book. book.price ≡ price) }
    {
        if is_within(8_000_000_000, price) {
            Some(OnePrice { price })
        } else {
            None
        }
    }
}

impl Book for OnePrice {
    ghost meaning = { λ book key. (if lawful_key key then Ok book.price else Err unlawful_key) };

    ghost bounded = { Prim.search rules };

    fn price(&self, key: Key) -> Result<i64, Fault> {
        key.check()?;
        Ok(self.price)
    }
}
