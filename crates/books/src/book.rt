//! The interface of a price book: what it means, what holds of every book, and the question.
ghost use Rattle.books.specs.declared.key.Key.{Key};
ghost use Rattle.hours.specs.Bounds.{Within, within};
ghost use Rattle.hours.specs.declared.fault.Fault.{Fault};
ghost use Rattle.std.specs.Prelude.{◌≡◌, ℤ, IfOk, Result};

use super::key::Key;
use hours::{Fault, is_within};

pub trait Book {
    /// The meaning: the price of a key in cents per megawatt for the whole period, or why there is none.
    ghost meaning: { Self → Key → Result ℤ Fault };

    fn price(&self, key: Key) -> Result<i64, Fault>
        ensures { result ≡ meaning self.now key };

    /// A price is within 8,000,000,000 cents either way.
    ghost bounded: { (book : Self) (key : Key) → IfOk (meaning book key) (λ z. Within 8000000000 z) };
}

/// The most that a price can be in cents, either way.
const MOST_PRICE: u64 = 8_000_000_000;

pub(crate) fn is_lawful_price(price: i64) -> bool
    ensures { result ≡ within 8000000000 price }
{
    is_within(MOST_PRICE, price)
}
