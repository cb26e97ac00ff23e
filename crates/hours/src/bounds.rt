//! The bounds on what a source or a book may say.
ghost use Rattle.hours.specs.Bounds.{within};
ghost use Rattle.std.specs.Prelude.{◌≡◌};

/// Whether an amount lies within a bound, either way.
pub fn is_within(most: u64, amount: i64) -> bool
    ensures { result ≡ within most amount }
{
    amount.unsigned_abs() <= most
}
