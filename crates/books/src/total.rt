//! A path's differences over the hours of a year, by their sum and their number.
ghost use Rattle.std.specs.Prelude.{◌≡◌};

use super::count::Hours;
use std::marker::Model;

/// At least one hour, at most 9,000, and each difference within 400,000 on average.
#[derive(Drop)]
pub(crate) struct YearTotal {
    pub(crate) sum: i64,
    pub(crate) hours: Hours,
}

impl Model for YearTotal {
    ghost use Rattle.std.specs.Prelude.{ℕ, ℤ};
    ghost use Rattle.books.specs.Differences.{YearSum};

    ghost Value = { ℤ × ℕ };

    ghost view = { λ y. (y.sum, y.hours.number) };

    ghost invariant = { λ y. YearSum (y.sum, y.hours.number) };
}
