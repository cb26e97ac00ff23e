//! The mean of a path's differences over two years, as a fraction of whole numbers.
ghost use Rattle.std.specs.Prelude.{◌≡◌, ◌*◌, ◌<◌, ◌≤◌, pos, ◌+ℤ◌, ◌*ℤ◌};
ghost use Rattle.books.specs.Histories.{numerator, denominator, floored, percent};
ghost use Rattle.hours.specs.Bounds.{Within};

use super::count::Hours;
use super::total::YearTotal;

/// The recent year weighs three times as much as the distant one.
fn weigh(recent: i64, distant: i64) -> i64
    requires recent { Within 32400000000000 recent }
    requires distant { Within 32400000000000 distant }
    ensures value { result ≡ pos 3 *ℤ recent +ℤ distant }
    ensures small { Within 129600000000000 result }
{
    3 * recent + distant
}

/// A mean of differences, each of which is within 400,000.
#[derive(Clone, Copy)]
pub(crate) struct Mean {
    above: i64,
    below: u32,
    ghost some: { 0 < below },
    ghost few: { below ≤ 324000000 },
    ghost small: { Within (400000 * below) above },
}

impl Mean {
    pub(crate) fn of(recent: YearTotal, distant: YearTotal) -> Mean
        ensures above { result.above ≡ numerator recent distant }
        ensures below { result.below ≡ denominator recent distant }
    {
        let above = weigh(
            distant.hours.times(recent.sum),
            recent.hours.times(distant.sum),
        );
        let below = 4 * recent.hours.product(distant.hours);
        Mean { above, below }
    }

    /// The mean over the hours ahead, rounded down: `/` would round a negative one up.
    pub(crate) fn over(self, ahead: Hours) -> i64
        ensures value { result ≡ floored (self.above *ℤ pos ahead.number) self.below }
        ensures small { Within 3600000000 result }
    {
        ahead.times(self.above).div_euclid(i64::from(self.below))
    }

    /// How many in a hundred hours the stress covers: fewer where the mean is above zero. A mean of zero takes the greater part.
    pub(crate) fn percent(self) -> u8
        ensures { result ≡ percent self.above }
    {
        if self.above > 0 { 75 } else { 90 }
    }
}
