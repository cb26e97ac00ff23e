//! The stress of a path: what it may lose in an hour.
ghost use Rattle.std.specs.Prelude.{◌≡◌, ◌++◌};
ghost use Rattle.books.specs.Histories.{percent, stress_of};
ghost use Rattle.books.specs.Percentiles.{percentile_of};
ghost use Rattle.hours.specs.Bounds.{Within};

use super::mean::Mean;
use super::percentile::percentile_of;
use super::year::Year;

/// The percentile of the losses of both years. A gain is no stress.
pub(crate) fn stress(mean: Mean, recent: &Year, distant: &Year) -> i64
    ensures value { result ≡ stress_of (percentile_of (percent mean.above) (recent.now ++ distant.now)) }
    ensures small { Within 400000 result }
{
    match percentile_of(recent.as_slice(), distant.as_slice(), mean.percent()) {
        Some(v) => i64::from(v).max(0),
        None => 0,
    }
}
