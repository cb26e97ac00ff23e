//! Figures that are only compared, by running the code: prices of a path over recorded hours.
ghost use Rattle.books.specs.Histories.{history_price};
ghost use Rattle.hours.specs.RecordedFormat.{recorded_hours, recorded_prices};
ghost use Rattle.std.specs.Prelude.{◌≡◌, IfOk};

use anyhow::bail;
use books::{Book, History, Key, Path};
use hours::{ON_PEAK, Period, Recorded, Slot};
use std::alloc::Global;

const JANUARY: Slot = Slot {
    period: Period {
        first: 1,
        months: 1,
    },
    class: ON_PEAK,
};

pub const THERE: Key = Key {
    path: Path { source: 0, sink: 1 },
    slot: JANUARY,
};

/// The same path the other way.
pub const BACK: Key = Key {
    path: Path { source: 1, sink: 0 },
    slot: JANUARY,
};

/// One hour a year, two hours ahead. Location 0 has a price of 0 in every hour, so that location 1 has the differences of the path from 0 to 1.
pub const ONE_HOUR: [i32; 36] = [
    1, 1, 1, 0, 1, 1, 2, // January, on-peak: one hour in each past year, two ahead
    4, // four years of prices
    0, 1, 1, 0, 0, 1, 0, // location 0, recent
    0, 1, 1, 0, 1, 1, 0, // location 0, distant
    1, 1, 1, 0, 0, 1, -3633, // location 1, recent
    1, 1, 1, 0, 1, 1, -3658, // location 1, distant
];

/// The published path: ten hours in each past year and 1,000 ahead. The means of the years are -36.33 and -36.58; of the twenty losses the
/// eighteenth, which is the 90th percentile, is 68.29.
pub const PUBLISHED: [i32; 72] = [
    1, 1, 1, 0, 10, 10, 1000, // January, on-peak
    4, // four years of prices
    0, 1, 1, 0, 0, 10, 0, 0, 0, 0, 0, 0, 0, 0, 0, 0, // location 0, recent
    0, 1, 1, 0, 1, 10, 0, 0, 0, 0, 0, 0, 0, 0, 0, 0, // location 0, distant
    1, 1, 1, 0, 0, 10, -6829, -6829, -2834, -2834, -2834, -2834, -2834, -2834, -2834, -2834, // recent
    1, 1, 1, 0, 1, 10, -6829, -3351, -3300, -3300, -3300, -3300, -3300, -3300, -3300, -3300, // distant
];

/// The price of a key by these recorded hours.
pub fn price(heap: Global, numbers: &[i32], key: Key) -> anyhow::Result<i64>
    ensures { IfOk result (λ z. history_price (recorded_hours numbers.now) 64 (recorded_prices numbers.now) key ≡ Ok z) }
{
    let book = History {
        source: Recorded::new(numbers.to_vec(heap)?),
    };
    let Ok(price) = book.price(key) else {
        bail!("a price is missing");
    };
    Ok(price)
}
