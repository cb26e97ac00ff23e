//! A point of a bid's or an offer's curve.

/// Up to these megawatts, in tenths, at this price in cents per megawatt for the whole period.
#[derive(Clone, Copy, PartialEq, Eq, Debug)]
pub struct Point {
    pub megawatts: u32,
    pub price: i64,
}
