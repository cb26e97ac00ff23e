//! A line of a submission, as it is asked for.
use crate::point::Point;
use books::Path;

/// A bid on a path and a class, for the window's period, or an offer of a right, each with the points of its curve, which may
/// be no curve at all.
#[derive(Drop)]
pub enum Line {
    Bid {
        path: Path,
        /// a number, as in `Slot`
        class: u8,
        points: Vec<Point>,
    },
    Offer {
        right: u32,
        points: Vec<Point>,
    },
}
