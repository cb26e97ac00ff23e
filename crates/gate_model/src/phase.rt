//! Where the gate stands in an auction.
use hours::Period;

/// A window: the number of its auction and its period.
#[derive(Clone, Copy, PartialEq, Eq, Debug)]
pub struct Window {
    pub auction: u32,
    pub period: Period,
}

/// Between auctions, or in one that is open for submissions or closed for awards.
#[derive(Clone, Copy, PartialEq, Eq, Debug)]
pub enum Phase {
    Idle,
    Open(Window),
    Closed(Window),
}
