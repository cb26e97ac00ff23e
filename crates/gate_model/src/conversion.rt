//! The lines of a conversion.
use books::{Key, Path};

/// A line as it is asked for; its period is the window's.
#[derive(Clone, Copy, PartialEq, Eq, Debug)]
pub struct Request {
    pub path: Path,
    /// a number, as in `Slot`
    pub class: u8,
    pub megawatts: u32,
}

/// A line that stands, with the price that the book gave its key.
#[derive(Clone, Copy, PartialEq, Eq, Debug)]
pub struct Part {
    pub key: Key,
    pub megawatts: u32,
    pub price: i64,
}
