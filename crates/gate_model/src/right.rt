//! A right that a customer holds.
use books::Key;

/// The price is what the book in force answers for the key. The original price is what the right was bought at, and 0, which the
/// rules reckon with, where it
/// was converted or transferred.
#[derive(Clone, Copy, PartialEq, Eq, Debug)]
pub struct Right {
    pub number: u32,
    pub owner: u8,
    pub key: Key,
    pub megawatts: u32,
    pub price: i64,
    pub original: i64,
}
