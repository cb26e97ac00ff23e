//! Paths between two locations, and the keys that books are asked for.
ghost use Rattle.books.specs.Keys.{lawful_path, lawful_key};
ghost use Rattle.books.specs.BookFaults.{askable};
ghost use Rattle.std.specs.Prelude.{◌≡◌};

use super::fault::unlawful_key;
use hours::{Fault, Slot, is_lawful_slot};

/// Where congestion is paid for: from the source location to the sink location.
#[derive(Clone, Copy, PartialEq, Eq, Debug)]
pub struct Path {
    pub source: u8,
    pub sink: u8,
}

/// A path in the hours of one class of a period: what has a price.
#[derive(Clone, Copy, PartialEq, Eq, Debug)]
pub struct Key {
    pub path: Path,
    pub slot: Slot,
}

/// A path joins two different locations of the 64 that there can be.
pub fn is_lawful_path(path: Path) -> bool
    ensures { result ≡ lawful_path path }
{
    path.source <= 63 && path.sink <= 63 && path.source != path.sink
}

pub fn is_lawful_key(key: Key) -> bool
    ensures { result ≡ lawful_key key }
{
    is_lawful_path(key.path) && is_lawful_slot(key.slot)
}

impl Key {
    /// What every book answers first: whether there is such a key.
    pub fn check(self) -> Result<(), Fault>
        ensures { result ≡ askable self }
    {
        if !is_lawful_key(self) {
            return Err(unlawful_key());
        }
        Ok(())
    }
}
