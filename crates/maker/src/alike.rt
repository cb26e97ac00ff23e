//! Whether two slots or two keys are the same. The derived `==` is proved to be what the library means by that.
ghost use Rattle.books.specs.Keys.{same_key};
ghost use Rattle.hours.specs.Periods.{same_slot};
ghost use Rattle.std.specs.Prelude.{◌≡◌};

use books::Key;
use hours::Slot;

/// The same first month, months and class.
pub fn are_same_slots(slot: Slot, other: Slot) -> bool
    ensures { result ≡ same_slot slot other }
{
    slot == other
}

/// The same path in the same slot.
pub fn are_same_keys(key: Key, other: Key) -> bool
    ensures { result ≡ same_key key other }
{
    key == other
}
