//! The faults that a book finds by itself. Those of the hours below it pass through whole.
ghost use Rattle.books.specs.BookFaults.{unlawful_key, not_posted, no_hours};
ghost use Rattle.std.specs.Prelude.{◌≡◌};

use hours::{Cause, Fault, Layer};

// As in `hours`, one for each: each is public, and promises one fault of the rules.
pub fn unlawful_key() -> Fault
    ensures { result ≡ unlawful_key }
{
    Fault {
        layer: Layer::Book,
        cause: Cause::Unlawful,
    }
}

pub fn not_posted() -> Fault
    ensures { result ≡ not_posted }
{
    Fault {
        layer: Layer::Book,
        cause: Cause::NotPosted,
    }
}

/// A past year, or what lies ahead, has no hours.
pub fn no_hours(year: u8) -> Fault
    ensures { result ≡ no_hours year }
{
    Fault {
        layer: Layer::Book,
        cause: Cause::NoHours { year },
    }
}
