//! From the bytes of a file to all that the program writes.
ghost use Rattle.std.specs.Prelude.{◌≡◌, IfOk, string_bytes};
ghost use Rattle.hours.specs.RecordedFormat.{records};
ghost use Rattle.tcr_hours.specs.Report.{verdict_of, report_of};

use crate::lines::{Refused, Unreadable};
use crate::listing::listing;
use hours::{Recorded, check_recorded};
use std::alloc::{AllocError, Global};
use text::Unread;

fn verdict(heap: Global, numbers: Vec<i32>) -> Result<String, AllocError>
    ensures { IfOk result (λ s. string_bytes s ≡ verdict_of (records numbers.items)) }
{
    match check_recorded(numbers.as_slice()) {
        Ok(()) => listing(heap, &Recorded::new(numbers)),
        Err(unlawful) => {
            let shown = Refused(unlawful);
            format!(in heap; "{shown}\n")
        }
    }
}

/// All that is written for a file: what cannot be read, why its numbers are refused, or what they hold.
pub fn report_of(heap: Global, bytes: &[u8]) -> Result<String, AllocError>
    ensures { IfOk result (λ s. string_bytes s ≡ report_of bytes.now) }
{
    match text::numbers(heap, bytes) {
        Ok(numbers) => verdict(heap, numbers),
        Err(Unread::Word(bad)) => {
            let shown = Unreadable(bad);
            format!(in heap; "{shown}\n")
        }
        Err(Unread::Memory(error)) => Err(error),
    }
}
