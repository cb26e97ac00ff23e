//! Journals: one call on one line. `read` takes the bytes of a journal for entries, `report` puts what came of them into lines.
//!
//! `word` and `number` tell the words of a line, `line` tells what they say together, `entry` numbers the lines;
//! `outcome` has the line that is written for a call, `closing` the last line.
#![tactic(auto)]

mod closing;
mod entry;
mod line;
mod number;
mod outcome;
mod word;

pub use closing::report;
pub use entry::{Entry, read};
pub use line::{Limits, Plain, Said};
pub use outcome::{FaultNumbers, Ground, Outcome, Refusal};
