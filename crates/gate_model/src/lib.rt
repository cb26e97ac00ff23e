//! The gate as a model: what it holds, what each call does and when it is refused, as definitions in `specs/`,
//! and the law that holds after any list of calls, proved of them.
//!
//! The types are those that the gate keeps its tables in.
#![tactic(auto)]

mod call;
mod conversion;
mod line;
mod outcome;
mod phase;
mod point;
mod refusal;
mod right;
mod theorem;

pub use call::{Call, Showing};
pub use conversion::{Part, Request};
pub use line::Line;
pub use outcome::{Numbers, Outcome, Totals};
pub use phase::{Phase, Window};
pub use point::Point;
pub use refusal::{Ground, Met, Refusal};
pub use right::Right;
pub use theorem::law_stands;
