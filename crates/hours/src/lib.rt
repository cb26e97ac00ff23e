//! Hour sources: for each period and class, how many hours two past years and the period ahead have,
//! and for each location the congestion price of every hour of a past year.
//!
//! `source` has the interface; `average`, `recorded` and `proxy` are the sources that ship.
#![tactic(auto)]

mod average;
mod average_hours;
mod bounds;
mod counts;
mod fault;
mod listing;
mod period;
mod proxy;
mod recorded;
mod rows;
mod series;
mod source;
mod unlawful;

pub use average::{Average, RefusedRows};
pub use bounds::is_within;
pub use counts::Counts;
pub use fault::{
    Cause, Fault, Layer, lacking_year, past_count, unknown_location, unlawful_question,
};
pub use listing::first_at_fault;
pub use period::{
    AHEAD, DISTANT, OFF_PEAK, ON_PEAK, Period, RECENT, Slot, is_lawful_class, is_lawful_period,
    is_lawful_slot, is_lawful_year, is_past_year,
};
pub use proxy::{Proxy, stand_in_for_five_and_minus_six};
pub use recorded::{Recorded, check_recorded};
pub use rows::{CountRow, MeanRow};
pub use series::Series;
pub use source::{HourSource, MOST_HOURS, MOST_PRICE};
pub use unlawful::Unlawful;
