//! Recorded hours: a list of numbers in two sections, the counts of each slot and the prices of each location and past year.
//!
//! `check` refuses unlawful numbers and names the entry at fault; `made` holds numbers with the tables that answer questions about them.
mod check;
mod entry;
mod made;
mod reader;
mod source;
mod span;
mod tables;

pub use check::check_recorded;
pub use made::Recorded;
