//! Price books: for each key, a path in the hours of a slot, a price or the reason why there is none.
//!
//! `book` has the interface; `posted`, `band` and `history` are the books that ship.
#![tactic(auto)]

mod band;
mod book;
mod count;
mod difference;
mod fault;
mod history;
mod key;
mod mean;
mod percentile;
mod posted;
mod row;
mod stress;
mod total;
mod year;

pub use band::{Band, RefusedBand};
pub use book::Book;
pub use fault::{no_hours, not_posted, unlawful_key};
pub use history::History;
pub use key::{Key, Path, is_lawful_key, is_lawful_path};
pub use percentile::percentile_of;
pub use posted::{Posted, RefusedPosting};
pub use row::Row;
