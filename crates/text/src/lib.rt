//! The words and the numbers of a text, and where they stand in it.
//! A text is bytes: nothing here asks that they are UTF-8.
#![tactic(auto)]

mod digits;
mod laws;
mod pieces;
mod words;

pub use digits::{Misread, i32_of, size_of};
pub use laws::{numbers_read_back, words_are_all, words_stand};
pub use pieces::is_blank;
pub use words::{BadWord, Unread, numbers};
