//! The tables of a gate, and what is done to one row of them or reckoned over all.
#![tactic(auto)]

mod account;
mod months;
mod requirement;

pub use account::Account;
