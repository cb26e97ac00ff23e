//! Hour sources on examples. The library's promises are proved; these say in numbers what they come to.
#![tactic(auto)]

#[cfg(test)]
mod questions;
#[cfg(test)]
mod recorded;
