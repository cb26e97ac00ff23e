//! An hour source and a price book of a maker's own, in full: what each means, and that it answers by it.
//! Beside them, what `==` says of slots and keys. The prover finds what each has to show by itself.
#![tactic(auto)]

mod alike;
mod flat;
mod one_price;

pub use alike::{are_same_keys, are_same_slots};
pub use flat::Flat;
pub use one_price::OnePrice;
