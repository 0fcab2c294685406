//! Laws of the batches by turns, over the definitions of `turns_model` alone.
//!
//! What is kept of a slab are its last entries; and once no list has a position left, further turns
//! have no batch. Each law is the contract of a function that does nothing. The lemmas behind them
//! stand in `proofs/`, where the crates above cite them, with what a ring of a capacity holds.
#![tactic(auto)]

mod laws;

pub use laws::{enough_turns, kept_are_the_last};
