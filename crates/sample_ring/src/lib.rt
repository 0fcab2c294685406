//! The two rings of a recording, both seen as a ring of samples.
//!
//! A ring stands between a feed and the writer of its recording. Here it goes with the memory of its
//! samples, which is used again: a [`BlockRing`] keeps samples of numbers as their texts, in blocks of
//! a stock that are all made as the ring is made, and a [`TextRing`] keeps samples of texts, with a
//! list of spare ones. Contracts see both as the ring of samples that `inlet_ring` defines, so
//! whatever speaks of that ring speaks of both. Both go through the states of `ring_model` and no
//! others. A sample is moved in once and out once, and none of its bytes are copied.
#![tactic(auto)]

mod blocks;
mod texts;

pub use blocks::BlockRing;
pub use inlet_ring::Entry;
pub use texts::TextRing;

#[cfg(test)]
mod tests;
