//! The ring between a feed and the writer of its recording, where each is in a thread of its own.
//!
//! A ring that [`make_ring`] makes has two ends. The [`Tail`] numbers the values that it puts, from 0
//! on; where the ring is full it drops the oldest entry first and hands it out. The [`Head`] takes the
//! oldest. It promises that, however the two threads run, the ring goes through the states of
//! `ring_model` and no others; each end knows its own part of them. [`drain_last`] joins the ends, and
//! what they know together is the whole state. Each value meets the ring's [`Terms`]. All memory is
//! taken as the ring is made; a value is moved in once and out once, and nothing is copied.
#![tactic(auto)]

mod ends;
mod queue_steps;
mod rule;

pub use ends::{Head, Last, Pushed, Tail, drain_last, make_ring};
pub use ring_model::Entry;
pub use rule::{Any, Terms};

#[cfg(test)]
mod tests;
