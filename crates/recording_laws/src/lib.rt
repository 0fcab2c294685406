//! Laws of what a recording is, over the definitions of `recording_model` alone.
//!
//! A recording is determined by its streams and batches: batches are divided into groups in only
//! one way, and the layout of groups is a function. Each law is the contract of a function that
//! does nothing. The lemmas behind them stand in `proofs/`.
#![tactic(auto)]

mod laws;

pub use laws::{division_is_determined, recording_is_determined};
