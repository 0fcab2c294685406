//! What a recording says of a feed, apart from any code. All of it is this project's own.
//!
//! The definitions stand in `specs/Loss`: the entries of a place in the batches of a recording, the
//! samples of a feed without those that rows of the ledger name, and when a recording holds the first
//! samples of a feed, or all, but for those that it says were lost. `specs/Partial` has what a recording
//! holds that was stopped anywhere. This crate does nothing.
#![tactic(auto)]
