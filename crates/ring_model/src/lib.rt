//! What a bounded ring that drops its oldest is, apart from any code.
//!
//! The definitions stand in `specs/`: the state of a ring with all that was ever put, taken and
//! dropped, its three events, and a run of them (`Ring`). All of it is this project's own. Here is
//! also the plain data that the definitions and the code share. This crate does nothing.
#![tactic(auto)]

mod entry;

pub use entry::Entry;
