//! What an inlet gets out of the bytes of a feed, apart from any code: the samples in order, and how
//! the feed ended (LSL `streamfeed`, data protocol 1.10; the ends are this project's own).
//!
//! The definitions stand in `specs/`. Here is also the plain data that the definitions and the code
//! share. This crate does nothing.
#![tactic(auto)]

mod end;

pub use end::FeedEnd;
