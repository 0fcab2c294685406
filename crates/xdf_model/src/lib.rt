//! What the texts of an XDF file mean, apart from any code: variable-length integers, samples and
//! the shape that a header document tells.
//!
//! The definitions stand in `specs/`. Of each text there are three: a relation that says what a
//! text of a value is, the least text, and a reader that tells from left to right what stands at
//! the front of some bytes. `xdf_model_laws` ties them. Here is also the plain data that the
//! definitions and the code share. This crate does nothing.
#![tactic(auto)]

mod types;

pub use types::{Format, NoShape, NumRead, Shape, Stamp, Why};
