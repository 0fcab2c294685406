//! Conformance vectors: bytes of XDF 1.0 with what a reader is to answer and a writer is to make of
//! them, worked out by hand.
//!
//! The vectors are the tables of this crate's tests, over the decoder, the encoder and the pattern of
//! documents together. Beside them stand the feeds of the drill, whose every byte is known; `drill_feeds`
//! makes them.
#![tactic(auto)]

pub use drill_feeds::{drill_doc, drill_feed};

#[cfg(test)]
mod documents;
#[cfg(test)]
mod tests;
