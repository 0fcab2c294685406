//! Chunks to bytes, and bytes to a sink.
//!
//! This crate appends the text of a chunk with the least widths, and writes bytes to a sink until all
//! are out or a write fails. It promises that the bytes are the least text of the definition, that
//! want of memory leaves the output as it was, and that a failed write tells how many bytes went out.
//!
//! A chunk is gone over twice: once for its size, which stands in front and needs no look at a
//! number, and once for its bytes. So each byte of a sample is copied once, into `out`, which grows
//! at most once a chunk; a sink takes the bytes from there.
#![tactic(auto)]

mod content;
mod encode;
mod size;
mod write_all;

pub use encode::encode_chunk;
pub use size::content_size;
pub use write_all::{WriteFault, write_all_of};

#[cfg(test)]
mod tests;
