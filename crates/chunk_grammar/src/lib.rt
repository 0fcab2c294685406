//! Chunks, the streams that are known at one, and what a file of chunks is.
//!
//! The definitions stand in `specs/`: the chunks of a context and their texts (`Chunk`), and what
//! stands at a place of a file (`Standing`); `chunk_laws` ties the two. In contracts a `Chunk` is
//! the enum itself, with lists of bytes and of samples in it, and a `Context` is the list of the
//! streams whose headers came before.
//!
//! The code holds chunks, lists of samples and contexts. It promises that a stream joins a context
//! only where its header may stand there, that else the answer is the first reason why not, and that
//! want of memory leaves a context or a list as it was. It tells whether a chunk has a text behind the
//! streams of a context, exactly and without memory. A sample is moved into a list and lent out of it,
//! and none of its bytes is copied. Samples that were read stand in a list as their bytes in a file:
//! these are moved too, and a walk lends each sample where it lies.
#![tactic(auto)]

mod chunk;
mod context;
mod fits;
mod list;

pub use chunk::{Chunk, tag_of_chunk};
pub use context::{Context, CtxFault};
pub use fits::chunk_fits;
pub use list::{SampleList, SampleWalk};

#[cfg(test)]
mod tests;
