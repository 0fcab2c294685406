//! Bytes of a file to chunks: what stands at a place of an XDF file, for one who reads from left to
//! right and knows the streams declared so far.
//!
//! The crate promises that its answer is the one that `chunk_grammar` defines: a chunk of any of the
//! seven kinds is whole exactly where a text of it stands, with any width of each number; a chunk
//! that is cut is torn; and of several faults the first from the left is told, with its place.
//!
//! `view_chunk` judges a chunk where it lies and takes no memory: samples are walked over, and no
//! value is made. `read_chunk` gives the value too, by one copy of a document, a body or a chunk's
//! samples, which stay as their bytes. The document of a stream header is gone over for its shape.
//!
//! A length, a count or a width that the bytes don't bear out costs no memory, and no time beyond the
//! bytes that are there: a chunk is looked into once all of its bytes are.
#![tactic(auto)]

mod content;
mod fault;
mod fields;
mod place;
mod samples;
mod view;

pub use place::{Step, Viewed, read_chunk, view_chunk};
pub use samples::SamplesAt;
pub use view::ChunkView;
pub use xdf_model::Why;

#[cfg(test)]
mod tests;
