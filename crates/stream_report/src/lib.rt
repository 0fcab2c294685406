//! Says what a file holds: chunks to lines, for people to read and for programs to compare.
//!
//! The lines are this project's own; `report_model` defines them. This crate promises that exactly
//! those lines are said, each once and in order, for a chunk of any kind and samples of any format;
//! that where a line can't be said, or where there is no memory, no line behind it is said; and that
//! each of the two is told apart.
//!
//! Nothing is gathered: a line is made when its turn comes, and the lines of a chunk's samples are
//! made in one buffer, so that the memory taken is that of two lines, however many samples there are.
//! A sample's bytes are read once, where they lie in the chunk, and none is copied; what is written
//! into the buffer is their words, which `say` then reads. Words are written into places that are
//! there before, and a line is in ASCII, so that it is a text without a look at its bytes.
#![tactic(auto)]

mod chunk;
mod fault;
mod file;
mod line;
mod places;
mod reason;
mod sample_line;
mod say;
mod words;

pub use fault::SayFault;
pub use file::{ShowEnd, show_file};
pub use reason::why_number;
pub use say::say_chunk;

#[cfg(test)]
mod tests;
