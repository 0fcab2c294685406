//! The chunks of a file, from a source that gives its bytes in pieces of any size.
//!
//! The crate promises that its answers are the ones that `file_model` defines: each whole chunk with
//! its place, and then the end that the bytes and the end of the input determine, whatever the
//! pieces were. It holds the bytes of one chunk at a time, and a piece ahead; a chunk's length makes
//! it take no memory before the chunk's bytes are there. Behind the last chunk it can read the input
//! on to its end, for its size.
//!
//! `next` gives a chunk with its value; `pass` judges it the same, makes no value of it, and leaves
//! its bytes to be looked at where they lie. Both are one loop, so what is proved of one is of both.
#![tactic(auto)]

mod fault;
mod kept;
mod missing;
mod passed;
mod reader;
mod rest;
mod skip;

pub use fault::FileFault;
pub use file_model::{FileEnd, Next};
pub use passed::Passed;
pub use reader::FileReader;
pub use rest::Rest;

#[cfg(test)]
mod byte_tests;
#[cfg(test)]
mod tests;
