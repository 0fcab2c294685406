//! The samples of a feed (LSL `streamfeed`, data protocol 1.10).
//!
//! `read_feed_sample` tells what stands at the front of some bytes: a sample, too few bytes, or the
//! first fault with its place. Its answer is the one that `feed_model` defines: a sample is whole
//! exactly where the bytes spell it, a sample that is cut is short, and of several faults the
//! first from the left is told. No length makes it take memory before the text's bytes are there.
//!
//! `FeedReader` reads a whole feed from a source, in pieces of any size. It gives the samples behind the
//! reply and two test samples, and then the end of the feed, as `inlet_model` defines them: each
//! sample by itself (`next`), in one that is lent, whose memory is used again (`next_into`), or of a
//! feed of numbers as its text in a block, which takes no memory at all (`next_block`). Each byte
//! is looked at a fixed number of times, for pieces of one byte too, and what was gone past isn't
//! kept.
#![tactic(auto)]

mod block;
mod fault;
mod fields;
mod kept;
mod read;
mod reader;
mod scan;
mod stage;
mod step;
mod values;

pub use block::BlockStep;
pub use feed_reply::Order;
pub use inlet_model::FeedEnd;
pub use read::{SampleRead, read_feed_sample};
pub use reader::FeedReader;
pub use step::{FeedStep, FillStep};

#[cfg(test)]
mod reader_tests;
#[cfg(test)]
mod scan_tests;
#[cfg(test)]
mod tests;
