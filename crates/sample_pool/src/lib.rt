//! Blocks, each of which holds one sample's text as the file has it, and a stock of them.
//!
//! A recording of numbers passes each sample on in a block. A block's length is fixed as it is made,
//! and a stock makes all of its blocks at once; no other call of this crate takes memory. What is read
//! into a block is proved against the definition of a feed: the block holds the text of the sample
//! that stands at the front of the bytes, or the answer says why none does. A number's bytes are
//! copied once on the way.
#![tactic(auto)]

mod block;
mod feed;
mod reverse;
mod stock;

pub use block::{
    Block, block_bytes, block_length, clear_block, fill_block, fill_reversed, new_block,
};
pub use feed::{BlockRead, block_from_feed, text_room};
pub use stock::BlockStock;

#[cfg(test)]
mod tests;
