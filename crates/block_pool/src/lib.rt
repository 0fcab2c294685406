//! Blocks that circulate between the thread of a feed, which takes them, and the thread that writes, which
//! gives them back.
//!
//! A pool that [`make_pool`] makes has two ends, and all its blocks are home. The [`Taker`] takes a block
//! out, and the [`Giver`] brings one home; in between it is whoever's has it. It promises that, however the
//! two threads run, no block that is home is lost and none comes from nowhere: what is home are the blocks
//! that were given, less those that were taken. [`close_pool`] joins the ends and counts what is home. All
//! memory is taken as the pool is made; a block is moved, and its bytes are never copied.
#![tactic(auto)]

mod ends;
mod pool_steps;
mod rule;

pub use ends::{Giver, Taker, close_pool, make_pool};
pub use sample_pool::Block;

#[cfg(test)]
mod tests;
