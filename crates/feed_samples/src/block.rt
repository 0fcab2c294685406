//! Answers where samples go into blocks.

use crate::stage::Quiet;
use inlet_model::FeedEnd;

/// What a reader of a feed of numbers answers where its samples go into blocks.
#[derive(Clone, Copy, Debug)]
pub enum BlockStep {
    /// The next sample's text is in the block.
    Filled,
    /// The feed ended so. From then on the same is answered.
    End(FeedEnd),
}

/// What the bytes that were taken say where a sample goes into a block.
#[derive(Clone, Copy, Debug)]
pub(crate) enum InnerBlock {
    /// The sample is given.
    Filled,
    /// No sample is given.
    Quiet(Quiet),
}
