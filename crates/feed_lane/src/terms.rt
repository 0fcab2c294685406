//! What the values in the rings of lanes are known to be.

use sample_pool::Block;
use sample_values::{Sample, Shape};
use thread_ring::Terms;

/// Each block has this length, and holds the text of a sample of the shape.
#[derive(Clone, Copy, Debug)]
pub(crate) struct FullBlocks {
    pub(crate) shape: Shape,
    pub(crate) size: u64,
}

impl Terms<Block> for FullBlocks {
    ghost use Rattle.sample_ring.specs.Seen.{IsFull};

    ghost meets = { λ terms block. IsFull terms.shape terms.size block };
}

/// Each sample is one that the writer takes, as one of the shape.
#[derive(Clone, Copy, Debug)]
pub(crate) struct FittingSamples {
    pub(crate) shape: Shape,
}

impl Terms<Sample> for FittingSamples {
    ghost use Rattle.run_model.specs.Fitting.{IsFitting};

    ghost meets = { λ terms sample. IsFitting terms.shape sample };
}
