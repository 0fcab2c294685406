ghost use Rattle.std.specs.Prelude.{◌≡◌, ◌≤◌, ◌<◌, ◌+◌, ◌-◌, IfOk, IfSome, None, ◌↔◌};

use crate::block::{Block, new_block};
use rec_base::Memory;
use std::alloc::Global;
use std::marker::Model;

/// Blocks of one length that lie ready, and are used again. This project's own.
///
/// A stock knows how many blocks were made for it, so there is a place for each that comes back.
#[derive(Debug, Drop)]
pub struct BlockStock {
    ready: Vec<Block>,
    blocks: usize,
    block_length: usize,
}

impl Model for BlockStock {
    ghost use Rattle.std.specs.Prelude.{◌≡◌, ◌≤◌, ℕ, length, vec_capacity, slice_get, Some};
    ghost use Rattle.sample_pool.specs.Block.{StockValue, BlockValue};

    ghost Value = { StockValue };

    ghost invariant = { λ s. (s.blocks ≤ vec_capacity s.ready)
        × ((i : ℕ) (b : BlockValue) → slice_get s.ready.items i ≡ Some b → b.length ≡ s.block_length) };

    ghost view = { λ s. record { home = length s.ready.items; blocks = s.blocks; length = s.block_length } };
}

impl BlockStock {
    /// A stock of `blocks` blocks, all of them home, of `length` places each. All memory is taken here.
    ///
    /// There may be up to 1,048,578 blocks, which are two more than a ring may have entries, of up to
    /// 32,777 places, which the longest sample of numbers takes. Both limits are this project's own.
    /// `Memory` comes for want of memory alone.
    pub fn new(alloc: Global, blocks: usize, length: usize) -> Result<BlockStock, Memory>
        requires some { 1 ≤ blocks }
        requires most { blocks ≤ 1_048_578 }
        requires long { 1 ≤ length }
        requires longest { length ≤ 32_777 }
        ensures { IfOk result (λ s. s ≡ record { home = blocks; blocks = blocks; length = length }) }
    {
        let mut ready = Vec::with_capacity(alloc, blocks)?;
        'making: for _ in 0..blocks {
            ready.push(new_block(alloc, length)?)?;
        }
        Ok(BlockStock {
            ready,
            blocks,
            block_length: length,
        })
    }

    /// Takes a block out; `None` comes exactly where none is home. The block may still hold the bytes
    /// of an earlier sample. It takes no memory.
    pub fn take(&mut self) -> Option<Block>
        ensures some { IfSome result (λ b. (b.length ≡ self.old.length) × (self.new ≡ record { home = self.old.home - 1; blocks = self.old.blocks; length = self.old.length })) }
        ensures none { result ≡ None ↔ self.old.home ≡ 0 }
        ensures kept { result ≡ None → self.new ≡ self.old }
    {
        self.ready.pop()
    }

    /// Gives a block of the stock's length back, where one is out. It takes no memory.
    pub fn give(&mut self, block: Block)
        requires length { block.length ≡ self.old.length }
        requires room { self.old.home < self.old.blocks }
        ensures { self.new ≡ record { home = self.old.home + 1; blocks = self.old.blocks; length = self.old.length } }
    {
        match self.ready.push(block) {
            Ok(()) => {}
            Err(_) => unreachable!(),
        }
    }
}
