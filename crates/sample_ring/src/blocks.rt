ghost use Rattle.std.specs.Prelude.{◌≡◌, ◌≤◌, ◌<◌, ◌+◌, ◌^◌, [], ◌∷◌, ◌++◌, drop, slice_get, if◌then◌else◌, None, IfOk, IfSome};
ghost use Rattle.std.specs.Option.{option_map};
ghost use Rattle.xdf_model.specs.Sample.{Sample as SampleValue};
ghost use Rattle.ring_model.specs.Ring.{RingState, RingRun};
ghost use Rattle.inlet_ring.specs.Lone.{is_full, with_room, push_events, take_events, StandsFor};
ghost use Rattle.sample_ring.specs.Seen.{sample_in, entry_in, IsFull};

use inlet_ring::{Entry, LoneRing};
use rec_base::Memory;
use sample_pool::{Block, BlockStock};
use std::alloc::Global;
use std::marker::Model;
use xdf_model::Shape;

/// A ring of samples of numbers of one shape, and the blocks that hold their texts. This project's own.
///
/// A block is lent to be filled, and comes back by [`push`](BlockRing::push) or
/// [`give`](BlockRing::give); [`take`](BlockRing::take) lends the block of the oldest sample. One is
/// lent at a time, and there are two more than the ring has entries, so there is always one to lend.
#[derive(Drop)]
pub struct BlockRing {
    shape: Shape,
    ring: LoneRing<Block>,
    stock: BlockStock,
}

impl Model for BlockRing {
    ghost use Rattle.std.specs.Prelude.{◌≡◌, ◌≤◌, ◌+◌, length};
    ghost use Rattle.std.specs.List.{AllByRecursion};
    ghost use Rattle.sample_ring.specs.Seen.{RingSeen, seen, IsFull};

    ghost Value = { RingSeen };

    ghost view = { λ r. seen r.shape r.ring r.stock };

    ghost invariant = { λ r. AllByRecursion (λ e. IsFull r.shape r.stock.length e.value) r.ring.queue
        × (r.ring.capacity + 2 ≡ r.stock.blocks) × (length r.ring.queue ≤ r.ring.capacity) × (1 ≤ r.ring.capacity)
        × (r.stock.home + length r.ring.queue ≤ r.stock.blocks) };
}

impl BlockRing {
    /// An empty ring of `capacity` entries, with all its blocks, of `size` bytes each. All memory is
    /// taken here.
    ///
    /// `Memory` comes for want of memory alone.
    pub fn new(
        alloc: Global,
        shape: Shape,
        capacity: usize,
        size: usize,
    ) -> Result<BlockRing, Memory>
        requires low { 1 ≤ capacity }
        requires high { capacity ≤ 1_048_576 }
        requires long { 1 ≤ size }
        requires longest { size ≤ 32_777 }
        ensures { IfOk result (λ r. r ≡ record { ring = record { queue = []; pushes = 0; capacity = capacity }; shape = shape; size = size; lent = 0 }) }
    {
        let ring = LoneRing::new(alloc, capacity)?;
        let stock = BlockStock::new(alloc, capacity + 2, size)?;
        Ok(BlockRing { shape, ring, stock })
    }

    /// Lends a block; there is always one while none is lent. It may still hold the bytes of an earlier
    /// sample. It takes no memory.
    #[inline]
    pub fn lend(&mut self) -> Block
        requires { self.old.lent ≡ 0 }
        ensures block { result.length ≡ self.old.size }
        ensures lent { self.new ≡ record { ring = self.old.ring; shape = self.old.shape; size = self.old.size; lent = 1 } }
    {
        let Some(block) = self.stock.take() else {
            unreachable!()
        };
        block
    }

    /// Takes a lent block back, whatever it holds. It takes no memory.
    #[inline]
    pub fn give(&mut self, block: Block)
        requires lent { self.old.lent ≡ 1 }
        requires length { block.length ≡ self.old.size }
        ensures { self.new ≡ record { ring = self.old.ring; shape = self.old.shape; size = self.old.size; lent = 0 } }
    {
        self.stock.give(block);
    }

    /// Puts the sample whose text a block holds at the position after the last one's, and says how many
    /// that dropped, 0 or 1. The block of a sample that was dropped is home again. It takes no memory.
    #[inline]
    pub fn push(&mut self, block: Block) -> u64
        requires lent { self.old.lent ≡ 1 }
        requires full { IsFull self.old.shape self.old.size block }
        requires room { self.old.ring.pushes < 2 ^ 41 }
        ensures dropped { result ≡ (if is_full self.old.ring then 1 else 0) }
        ensures queue { self.new.ring.queue ≡ with_room self.old.ring ++ record { position = self.old.ring.pushes; value = sample_in self.old.shape block.bytes } ∷ [] }
        ensures pushes { self.new.ring.pushes ≡ self.old.ring.pushes + 1 }
        ensures capacity { self.new.ring.capacity ≡ self.old.ring.capacity }
        ensures kept { (self.new.shape ≡ self.old.shape) × (self.new.size ≡ self.old.size) × (self.new.lent ≡ 0) }
        ensures steps { (s : RingState SampleValue) → StandsFor self.old.ring s
            → (t : RingState SampleValue) × RingRun self.old.ring.capacity s (push_events self.old.ring (sample_in self.old.shape block.bytes)) t × StandsFor self.new.ring t }
    {
        match self.ring.push(block) {
            Some(entry) => {
                self.stock.give(entry.value);
                1
            }
            None => 0,
        }
    }

    /// Takes the oldest entry out, and lends its block; `None` comes exactly where there is none. It
    /// takes no memory.
    #[inline]
    pub fn take(&mut self) -> Option<Entry<Block>>
        requires lent { self.old.lent ≡ 0 }
        ensures oldest { option_map (entry_in self.old.shape) result ≡ slice_get self.old.ring.queue 0 }
        ensures full { IfSome result (λ e. IsFull self.old.shape self.old.size e.value) }
        ensures queue { self.new.ring.queue ≡ drop 1 self.old.ring.queue }
        ensures pushes { self.new.ring.pushes ≡ self.old.ring.pushes }
        ensures capacity { self.new.ring.capacity ≡ self.old.ring.capacity }
        ensures kept { (self.new.shape ≡ self.old.shape) × (self.new.size ≡ self.old.size) }
        ensures lent { IfSome result (λ e. self.new.lent ≡ 1) }
        ensures none { result ≡ None → self.new.lent ≡ 0 }
        ensures steps { (s : RingState SampleValue) → StandsFor self.old.ring s
            → (t : RingState SampleValue) × RingRun self.old.ring.capacity s (take_events self.old.ring.queue) t × StandsFor self.new.ring t }
    {
        self.ring.take()
    }
}
