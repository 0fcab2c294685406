//! The two ends of a pool.

ghost use Rattle.std.specs.Prelude.{◌≡◌, ◌+◌, ◌≤◌, IfOk, MatchOption};

use crate::pool_steps::{drain, give, lay_all, take, to_both};
use crate::rule::{Ends, PoolPass, PoolQueue, Sizes};
use rec_base::Memory;
use sample_pool::Block;
use std::alloc::Global;
use std::marker::{Brand, Model};
use std::sync::{Arc, Wait};

/// The end of a pool that gives blocks back, which the thread that writes owns. This project's own.
#[derive(Drop)]
pub struct Giver {
    queue: Arc<PoolQueue, Global>,
    pass: PoolPass,
}

impl Model for Giver {
    ghost use Rattle.std.specs.Prelude.{◌≡◌};
    ghost use Rattle.std.specs.Arc.{arc_value};
    ghost use Rattle.crossbeam_queue.specs.Passes.{view as known, IsPassOf, ruled_capacity};
    ghost use Rattle.block_pool.specs.Rule.{IsGiver};
    ghost use Rattle.block_pool.specs.Ends.{GiverView, giver_view};

    ghost Value = { GiverView };

    ghost view = { λ g. giver_view (arc_value g.queue).table.shared.table_id (known g.pass) };

    ghost invariant = { λ g. IsPassOf (arc_value g.queue) g.pass × IsGiver (known g.pass) × (ruled_capacity (arc_value g.queue) ≡ (known g.pass).room) };
}

/// The end of a pool that takes blocks out, which the thread of a feed owns. This project's own.
#[derive(Drop)]
pub struct Taker {
    queue: Arc<PoolQueue, Global>,
    pass: PoolPass,
}

impl Model for Taker {
    ghost use Rattle.std.specs.Arc.{arc_value};
    ghost use Rattle.crossbeam_queue.specs.Passes.{view as known, IsPassOf};
    ghost use Rattle.block_pool.specs.Rule.{IsTaker};
    ghost use Rattle.block_pool.specs.Ends.{TakerView, taker_view};

    ghost Value = { TakerView };

    ghost view = { λ t. taker_view (arc_value t.queue).table.shared.table_id (known t.pass) };

    ghost invariant = { λ t. IsPassOf (arc_value t.queue) t.pass × IsTaker (known t.pass) };
}

// Makes the ends, where the places and the size of a block have names.
fn open_pool<C: Sizes>(
    alloc: Global,
    blocks: usize,
    length: usize,
) -> Result<(Giver, Taker), Memory>
    requires some { 1 ≤ blocks }
    requires room { C.room ≡ blocks }
    requires size { C.size ≡ length }
    ensures giver { IfOk result (λ r. (r.0.length ≡ length) × (r.0.given ≡ blocks)) }
    ensures taker { IfOk result (λ r. (r.1.pool ≡ r.0.pool) × (r.1.length ≡ length) × (r.1.taken ≡ 0)) }
{
    let (queue, mut pass) = PoolQueue::ruled(alloc, blocks)?;
    let other = queue.another::<Ends<C>>(&mut pass);
    lay_all(alloc, &queue, &mut pass, blocks, length)?;
    let queue = Arc::new(alloc, queue)?;
    let theirs = Arc::try_clone(&queue)?;
    let giver = Giver { queue, pass };
    let taker = Taker {
        queue: theirs,
        pass: other,
    };
    Ok((giver, taker))
}

/// Makes a pool of `blocks` blocks of `length` bytes each, all of them home, and answers its two ends, each
/// of which may go to a thread of its own. The blocks that are made count as given. All memory of the pool
/// is taken here.
///
/// There may be up to 1,048,578 blocks, which are two more than a ring may have entries, of up to 32,777
/// bytes, which the longest sample of numbers takes. Both limits are this project's own. `Memory` comes
/// for want of memory alone.
pub fn make_pool(alloc: Global, blocks: usize, length: usize) -> Result<(Giver, Taker), Memory>
    requires low { 1 ≤ blocks }
    requires high { blocks ≤ 1_048_578 }
    requires some { 1 ≤ length }
    requires longest { length ≤ 32_777 }
    ensures giver { IfOk result (λ r. (r.0.length ≡ length) × (r.0.given ≡ blocks)) }
    ensures taker { IfOk result (λ r. (r.1.pool ≡ r.0.pool) × (r.1.length ≡ length) × (r.1.taken ≡ 0)) }
{
    open_pool::<Brand>(alloc, blocks, length)
}

impl Taker {
    /// Takes a block out. `None` comes only where no block was home at a moment of this call. The block has
    /// the pool's length, and may still hold the bytes of an earlier sample. It takes no memory. Where the
    /// giver is just bringing one home, it may wait for that.
    pub fn take_block<R: Wait>(&mut self, rt: &R) -> Option<Block>
        ensures same { (self.new.pool ≡ self.old.pool) × (self.new.length ≡ self.old.length) }
        ensures taken { MatchOption result (self.new.taken ≡ self.old.taken) (λ b. (b.length ≡ self.old.length) × (self.new.taken ≡ self.old.taken + 1)) }
    {
        take(rt, &self.queue, &mut self.pass)
    }
}

impl Giver {
    /// Brings a block of the pool's length home. It takes no memory. The pool has a place for each of the
    /// blocks that were made; where more are home already it tries again until one is taken.
    pub fn give_block<R: Wait>(&mut self, rt: &R, block: Block)
        requires { block.length ≡ self.old.length }
        ensures same { (self.new.pool ≡ self.old.pool) × (self.new.length ≡ self.old.length) }
        ensures given { self.new.given ≡ self.old.given + 1 }
    {
        give(rt, &self.queue, &mut self.pass, block);
    }
}

/// Joins the two ends of one pool, once no other thread has either, and counts the blocks that are home:
/// those that were given, less those that were taken. It lets the blocks go with the pool.
pub fn close_pool<R: Wait>(rt: &R, giver: Giver, taker: Taker) -> u64
    requires { taker.pool ≡ giver.pool }
    ensures { result + taker.taken ≡ giver.given }
{
    let Giver { queue, mut pass } = giver;
    let Taker {
        queue: _,
        pass: other,
    } = taker;
    to_both(&queue, &mut pass, other);
    drain(rt, &queue, &mut pass)
}
