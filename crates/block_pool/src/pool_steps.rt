//! The steps of either end, over the queue and the end's pass.

ghost use Rattle.std.specs.Prelude.{◌≡◌, ◌+◌, ◌≤◌, IfOk, MatchOption};
ghost use Rattle.crossbeam_queue.specs.Passes.{view, IsPassOf, IsSamePass, ruled_capacity};
ghost use Rattle.block_pool.specs.Rule.{IsGiver, IsTaker, HasTaken, HasDrained, after_giving, joined};

use crate::rule::{Both, Drains, Gives, PoolPass, PoolQueue, Takes};
use rec_base::Memory;
use sample_pool::{Block, new_block};
use std::alloc::Global;
use std::sync::Wait;
use std::thread;

// Brings a new block home, while no other thread has the queue.
fn lay(queue: &PoolQueue, pass: &mut PoolPass, block: Block) -> Result<(), Memory>
    requires pass { IsPassOf queue.now pass.old × IsGiver (view pass.old) }
    requires room { ruled_capacity queue.now ≡ (view pass.old).room }
    requires size { block.length ≡ (view pass.old).size }
    ensures pass { IsSamePass pass.old pass.new }
    ensures given { IfOk result (λ _. view pass.new ≡ after_giving (view pass.old) 1) }
{
    match queue.try_push_as::<Gives>(pass, block) {
        Ok(()) => Ok(()),
        // The queue's contract leaves open when one attempt fails.
        Err(_) => Err(Memory),
    }
}

/// Makes so many blocks of `length` bytes and brings them home, while no other thread has the queue.
pub(crate) fn lay_all(
    alloc: Global,
    queue: &PoolQueue,
    pass: &mut PoolPass,
    blocks: usize,
    length: usize,
) -> Result<(), Memory>
    requires pass { IsPassOf queue.now pass.old × IsGiver (view pass.old) }
    requires room { ruled_capacity queue.now ≡ (view pass.old).room }
    requires size { length ≡ (view pass.old).size }
    ensures pass { IsSamePass pass.old pass.new }
    ensures given { IfOk result (λ _. view pass.new ≡ after_giving (view pass.old) blocks) }
{
    'laying: for _ in 0..blocks {
        let block = new_block(alloc, length)?;
        lay(queue, pass, block)?;
    }
    Ok(())
}

/// Brings a block home, by the giver.
pub(crate) fn give<R: Wait>(rt: &R, queue: &PoolQueue, pass: &mut PoolPass, block: Block)
    requires pass { IsPassOf queue.now pass.old × IsGiver (view pass.old) }
    requires room { ruled_capacity queue.now ≡ (view pass.old).room }
    requires size { block.length ≡ (view pass.old).size }
    ensures pass { IsSamePass pass.old pass.new }
    ensures given { view pass.new ≡ after_giving (view pass.old) 1 }
{
    let mut block = block;
    for _ in rt.forever() {
        match queue.push_as::<Gives, R>(rt, pass, block) {
            Ok(()) => return,
            Err(back) => block = back,
        }
        thread::yield_now();
    }
    unreachable!()
}

/// Takes a block out, by the taker.
pub(crate) fn take<R: Wait>(rt: &R, queue: &PoolQueue, pass: &mut PoolPass) -> Option<Block>
    requires pass { IsPassOf queue.now pass.old × IsTaker (view pass.old) }
    ensures pass { IsSamePass pass.old pass.new }
    ensures taken { MatchOption result (view pass.new ≡ view pass.old) (λ b. HasTaken (view pass.old) b (view pass.new)) }
{
    queue.pop_as::<Takes, R>(rt, pass)
}

/// Makes one pass of both ends'.
pub(crate) fn to_both(queue: &PoolQueue, pass: &mut PoolPass, other: PoolPass)
    requires giver { IsPassOf queue.now pass.old × IsGiver (view pass.old) }
    requires taker { IsPassOf queue.now other × IsTaker (view other) }
    ensures pass { IsSamePass pass.old pass.new }
    ensures view { view pass.new ≡ joined (view pass.old) (view other) }
    ensures few { (view pass.new).given ≤ (view pass.new).taken + (view pass.new).room }
{
    queue.absorb::<Both>(pass, other);
    queue.learn_as::<Drains>(pass);
}

// Takes a block out, by the pass of both ends; none exactly where none is home.
fn drain_one<R: Wait>(rt: &R, queue: &PoolQueue, pass: &mut PoolPass) -> Option<Block>
    requires pass { IsPassOf queue.now pass.old × IsGiver (view pass.old) × IsTaker (view pass.old) }
    ensures pass { IsSamePass pass.old pass.new }
    ensures drained { MatchOption result ((view pass.new ≡ view pass.old) × ((view pass.old).taken ≡ (view pass.old).given)) (λ b. HasDrained (view pass.old) b (view pass.new)) }
{
    queue.pop_as::<Drains, R>(rt, pass)
}

/// Takes all blocks out that are home, by the pass of both ends, and counts them.
pub(crate) fn drain<R: Wait>(rt: &R, queue: &PoolQueue, pass: &mut PoolPass) -> u64
    requires pass { IsPassOf queue.now pass.old × IsGiver (view pass.old) × IsTaker (view pass.old) }
    requires room { ruled_capacity queue.now ≡ (view pass.old).room }
    requires few { (view pass.old).given ≤ (view pass.old).taken + (view pass.old).room }
    ensures { result + (view pass.old).taken ≡ (view pass.old).given }
{
    let room = queue.capacity() as u64;
    let mut home = 0;
    for _ in rt.forever() {
        if drain_one(rt, queue, pass).is_none() {
            return home;
        }
        prove!(home < room);
        home += 1;
    }
    unreachable!()
}
