//! What the two ends of a pool know of it, and the rule that each of their steps keeps.

use crossbeam_queue::protocol::{Join, Lesson, Outcome, Protocol, Split};
use crossbeam_queue::{Pass, RuledArrayQueue};
use sample_pool::Block;
use std::marker::{Brand, PhantomData};

/// What a pass of the queue knows. It exists in proofs alone: no value of it is made.
pub struct Knows {
    /// No end was made yet.
    pub is_new: bool,
    /// It is the giver's, which knows how many blocks were given.
    pub gives: bool,
    /// It is the taker's, which knows how many were taken.
    pub takes: bool,
    /// How many blocks the pool has places for.
    pub room: u64,
    /// How many bytes each block can hold.
    pub size: u64,
    pub given: u64,
    pub taken: u64,
}

/// The rule: the blocks that are home are those that were given, less those that were taken.
pub struct Kept;

impl Protocol<Block, Knows> for Kept {
    ghost use Rattle.block_pool.specs.Rule.{IsKept, newborn};

    ghost holds = { IsKept };

    ghost first = { newborn };
}

/// The giver's step that brings a block home.
pub struct Gives;

impl Outcome<Block, Knows> for Gives {
    ghost use Rattle.block_pool.specs.Rule.{HasGiven};

    ghost then = { HasGiven };
}

// A giver that finds no room learns nothing by it.
impl Lesson<Block, Knows> for Gives {
    ghost use Rattle.std.specs.Prelude.{⊤};

    ghost fact = { λ v items. ⊤ };
}

/// The taker's step that takes a block out.
pub struct Takes;

impl Outcome<Block, Knows> for Takes {
    ghost use Rattle.block_pool.specs.Rule.{HasTaken};

    ghost then = { HasTaken };
}

// A taker that finds no block learns nothing by it.
impl Lesson<Block, Knows> for Takes {
    ghost use Rattle.std.specs.Prelude.{⊤};

    ghost fact = { λ v items. ⊤ };
}

/// The step of both ends together that takes a block out.
pub struct Drains;

impl Outcome<Block, Knows> for Drains {
    ghost use Rattle.block_pool.specs.Rule.{HasDrained};

    ghost then = { HasDrained };
}

impl Lesson<Block, Knows> for Drains {
    ghost use Rattle.block_pool.specs.Rule.{SeesHome};

    ghost fact = { SeesHome };
}

/// The places and the block size of the pool that is being made, for proofs alone. A split of a pass has
/// no arguments, so it names them by a type.
pub trait Sizes {
    ghost use Rattle.std.specs.Prelude.{ℕ};

    ghost room: { ℕ };

    ghost size: { ℕ };
}

// A call that makes a pool gives these their values by its own arguments.
impl Sizes for Brand {
    ghost room = { 0 };

    ghost size = { 0 };
}

/// Makes the passes of both ends of the new pool's one pass.
pub struct Ends<C> {
    sizes: PhantomData<C>,
}

impl<C: Sizes> Split<Knows> for Ends<C> {
    ghost use Rattle.block_pool.specs.Rule.{giver_knows, taker_knows};

    ghost left = { λ v. giver_knows C.room C.size };

    ghost right = { λ v. taker_knows C.room C.size };
}

/// Makes one pass of both ends'.
pub struct Both;

impl Join<Knows> for Both {
    ghost use Rattle.block_pool.specs.Rule.{joined, spent};

    ghost both = { joined };

    ghost spent = { spent };
}

/// The queue of a pool, under its rule.
pub type PoolQueue = RuledArrayQueue<Block, Knows, Kept>;

/// A pass of that queue.
pub type PoolPass = Pass<Block, Knows>;
