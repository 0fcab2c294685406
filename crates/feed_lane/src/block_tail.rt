//! The end of a lane of numbers that puts.

ghost use Rattle.std.specs.Prelude.{◌≡◌, ◌≤◌, ◌<◌, ◌≢◌, ◌^◌, ◌+◌, ◌*◌, ◌++◌, ◌∷◌, [], false, length};
ghost use Rattle.rec_base.specs.Causes.{Blames};
ghost use Rattle.reading_model.specs.Outlook.{Answered};
ghost use Rattle.xdf_model.specs.Sample.{size_of};
ghost use Rattle.inlet_model.specs.Inlet.{feed_kind};
ghost use Rattle.sample_ring.specs.Seen.{IsFull, sample_in};
ghost use Rattle.feed_samples.specs.declared.step.FeedStep.{FeedStep as StepValue};
ghost use Rattle.feed_samples.specs.Inlet.{FitsGiven, got, outlook, received_by};
ghost use Rattle.feed_lane.specs.Lanes.{IsPutTo};
ghost use Rattle.feed_lane.specs.Kinds.{AreNumeric, longest};

use crate::step::LaneStep;
use crate::terms::FullBlocks;
use block_pool::Taker;
use feed_samples::{BlockStep, FeedEnd, FeedReader};
use rec_base::Source;
use sample_pool::Block;
use sample_values::Shape;
use std::marker::Model;
use std::rt::Clock;
use std::sync::Wait;
use std::thread::sleep;
use std::time::Duration;
use thread_ring::Tail;

/// The tail of the ring, the end of the pool that takes, and a block that is neither home nor in the ring.
#[derive(Drop)]
pub(crate) struct BlockTail {
    pub(crate) shape: Shape,
    pub(crate) tail: Tail<Block, FullBlocks>,
    pub(crate) taker: Taker,
    pub(crate) spare: Option<Block>,
}

impl Model for BlockTail {
    ghost use Rattle.std.specs.Prelude.{◌≡◌, IfSome};
    ghost use Rattle.feed_lane.specs.Lanes.{TailView};
    ghost use Rattle.feed_lane.specs.Kinds.{AreNumeric, block_tail, block_terms, longest};

    ghost Value = { TailView };

    ghost view = { λ t. block_tail t.shape t.tail t.taker };

    ghost invariant = { λ t. AreNumeric t.shape × (t.tail.terms ≡ block_terms t.shape) × (t.taker.length ≡ longest t.shape) × IfSome t.spare (λ b. b.length ≡ longest t.shape) };
}

// A block that is home; where none is, the thread sleeps until one is.
fn home_block<R: Wait + Clock>(rt: &R, taker: &mut Taker) -> Block
    ensures same { (taker.new.pool ≡ taker.old.pool) × (taker.new.length ≡ taker.old.length) }
    ensures length { result.length ≡ taker.old.length }
{
    for _ in rt.forever() {
        if let Some(block) = taker.take_block(rt) {
            return block;
        }
        sleep(rt, Duration::from_millis(1));
    }
    unreachable!()
}

impl BlockTail {
    // The block that was used last, or one that is home.
    fn lend<R: Wait + Clock>(&mut self, rt: &R) -> Block
        ensures same { self.new ≡ self.old }
        ensures length { result.length ≡ longest self.old.lane.shape }
        ensures numeric { AreNumeric self.old.lane.shape }
    {
        match self.spare.take() {
            Some(block) => block,
            None => home_block(rt, &mut self.taker),
        }
    }

    // Keeps a block to be used next.
    fn keep(&mut self, block: Block)
        requires { block.length ≡ longest self.old.lane.shape }
        ensures { self.new ≡ self.old }
    {
        self.spare = Some(block);
    }

    // Puts the sample whose text a block holds. The block of a sample that is dropped for it is kept.
    fn push<R: Wait>(&mut self, rt: &R, block: Block)
        requires full { IsFull self.old.lane.shape (longest self.old.lane.shape) block }
        requires room { length self.old.puts < 2 ^ 41 }
        ensures lane { self.new.lane ≡ self.old.lane }
        ensures puts { self.new.puts ≡ self.old.puts ++ sample_in self.old.lane.shape block.bytes ∷ [] }
    {
        if let Some(entry) = self.tail.push(rt, block).dropped {
            self.spare = Some(entry.value);
        }
    }

    /// As [`crate::LaneTail::take_from`].
    pub(crate) fn take_from<S: Source, R: Wait + Clock>(
        &mut self,
        rt: &R,
        reader: &mut FeedReader<S>,
    ) -> LaneStep
        requires shape { self.old.lane.shape ≡ reader.old.inlet.shape }
        requires room { length self.old.puts < 2 ^ 41 }
        ensures same { self.new.lane ≡ self.old.lane }
        ensures put { (step : StepValue) × IsPutTo self.old self.new step result
            × Answered feed_kind (outlook reader.old.inlet) (outlook reader.new.inlet) (S.left reader.old.source) (S.left reader.new.source) (got step)
            × FitsGiven reader.old.inlet.shape step × (reader.new.inlet.received ≡ received_by step reader.old.inlet.received) }
        ensures bounded { reader.new.inlet.received ≤ reader.new.inlet.byte_limit }
        ensures same_shape { (reader.new.inlet.shape ≡ reader.old.inlet.shape) × (reader.new.inlet.byte_limit ≡ reader.old.inlet.byte_limit) }
        ensures cause { Blames (((outlook reader.old.inlet).is_over ≡ false) × (result ≡ LaneStep.End FeedEnd.ReadFault)) (S.faults reader.old.source) (S.faults reader.new.source) }
        ensures marked { S.mark reader.new.source ≡ S.mark reader.old.source }
        ensures memory { result ≢ LaneStep.Memory }
    {
        let mut block = self.lend(rt);
        match reader.next_block(&mut block) {
            BlockStep::Filled => {
                self.push(rt, block);
                LaneStep::Sample
            }
            BlockStep::End(end) => {
                self.keep(block);
                LaneStep::End(end)
            }
        }
    }
}
