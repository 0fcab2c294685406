//! Both ends of a lane of numbers.

ghost use Rattle.std.specs.Prelude.{◌≡◌, ◌≤◌, ◌<◌, ℕ, List, false, length, map, slice_get, None, Some, Option, IfOk, IfErr, OnErr};
ghost use Rattle.rec_base.specs.Causes.{HasCause};
ghost use Rattle.ring_model.specs.Ring.{IsReached};
ghost use Rattle.recording_model.specs.declared.stream.StreamDoc.{StreamDoc as StreamValue};
ghost use Rattle.recording_model.specs.Batch.{Batch};
ghost use Rattle.loss_model.specs.Loss.{behind_last};
ghost use Rattle.record_writer.specs.Desk.{next_at, shapes_of, IsFreeFor};
ghost use Rattle.record_writer.specs.Standing.{StandsFor, IsCut, closed};
ghost use Rattle.run_model.specs.Putting.{IsCutAt};
ghost use Rattle.run_model.specs.Rings.{ring_entry};
ghost use Rattle.thread_ring.specs.Ends.{AreFew};
ghost use Rattle.feed_lane.specs.Lanes.{IsLessBy};

use crate::block_head::BlockHead;
use crate::block_tail::BlockTail;
use crate::terms::FullBlocks;
use block_pool::{Giver, Taker, close_pool};
use rec_base::Sink;
use record_writer::{Writer, WriterFault};
use sample_pool::Block;
use sample_values::Shape;
use std::marker::Model;
use std::sync::Wait;
use thread_ring::{Last, drain_last};

/// Both ends of the ring, and of the pool.
#[derive(Drop)]
pub(crate) struct BlockLast {
    shape: Shape,
    last: Last<Block, FullBlocks>,
    giver: Giver,
    taker: Taker,
}

impl Model for BlockLast {
    ghost use Rattle.std.specs.Prelude.{◌≡◌};
    ghost use Rattle.feed_lane.specs.Lanes.{LastView};
    ghost use Rattle.feed_lane.specs.Kinds.{AreNumeric, block_last, block_terms, longest};

    ghost Value = { LastView };

    ghost view = { λ l. block_last l.shape l.last };

    ghost invariant = { λ l. AreNumeric l.shape × (l.last.terms ≡ block_terms l.shape) × (l.giver.length ≡ longest l.shape) × (l.giver.pool ≡ l.taker.pool) };
}

/// As [`crate::join_lane`]. The block that the tail kept is given home.
pub(crate) fn join_blocks<R: Wait>(rt: &R, tail: BlockTail, head: BlockHead) -> BlockLast
    requires { tail.lane ≡ head.lane }
    ensures same { (result.capacity ≡ tail.lane.capacity) × (result.shape ≡ tail.lane.shape) }
    ensures state { (result.state.puts ≡ tail.puts) × (result.state.dropped ≡ tail.dropped) × (result.state.taken ≡ head.taken) }
    ensures reached { IsReached result.capacity result.state }
    ensures few { AreFew tail.lane.capacity tail.puts tail.dropped }
{
    let BlockTail {
        shape,
        tail,
        taker,
        spare,
    } = tail;
    let BlockHead {
        shape: _,
        head,
        mut giver,
    } = head;
    if let Some(block) = spare {
        giver.give_block(rt, block);
    }
    BlockLast {
        shape,
        last: drain_last(tail, head),
        giver,
        taker,
    }
}

impl BlockLast {
    /// As [`crate::LaneLast::put_oldest`].
    pub(crate) fn put_oldest<K: Sink, R: Wait>(
        &mut self,
        rt: &R,
        writer: &mut Writer<'_, K>,
        place: usize,
    ) -> Result<bool, WriterFault>
        requires place { place < length writer.old.room.desk.places }
        requires free { IsFreeFor writer.old.room.desk place }
        requires whole { writer.old.room.desk.broken ≡ false }
        requires next { next_at writer.old.room.desk place ≡ behind_last (map ring_entry self.old.state.taken) }
        requires shape { slice_get (shapes_of writer.old.room.desk) place ≡ Some self.old.shape }
        requires reached { IsReached self.old.capacity self.old.state }
        ensures same_reference { writer.new.sink.ghost_name ≡ writer.old.sink.ghost_name }
        ensures same { (self.new.capacity ≡ self.old.capacity) × (self.new.shape ≡ self.old.shape) }
        ensures reached { IsReached self.new.capacity self.new.state }
        ensures kept { self.new.state.puts ≡ self.old.state.puts }
        ensures out { IfOk result (λ some. IsLessBy self.old self.new place writer.old.room.desk writer.new.room.desk (K.held writer.old.sink.now) (K.held writer.new.sink.now) some) }
        ensures cut { (streams : List StreamValue) (base : Option (List ℕ)) (batches : List Batch) (current : Option Batch)
            → StandsFor streams base (K.held writer.old.sink.now) writer.old.room.desk batches current
            → OnErr result ((some : List Batch) × IsCut streams base (K.held writer.new.sink.now) some × IsCutAt place self.old.state.taken self.new.state.taken (closed batches current) some) }
        ensures fault { IfErr result (λ f. f ≡ WriterFault.WriteFault) }
        ensures cause { HasCause (K.write_faults writer.old.sink.now) (K.write_faults writer.new.sink.now) result }
        ensures rest { K.rest writer.new.sink.now ≡ K.rest writer.old.sink.now }
    {
        let Some(entry) = self.last.take(rt) else {
            return Ok(false);
        };
        let put = writer.put_block(place, entry.position, &entry.value);
        self.giver.give_block(rt, entry.value);
        put?;
        Ok(true)
    }

    /// As [`crate::LaneLast::close`].
    pub(crate) fn close<R: Wait>(self, rt: &R) -> u64 {
        let BlockLast {
            shape: _,
            last: _,
            giver,
            taker,
        } = self;
        close_pool(rt, giver, taker)
    }
}
