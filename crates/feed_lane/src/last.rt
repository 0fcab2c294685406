//! Both ends of a lane, once its feed has ended.

ghost use Rattle.std.specs.Prelude.{◌≡◌, ◌≤◌, ◌<◌, ℕ, List, false, length, map, slice_get, None, Some, Option, IfOk, OnErr, IsErrOf};
ghost use Rattle.rec_base.specs.Causes.{Blames};
ghost use Rattle.xdf_model.specs.Sample.{size_of};
ghost use Rattle.ring_model.specs.Ring.{IsReached};
ghost use Rattle.recording_model.specs.declared.stream.StreamDoc.{StreamDoc as StreamValue};
ghost use Rattle.recording_model.specs.Batch.{Batch};
ghost use Rattle.loss_model.specs.Loss.{behind_last};
ghost use Rattle.record_writer.specs.Desk.{next_at, shapes_of, IsFreeFor};
ghost use Rattle.record_writer.specs.Standing.{StandsFor, IsCut, closed};
ghost use Rattle.run_model.specs.Putting.{IsCutAt};
ghost use Rattle.run_model.specs.Rings.{ring_entry};
ghost use Rattle.thread_ring.specs.Ends.{AreFew};
ghost use Rattle.feed_lane.specs.Lanes.{IsLessBy};

use crate::block_last::{BlockLast, join_blocks};
use crate::head::{HeadEnds, LaneHead};
use crate::tail::{LaneTail, TailEnds};
use crate::text_last::{TextLast, join_texts};
use rec_base::Sink;
use record_writer::{Writer, WriterFault};
use std::marker::Model;
use std::sync::Wait;

/// Both ends by kind.
#[derive(Drop)]
pub(crate) enum LastEnds {
    /// Of numbers.
    Numbers(BlockLast),
    /// Of texts.
    Texts(TextLast),
}

/// Both ends of a lane in one thread again. Contracts see the whole state. This project's own.
#[derive(Drop)]
pub struct LaneLast {
    ends: LastEnds,
}

impl Model for LaneLast {
    ghost use Rattle.feed_lane.specs.Lanes.{LastView};
    ghost use Rattle.feed_lane.specs.Ends.{last_in, IsLastOfKind};

    ghost Value = { LastView };

    ghost view = { λ l. last_in l.ends };

    ghost invariant = { λ l. IsLastOfKind l.ends };
}

/// Joins both ends of one lane. A block that the tail still holds is given back to the pool.
pub fn join_lane<R: Wait>(rt: &R, tail: LaneTail, head: LaneHead) -> LaneLast
    requires { tail.lane ≡ head.lane }
    ensures same { (result.capacity ≡ tail.lane.capacity) × (result.shape ≡ tail.lane.shape) }
    ensures state { (result.state.puts ≡ tail.puts) × (result.state.dropped ≡ tail.dropped) × (result.state.taken ≡ head.taken) }
    ensures reached { IsReached result.capacity result.state }
    ensures few { AreFew tail.lane.capacity tail.puts tail.dropped }
{
    let ends = match (tail.ends, head.ends) {
        (TailEnds::Numbers(tail), HeadEnds::Numbers(head)) => {
            LastEnds::Numbers(join_blocks(rt, tail, head))
        }
        (TailEnds::Texts(tail), HeadEnds::Texts(head)) => LastEnds::Texts(join_texts(tail, head)),
        _ => unreachable!(),
    };
    LaneLast { ends }
}

impl LaneLast {
    /// Takes the oldest sample that is left and puts it to the stream at a place; `false` comes exactly
    /// where none is left. With numbers it takes no memory, and the sample's block is given back.
    ///
    /// `WriteFault` comes only where a write failed in this call; `Memory` for want of memory alone, and
    /// never with numbers.
    pub fn put_oldest<K: Sink, R: Wait>(
        &mut self,
        rt: &R,
        writer: &mut Writer<'_, K>,
        place: usize,
    ) -> Result<bool, WriterFault>
        requires place { place < length writer.old.room.desk.places }
        requires free { IsFreeFor writer.old.room.desk place }
        requires whole { writer.old.room.desk.broken ≡ false }
        requires next { next_at writer.old.room.desk place ≡ behind_last (map ring_entry self.old.state.taken) }
        requires shape { slice_get (shapes_of writer.old.room.desk) place ≡ Some self.old.shape }
        requires reached { IsReached self.old.capacity self.old.state }
        ensures same_reference { writer.new.sink.ghost_name ≡ writer.old.sink.ghost_name }
        ensures same { (self.new.capacity ≡ self.old.capacity) × (self.new.shape ≡ self.old.shape) }
        ensures reached { IsReached self.new.capacity self.new.state }
        ensures kept { self.new.state.puts ≡ self.old.state.puts }
        ensures out { IfOk result (λ some. IsLessBy self.old self.new place writer.old.room.desk writer.new.room.desk (K.held writer.old.sink.now) (K.held writer.new.sink.now) some) }
        ensures cut { (streams : List StreamValue) (base : Option (List ℕ)) (batches : List Batch) (current : Option Batch)
            → StandsFor streams base (K.held writer.old.sink.now) writer.old.room.desk batches current
            → OnErr result ((some : List Batch) × IsCut streams base (K.held writer.new.sink.now) some × IsCutAt place self.old.state.taken self.new.state.taken (closed batches current) some) }
        ensures memory { IsErrOf result WriterFault.Memory → 1 ≤ size_of self.old.shape.format → ⊥ }
        ensures cause { Blames (IsErrOf result WriterFault.WriteFault) (K.write_faults writer.old.sink.now) (K.write_faults writer.new.sink.now) }
        ensures rest { K.rest writer.new.sink.now ≡ K.rest writer.old.sink.now }
    {
        match &mut self.ends {
            LastEnds::Numbers(last) => last.put_oldest(rt, writer, place),
            LastEnds::Texts(last) => last.put_oldest(rt, writer, place),
        }
    }

    /// Ends the lane, and answers how many of its blocks are home; 0 where its samples are texts.
    pub fn close<R: Wait>(self, rt: &R) -> u64
        ensures texts { size_of self.shape.format ≡ 0 → result ≡ 0 }
    {
        match self.ends {
            LastEnds::Numbers(last) => last.close(rt),
            LastEnds::Texts(_) => 0,
        }
    }
}
