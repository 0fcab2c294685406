//! Both ends of a lane of texts.

ghost use Rattle.std.specs.Prelude.{◌≡◌, ◌≤◌, ◌<◌, ℕ, List, false, length, map, slice_get, None, Some, Option, IfOk, OnErr, IsErrOf};
ghost use Rattle.rec_base.specs.Causes.{Blames};
ghost use Rattle.ring_model.specs.Ring.{IsReached};
ghost use Rattle.recording_model.specs.declared.stream.StreamDoc.{StreamDoc as StreamValue};
ghost use Rattle.recording_model.specs.Batch.{Batch};
ghost use Rattle.loss_model.specs.Loss.{behind_last};
ghost use Rattle.record_writer.specs.Desk.{next_at, shapes_of, IsFreeFor};
ghost use Rattle.record_writer.specs.Standing.{StandsFor, IsCut, closed};
ghost use Rattle.run_model.specs.Putting.{IsCutAt};
ghost use Rattle.run_model.specs.Rings.{ring_entry};
ghost use Rattle.thread_ring.specs.Ends.{AreFew};
ghost use Rattle.feed_lane.specs.Lanes.{IsLessBy};

use crate::terms::FittingSamples;
use crate::text_head::TextHead;
use crate::text_tail::TextTail;
use rec_base::Sink;
use record_writer::{Writer, WriterFault};
use sample_values::{Sample, Shape};
use std::marker::Model;
use std::sync::Wait;
use thread_ring::{Last, drain_last};

/// Both ends of the ring.
#[derive(Drop)]
pub(crate) struct TextLast {
    shape: Shape,
    last: Last<Sample, FittingSamples>,
}

impl Model for TextLast {
    ghost use Rattle.std.specs.Prelude.{◌≡◌};
    ghost use Rattle.xdf_model.specs.Sample.{size_of};
    ghost use Rattle.feed_lane.specs.Lanes.{LastView};
    ghost use Rattle.feed_lane.specs.Kinds.{text_last, text_terms};

    ghost Value = { LastView };

    ghost view = { λ l. text_last l.shape l.last };

    ghost invariant = { λ l. (size_of l.shape.format ≡ 0) × (l.last.terms ≡ text_terms l.shape) };
}

/// As [`crate::join_lane`].
pub(crate) fn join_texts(tail: TextTail, head: TextHead) -> TextLast
    requires { tail.lane ≡ head.lane }
    ensures same { (result.capacity ≡ tail.lane.capacity) × (result.shape ≡ tail.lane.shape) }
    ensures state { (result.state.puts ≡ tail.puts) × (result.state.dropped ≡ tail.dropped) × (result.state.taken ≡ head.taken) }
    ensures reached { IsReached result.capacity result.state }
    ensures few { AreFew tail.lane.capacity tail.puts tail.dropped }
{
    TextLast {
        shape: tail.shape,
        last: drain_last(tail.tail, head.head),
    }
}

impl TextLast {
    /// As [`crate::LaneLast::put_oldest`].
    pub(crate) fn put_oldest<K: Sink, R: Wait>(
        &mut self,
        rt: &R,
        writer: &mut Writer<'_, K>,
        place: usize,
    ) -> Result<bool, WriterFault>
        requires place { place < length writer.old.room.desk.places }
        requires free { IsFreeFor writer.old.room.desk place }
        requires whole { writer.old.room.desk.broken ≡ false }
        requires next { next_at writer.old.room.desk place ≡ behind_last (map ring_entry self.old.state.taken) }
        requires shape { slice_get (shapes_of writer.old.room.desk) place ≡ Some self.old.shape }
        requires reached { IsReached self.old.capacity self.old.state }
        ensures same_reference { writer.new.sink.ghost_name ≡ writer.old.sink.ghost_name }
        ensures same { (self.new.capacity ≡ self.old.capacity) × (self.new.shape ≡ self.old.shape) }
        ensures reached { IsReached self.new.capacity self.new.state }
        ensures kept { self.new.state.puts ≡ self.old.state.puts }
        ensures out { IfOk result (λ some. IsLessBy self.old self.new place writer.old.room.desk writer.new.room.desk (K.held writer.old.sink.now) (K.held writer.new.sink.now) some) }
        ensures cut { (streams : List StreamValue) (base : Option (List ℕ)) (batches : List Batch) (current : Option Batch)
            → StandsFor streams base (K.held writer.old.sink.now) writer.old.room.desk batches current
            → OnErr result ((some : List Batch) × IsCut streams base (K.held writer.new.sink.now) some × IsCutAt place self.old.state.taken self.new.state.taken (closed batches current) some) }
        ensures cause { Blames (IsErrOf result WriterFault.WriteFault) (K.write_faults writer.old.sink.now) (K.write_faults writer.new.sink.now) }
        ensures rest { K.rest writer.new.sink.now ≡ K.rest writer.old.sink.now }
    {
        let Some(entry) = self.last.take(rt) else {
            return Ok(false);
        };
        writer.put(place, entry.position, &entry.value)?;
        Ok(true)
    }
}
