//! The end of a lane of texts that takes.

ghost use Rattle.std.specs.Prelude.{◌≡◌, ◌≤◌, ◌<◌, ℕ, List, false, length, map, slice_get, None, Some, Option, IfOk, OnErr, IsErrOf};
ghost use Rattle.rec_base.specs.Causes.{Blames};
ghost use Rattle.recording_model.specs.declared.stream.StreamDoc.{StreamDoc as StreamValue};
ghost use Rattle.recording_model.specs.Batch.{Batch};
ghost use Rattle.loss_model.specs.Loss.{behind_last};
ghost use Rattle.record_writer.specs.Desk.{next_at, shapes_of, IsFreeFor};
ghost use Rattle.record_writer.specs.Standing.{StandsFor, IsCut, closed};
ghost use Rattle.run_model.specs.Putting.{IsCutAt};
ghost use Rattle.run_model.specs.Rings.{ring_entry};
ghost use Rattle.feed_lane.specs.Lanes.{IsPutOut};

use crate::terms::FittingSamples;
use rec_base::Sink;
use record_writer::{Writer, WriterFault};
use sample_values::{Sample, Shape};
use std::marker::Model;
use std::sync::Wait;
use thread_ring::Head;

/// The head of the ring.
#[derive(Drop)]
pub(crate) struct TextHead {
    pub(crate) shape: Shape,
    pub(crate) head: Head<Sample, FittingSamples>,
}

impl Model for TextHead {
    ghost use Rattle.std.specs.Prelude.{◌≡◌};
    ghost use Rattle.xdf_model.specs.Sample.{size_of};
    ghost use Rattle.feed_lane.specs.Lanes.{HeadView};
    ghost use Rattle.feed_lane.specs.Kinds.{text_head, text_terms};

    ghost Value = { HeadView };

    ghost view = { λ h. text_head h.shape h.head };

    ghost invariant = { λ h. (size_of h.shape.format ≡ 0) × (h.head.terms ≡ text_terms h.shape) };
}

impl TextHead {
    /// As [`crate::LaneHead::put_oldest`].
    pub(crate) fn put_oldest<K: Sink, R: Wait>(
        &mut self,
        rt: &R,
        writer: &mut Writer<'_, K>,
        place: usize,
    ) -> Result<bool, WriterFault>
        requires place { place < length writer.old.room.desk.places }
        requires free { IsFreeFor writer.old.room.desk place }
        requires whole { writer.old.room.desk.broken ≡ false }
        requires next { next_at writer.old.room.desk place ≡ behind_last (map ring_entry self.old.taken) }
        requires shape { slice_get (shapes_of writer.old.room.desk) place ≡ Some self.old.lane.shape }
        ensures same_reference { writer.new.sink.ghost_name ≡ writer.old.sink.ghost_name }
        ensures same { self.new.lane ≡ self.old.lane }
        ensures out { IfOk result (λ some. IsPutOut self.old self.new place writer.old.room.desk writer.new.room.desk (K.held writer.old.sink.now) (K.held writer.new.sink.now) some) }
        ensures cut { (streams : List StreamValue) (base : Option (List ℕ)) (batches : List Batch) (current : Option Batch)
            → StandsFor streams base (K.held writer.old.sink.now) writer.old.room.desk batches current
            → OnErr result ((some : List Batch) × IsCut streams base (K.held writer.new.sink.now) some × IsCutAt place self.old.taken self.new.taken (closed batches current) some) }
        ensures cause { Blames (IsErrOf result WriterFault.WriteFault) (K.write_faults writer.old.sink.now) (K.write_faults writer.new.sink.now) }
        ensures rest { K.rest writer.new.sink.now ≡ K.rest writer.old.sink.now }
    {
        let Some(entry) = self.head.take(rt) else {
            return Ok(false);
        };
        writer.put(place, entry.position, &entry.value)?;
        Ok(true)
    }
}
