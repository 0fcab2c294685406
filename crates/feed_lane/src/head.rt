//! The end of a lane that takes.

ghost use Rattle.std.specs.Prelude.{◌≡◌, ◌≤◌, ◌<◌, ℕ, List, false, length, map, slice_get, None, Some, Option, IfOk, OnErr, IsErrOf};
ghost use Rattle.rec_base.specs.Causes.{Blames};
ghost use Rattle.xdf_model.specs.Sample.{size_of};
ghost use Rattle.recording_model.specs.declared.stream.StreamDoc.{StreamDoc as StreamValue};
ghost use Rattle.recording_model.specs.Batch.{Batch};
ghost use Rattle.loss_model.specs.Loss.{behind_last};
ghost use Rattle.record_writer.specs.Desk.{next_at, shapes_of, IsFreeFor};
ghost use Rattle.record_writer.specs.Standing.{StandsFor, IsCut, closed};
ghost use Rattle.run_model.specs.Putting.{IsCutAt};
ghost use Rattle.run_model.specs.Rings.{ring_entry};
ghost use Rattle.feed_lane.specs.Lanes.{IsPutOut};

use crate::block_head::BlockHead;
use crate::text_head::TextHead;
use rec_base::Sink;
use record_writer::{Writer, WriterFault};
use std::marker::Model;
use std::sync::Wait;

/// The end by kind.
#[derive(Drop)]
pub(crate) enum HeadEnds {
    /// Of numbers.
    Numbers(BlockHead),
    /// Of texts.
    Texts(TextHead),
}

/// The end of a lane that takes, which the thread that writes owns. This project's own.
#[derive(Drop)]
pub struct LaneHead {
    pub(crate) ends: HeadEnds,
}

impl Model for LaneHead {
    ghost use Rattle.feed_lane.specs.Lanes.{HeadView};
    ghost use Rattle.feed_lane.specs.Ends.{head_in, IsHeadOfKind};

    ghost Value = { HeadView };

    ghost view = { λ h. head_in h.ends };

    ghost invariant = { λ h. IsHeadOfKind h.ends };
}

impl LaneHead {
    /// Takes the oldest sample out and puts it to the stream at a place; `false` comes only where there
    /// was none at a moment of this call. With numbers it takes no memory, and the sample's block is given
    /// back.
    ///
    /// `WriteFault` comes only where a write failed in this call; `Memory` for want of memory alone, and
    /// never with numbers.
    pub fn put_oldest<K: Sink, R: Wait>(
        &mut self,
        rt: &R,
        writer: &mut Writer<'_, K>,
        place: usize,
    ) -> Result<bool, WriterFault>
        requires place { place < length writer.old.room.desk.places }
        requires free { IsFreeFor writer.old.room.desk place }
        requires whole { writer.old.room.desk.broken ≡ false }
        requires next { next_at writer.old.room.desk place ≡ behind_last (map ring_entry self.old.taken) }
        requires shape { slice_get (shapes_of writer.old.room.desk) place ≡ Some self.old.lane.shape }
        ensures same_reference { writer.new.sink.ghost_name ≡ writer.old.sink.ghost_name }
        ensures same { self.new.lane ≡ self.old.lane }
        ensures out { IfOk result (λ some. IsPutOut self.old self.new place writer.old.room.desk writer.new.room.desk (K.held writer.old.sink.now) (K.held writer.new.sink.now) some) }
        ensures cut { (streams : List StreamValue) (base : Option (List ℕ)) (batches : List Batch) (current : Option Batch)
            → StandsFor streams base (K.held writer.old.sink.now) writer.old.room.desk batches current
            → OnErr result ((some : List Batch) × IsCut streams base (K.held writer.new.sink.now) some × IsCutAt place self.old.taken self.new.taken (closed batches current) some) }
        ensures memory { IsErrOf result WriterFault.Memory → 1 ≤ size_of self.old.lane.shape.format → ⊥ }
        ensures cause { Blames (IsErrOf result WriterFault.WriteFault) (K.write_faults writer.old.sink.now) (K.write_faults writer.new.sink.now) }
        ensures rest { K.rest writer.new.sink.now ≡ K.rest writer.old.sink.now }
    {
        match &mut self.ends {
            HeadEnds::Numbers(head) => head.put_oldest(rt, writer, place),
            HeadEnds::Texts(head) => head.put_oldest(rt, writer, place),
        }
    }
}
