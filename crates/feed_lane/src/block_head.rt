//! The end of a lane of numbers that takes.

ghost use Rattle.std.specs.Prelude.{◌≡◌, ◌≤◌, ◌<◌, ℕ, List, false, length, map, slice_get, None, Some, Option, IfOk, IfErr, OnErr};
ghost use Rattle.rec_base.specs.Causes.{HasCause};
ghost use Rattle.recording_model.specs.declared.stream.StreamDoc.{StreamDoc as StreamValue};
ghost use Rattle.recording_model.specs.Batch.{Batch};
ghost use Rattle.loss_model.specs.Loss.{behind_last};
ghost use Rattle.record_writer.specs.Desk.{next_at, shapes_of, IsFreeFor};
ghost use Rattle.record_writer.specs.Standing.{StandsFor, IsCut, closed};
ghost use Rattle.run_model.specs.Putting.{IsCutAt};
ghost use Rattle.run_model.specs.Rings.{ring_entry};
ghost use Rattle.feed_lane.specs.Lanes.{IsPutOut};

use crate::terms::FullBlocks;
use block_pool::Giver;
use rec_base::Sink;
use record_writer::{Writer, WriterFault};
use sample_pool::Block;
use sample_values::Shape;
use std::marker::Model;
use std::sync::Wait;
use thread_ring::Head;

/// The head of the ring, and the end of the pool that gives.
#[derive(Drop)]
pub(crate) struct BlockHead {
    pub(crate) shape: Shape,
    pub(crate) head: Head<Block, FullBlocks>,
    pub(crate) giver: Giver,
}

impl Model for BlockHead {
    ghost use Rattle.std.specs.Prelude.{◌≡◌};
    ghost use Rattle.feed_lane.specs.Lanes.{HeadView};
    ghost use Rattle.feed_lane.specs.Kinds.{AreNumeric, block_head, block_terms, longest};

    ghost Value = { HeadView };

    ghost view = { λ h. block_head h.shape h.head h.giver };

    ghost invariant = { λ h. AreNumeric h.shape × (h.head.terms ≡ block_terms h.shape) × (h.giver.length ≡ longest h.shape) };
}

impl BlockHead {
    /// As [`crate::LaneHead::put_oldest`].
    pub(crate) fn put_oldest<K: Sink, R: Wait>(
        &mut self,
        rt: &R,
        writer: &mut Writer<'_, K>,
        place: usize,
    ) -> Result<bool, WriterFault>
        requires place { place < length writer.old.room.desk.places }
        requires free { IsFreeFor writer.old.room.desk place }
        requires whole { writer.old.room.desk.broken ≡ false }
        requires next { next_at writer.old.room.desk place ≡ behind_last (map ring_entry self.old.taken) }
        requires shape { slice_get (shapes_of writer.old.room.desk) place ≡ Some self.old.lane.shape }
        ensures same_reference { writer.new.sink.ghost_name ≡ writer.old.sink.ghost_name }
        ensures same { self.new.lane ≡ self.old.lane }
        ensures out { IfOk result (λ some. IsPutOut self.old self.new place writer.old.room.desk writer.new.room.desk (K.held writer.old.sink.now) (K.held writer.new.sink.now) some) }
        ensures cut { (streams : List StreamValue) (base : Option (List ℕ)) (batches : List Batch) (current : Option Batch)
            → StandsFor streams base (K.held writer.old.sink.now) writer.old.room.desk batches current
            → OnErr result ((some : List Batch) × IsCut streams base (K.held writer.new.sink.now) some × IsCutAt place self.old.taken self.new.taken (closed batches current) some) }
        ensures fault { IfErr result (λ f. f ≡ WriterFault.WriteFault) }
        ensures cause { HasCause (K.write_faults writer.old.sink.now) (K.write_faults writer.new.sink.now) result }
        ensures rest { K.rest writer.new.sink.now ≡ K.rest writer.old.sink.now }
    {
        let Some(entry) = self.head.take(rt) else {
            return Ok(false);
        };
        let put = writer.put_block(place, entry.position, &entry.value);
        self.giver.give_block(rt, entry.value);
        put?;
        Ok(true)
    }
}
