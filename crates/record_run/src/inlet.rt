//! An inlet: the reader of a feed, and the ring between it and the writer.

ghost use Rattle.std.specs.Prelude.{◌≡◌, ◌≤◌, ◌<◌, ◌≢◌, ◌-◌, ℕ, List, [], ◌++◌, false, length, map, slice_get, None, Some, Option, IfOk, OnOk, OnErr, IsErrOf};
ghost use Rattle.rec_base.specs.Causes.{Blames};
ghost use Rattle.reading_model.specs.Outlook.{How};
ghost use Rattle.xdf_model.specs.Sample.{size_of};
ghost use Rattle.ring_model.specs.Ring.{new_ring};
ghost use Rattle.inlet_ring.specs.Lone.{StandsFor as RingStandsFor};
ghost use Rattle.inlet_model.specs.Inlet.{feed_counted};
ghost use Rattle.feed_samples.specs.Inlet.{outlook};
ghost use Rattle.recording_model.specs.declared.stream.StreamDoc.{StreamDoc as StreamValue};
ghost use Rattle.recording_model.specs.Batch.{Batch};
ghost use Rattle.turns_model.specs.Turns.{batch_of};
ghost use Rattle.record_writer.specs.Desk.{next_at, shapes_of};
ghost use Rattle.record_writer.specs.Standing.{StandsFor, IsCut};
ghost use Rattle.run_model.specs.Putting.{IsCutAt};
ghost use Rattle.run_model.specs.Run.{byte_limit};
ghost use Rattle.run_model.specs.Rings.{ring_entry};
ghost use Rattle.record_run.specs.Inlets.{IsFilled, IsDrained, AreWaiting};

use crate::ring::{FeedRing, Given};
use feed_samples::{FeedEnd, FeedReader};
use rec_base::{Memory, Sink, Source};
use record_writer::{Writer, WriterFault};
use run_model::{FeedReport, FeedSource};
use sample_values::Shape;
use std::alloc::Global;
use std::marker::Model;

// The most bytes of a feed that count.
const BYTE_LIMIT: u64 = 1_099_511_627_776;

/// The reader of a feed, its end once it was met, and the ring that its samples wait in.
#[derive(Drop)]
pub(crate) struct Inlet<S: Source> {
    id: u32,
    reader: FeedReader<S>,
    ring: FeedRing,
    end: Option<FeedEnd>,
    drops: u64,
}

impl<S: Source> Model for Inlet<S> {
    ghost use Rattle.std.specs.Prelude.{◌≡◌};
    ghost use Rattle.record_run.specs.Inlets.{InletView, IsKept};

    ghost Value = { InletView S };

    ghost invariant = { λ x. IsKept x.reader.inlet x.ring.lone x.drops × (x.ring.shape ≡ x.reader.inlet.shape) };

    ghost view = { λ x. record { id = x.id; source = x.reader.source; inlet = x.reader.inlet; end = x.end; ring = x.ring.lone; drops = x.drops } };
}

impl<S: Source + Drop> Inlet<S> {
    /// An inlet that has read nothing yet. All its memory but that of texts is taken here. At most
    /// `waiting` samples are in its ring at once.
    pub(crate) fn new(
        alloc: Global,
        id: u32,
        capacity: usize,
        waiting: usize,
        shape: Shape,
        feed: FeedSource<S>,
    ) -> Result<Inlet<S>, Memory>
        requires low { 1 ≤ capacity }
        requires high { capacity ≤ 1_048_576 }
        requires waiting { waiting ≤ 1_048_576 }
        requires count { shape.count ≤ 4096 }
        ensures all { IfOk result (λ x. (more : List ℕ) (how : How) → (outlook x.inlet).coming more how ≡ feed_counted feed.uid shape feed.limit byte_limit more how) }
        ensures fresh { IfOk result (λ x. ((outlook x.inlet).is_over ≡ false) × (x.end ≡ None) × (x.drops ≡ 0) × (x.ring.pushes ≡ 0) × (x.ring.queue ≡ [])) }
        ensures source { IfOk result (λ x. x.source ≡ feed.source) }
        ensures same { IfOk result (λ x. (x.id ≡ id) × (x.inlet.shape ≡ shape) × (x.ring.capacity ≡ capacity)) }
        ensures stands { IfOk result (λ x. RingStandsFor x.ring new_ring) }
    {
        let FeedSource { source, uid, limit } = feed;
        let ring = FeedRing::new(alloc, shape, capacity, waiting)?;
        let reader = FeedReader::new(alloc, source, shape, uid, limit, BYTE_LIMIT)?;
        Ok(Inlet {
            id,
            reader,
            ring,
            end: None,
            drops: 0,
        })
    }
}

impl<S: Source> Inlet<S> {
    /// Reads up to `batch` samples into the ring, which is empty, and fewer only where the feed ends.
    ///
    /// `Memory` comes for want of memory alone, and never with numbers.
    pub(crate) fn fill(&mut self, batch: u64) -> Result<(), Memory>
        ensures filled { self.old.ring.queue ≡ [] → OnOk result (IsFilled S.left S.faults S.mark batch self.old self.new) }
        ensures memory { OnErr result (1 ≤ size_of self.old.inlet.shape.format → ⊥) }
    {
        if self.end.is_some() {
            return Ok(());
        }
        for _ in 0..batch {
            match self.ring.take_from(&mut self.reader) {
                Given::Sample { drops } => self.drops += drops,
                Given::End(end) => {
                    self.end = Some(end);
                    return Ok(());
                }
                Given::Memory => return Err(Memory),
            }
        }
        Ok(())
    }

    /// Puts all that waits in the ring to the stream at a place, as one batch.
    ///
    /// `WriteFault` comes only where a write failed in this call; `Memory` for want of memory alone, and
    /// never with numbers.
    pub(crate) fn drain<K: Sink>(
        &mut self,
        writer: &mut Writer<'_, K>,
        place: usize,
    ) -> Result<(), WriterFault>
        requires place { place < length writer.old.room.desk.places }
        requires closed { writer.old.room.desk.count ≡ 0 }
        requires whole { writer.old.room.desk.broken ≡ false }
        requires shape { slice_get (shapes_of writer.old.room.desk) place ≡ Some self.old.inlet.shape }
        requires waiting { AreWaiting self.old.inlet.shape (next_at writer.old.room.desk place) self.old }
        ensures same_reference { writer.new.sink.ghost_name ≡ writer.old.sink.ghost_name }
        ensures drained { OnOk result (IsDrained self.old self.new) }
        ensures put { (streams : List StreamValue) (base : Option (List ℕ)) (batches : List Batch)
            → StandsFor streams base (K.held writer.old.sink.now) writer.old.room.desk batches None
            → OnOk result (StandsFor streams base (K.held writer.new.sink.now) writer.new.room.desk (batches ++ batch_of place (map ring_entry self.old.ring.queue)) None) }
        ensures cut { (streams : List StreamValue) (base : Option (List ℕ)) (batches : List Batch)
            → StandsFor streams base (K.held writer.old.sink.now) writer.old.room.desk batches None
            → OnErr result ((some : List Batch) × IsCut streams base (K.held writer.new.sink.now) some × IsCutAt place [] self.old.ring.queue batches some) }
        ensures next_here { OnOk result (next_at writer.new.room.desk place ≤ self.old.ring.pushes) }
        ensures next_else { OnOk result ((p : ℕ) → p ≢ place → next_at writer.new.room.desk p ≡ next_at writer.old.room.desk p) }
        ensures shapes { OnOk result (shapes_of writer.new.room.desk ≡ shapes_of writer.old.room.desk) }
        ensures closed { OnOk result (writer.new.room.desk.count ≡ 0) }
        ensures whole { OnOk result (writer.new.room.desk.broken ≡ false) }
        ensures memory { IsErrOf result WriterFault.Memory → 1 ≤ size_of self.old.inlet.shape.format → ⊥ }
        ensures cause { Blames (IsErrOf result WriterFault.WriteFault) (K.write_faults writer.old.sink.now) (K.write_faults writer.new.sink.now) }
        ensures rest { K.rest writer.new.sink.now ≡ K.rest writer.old.sink.now }
    {
        'entries: while self.ring.put_oldest(writer, place)? {}
        writer.close_batch()
    }

    /// How the feed ended, once it did.
    pub(crate) fn end(&self) -> Option<FeedEnd>
        ensures { result ≡ self.now.end }
    {
        self.end
    }

    /// What became of the feed, which ended so.
    pub(crate) fn report(&self, end: FeedEnd) -> FeedReport
        ensures { result ≡ record {
          id = self.now.id;
          received = self.now.ring.pushes;
          kept = self.now.ring.pushes - self.now.drops;
          lost = self.now.drops;
          end = end;
        } }
    {
        let received = self.reader.received();
        FeedReport {
            id: self.id,
            received,
            kept: received - self.drops,
            lost: self.drops,
            end,
        }
    }

    /// Gives the source back, as the reading left it.
    pub(crate) fn into_source(self) -> S
        ensures { result ≡ self.source }
    {
        self.reader.into_source()
    }
}
