//! The ring of a feed, and one sample's way into it and out of it.

ghost use Rattle.std.specs.Prelude.{◌≡◌, ◌≤◌, ◌<◌, ◌≢◌, ◌+◌, ◌*◌, ◌^◌, ℕ, List, [], false, length, slice_get, None, Some, Option, IfOk, IfErr, OnErr, IsErrOf};
ghost use Rattle.rec_base.specs.Causes.{Blames, HasCause};
ghost use Rattle.reading_model.specs.Outlook.{Answered};
ghost use Rattle.xdf_model.specs.declared.types.Shape.{Shape as ShapeValue};
ghost use Rattle.xdf_model.specs.Sample.{Sample as SampleValue, size_of};
ghost use Rattle.ring_model.specs.declared.entry.Entry.{Entry as EntryValue};
ghost use Rattle.recording_model.specs.declared.stream.StreamDoc.{StreamDoc as StreamValue};
ghost use Rattle.recording_model.specs.Batch.{Batch};
ghost use Rattle.record_writer.specs.Desk.{IsFreeFor};
ghost use Rattle.record_writer.specs.Standing.{StandsFor, IsCut, closed};
ghost use Rattle.ring_model.specs.Ring.{new_ring};
ghost use Rattle.inlet_ring.specs.Lone.{StandsFor as RingStandsFor};
ghost use Rattle.inlet_model.specs.Inlet.{feed_kind};
ghost use Rattle.feed_samples.specs.declared.step.FeedStep.{FeedStep as StepValue};
ghost use Rattle.feed_samples.specs.Inlet.{FitsGiven, got, outlook, received_by};
ghost use Rattle.record_run.specs.FeedRings.{IsNoFuller, IsOut, IsPut};
ghost use Rattle.run_model.specs.Putting.{IsTakenAt, IsCutAt};

use feed_samples::{BlockStep, FeedEnd, FeedReader, FillStep};
use rec_base::{Memory, Sink, Source};
use record_writer::{Writer, WriterFault};
use sample_ring::{BlockRing, TextRing};
use sample_values::{Shape, size_of_format};
use std::alloc::Global;
use std::marker::Model;

/// A ring, and the room for its samples, which is used again.
#[derive(Drop)]
pub(crate) enum Rooms {
    /// Numbers, in blocks.
    Numbers(BlockRing),
    /// Texts.
    Texts(TextRing),
}

/// The ring that the samples of a feed wait in.
#[derive(Drop)]
pub(crate) struct FeedRing {
    pub(crate) shape: Shape,
    pub(crate) rooms: Rooms,
}

impl Model for FeedRing {
    ghost use Rattle.record_run.specs.FeedRings.{FeedRingView, lone_in, AreRoomsFor};

    ghost Value = { FeedRingView };

    ghost view = { λ r. record { shape = r.shape; lone = lone_in r.rooms } };

    ghost invariant = { λ r. AreRoomsFor r.shape r.rooms };
}

/// What a feed gave.
#[derive(Clone, Copy, Debug)]
pub(crate) enum Given {
    /// A sample, which is in the ring, and so many entries were dropped for it.
    Sample { drops: u64 },
    /// The feed ended so.
    End(FeedEnd),
    /// There was no memory.
    Memory,
}

// A sample of numbers.
#[inline(always)]
fn take_numbers<S: Source>(ring: &mut BlockRing, reader: &mut FeedReader<S>) -> Given
    requires shape { ring.old.shape ≡ reader.old.inlet.shape }
    requires numeric { 1 ≤ size_of ring.old.shape.format }
    requires count { ring.old.shape.count ≤ 4096 }
    requires size { ring.old.size ≡ 9 + ring.old.shape.count * size_of ring.old.shape.format }
    requires home { ring.old.lent ≡ 0 }
    requires room { ring.old.ring.pushes < 2 ^ 41 }
    ensures given { (step : StepValue) × IsPut ring.old.ring ring.new.ring step result
        × Answered feed_kind (outlook reader.old.inlet) (outlook reader.new.inlet) (S.left reader.old.source) (S.left reader.new.source) (got step)
        × FitsGiven reader.old.inlet.shape step × (reader.new.inlet.received ≡ received_by step reader.old.inlet.received) }
    ensures kept { (ring.new.shape ≡ ring.old.shape) × (ring.new.size ≡ ring.old.size) × (ring.new.lent ≡ 0) }
    ensures bounded { reader.new.inlet.received ≤ reader.new.inlet.byte_limit }
    ensures same_shape { (reader.new.inlet.shape ≡ reader.old.inlet.shape) × (reader.new.inlet.byte_limit ≡ reader.old.inlet.byte_limit) }
    ensures cause { Blames (((outlook reader.old.inlet).is_over ≡ false) × (result ≡ Given.End FeedEnd.ReadFault)) (S.faults reader.old.source) (S.faults reader.new.source) }
    ensures marked { S.mark reader.new.source ≡ S.mark reader.old.source }
    ensures memory { result ≢ Given.Memory }
{
    let mut block = ring.lend();
    match reader.next_block(&mut block) {
        BlockStep::Filled => Given::Sample {
            drops: ring.push(block),
        },
        BlockStep::End(end) => {
            ring.give(block);
            Given::End(end)
        }
    }
}

// A sample of texts, or of any other kind.
fn take_texts<S: Source>(ring: &mut TextRing, reader: &mut FeedReader<S>) -> Given
    requires low { 1 ≤ ring.old.capacity }
    requires room { ring.old.pushes < 2 ^ 41 }
    ensures given { (step : StepValue) × IsPut ring.old ring.new step result
        × Answered feed_kind (outlook reader.old.inlet) (outlook reader.new.inlet) (S.left reader.old.source) (S.left reader.new.source) (got step)
        × FitsGiven reader.old.inlet.shape step × (reader.new.inlet.received ≡ received_by step reader.old.inlet.received) }
    ensures bounded { reader.new.inlet.received ≤ reader.new.inlet.byte_limit }
    ensures same_shape { (reader.new.inlet.shape ≡ reader.old.inlet.shape) × (reader.new.inlet.byte_limit ≡ reader.old.inlet.byte_limit) }
    ensures cause { Blames (((outlook reader.old.inlet).is_over ≡ false) × (result ≡ Given.End FeedEnd.ReadFault)) (S.faults reader.old.source) (S.faults reader.new.source) }
    ensures marked { S.mark reader.new.source ≡ S.mark reader.old.source }
{
    let mut sample = ring.lend();
    match reader.next_into(&mut sample) {
        FillStep::Filled => Given::Sample {
            drops: ring.push(sample),
        },
        FillStep::End(end) => {
            ring.give(sample);
            Given::End(end)
        }
        FillStep::Memory => {
            ring.give(sample);
            Given::Memory
        }
    }
}

// The oldest sample of numbers.
#[inline(always)]
fn put_numbers<K: Sink>(
    ring: &mut BlockRing,
    writer: &mut Writer<'_, K>,
    place: usize,
) -> Result<bool, WriterFault>
    requires place { place < length writer.old.room.desk.places }
    requires free { IsFreeFor writer.old.room.desk place }
    requires whole { writer.old.room.desk.broken ≡ false }
    requires numeric { 1 ≤ size_of ring.old.shape.format }
    requires count { ring.old.shape.count ≤ 4096 }
    requires home { ring.old.lent ≡ 0 }
    requires taken { (e : EntryValue SampleValue) → slice_get ring.old.ring.queue 0 ≡ Some e → IsTakenAt writer.old.room.desk place ring.old.shape e }
    ensures same_reference { writer.new.sink.ghost_name ≡ writer.old.sink.ghost_name }
    ensures out { IfOk result (λ some. IsOut ring.old.ring ring.new.ring place writer.old.room.desk writer.new.room.desk (K.held writer.old.sink.now) (K.held writer.new.sink.now) some) }
    ensures fewer { IsNoFuller ring.old.ring ring.new.ring }
    ensures kept { (ring.new.shape ≡ ring.old.shape) × (ring.new.size ≡ ring.old.size) × (ring.new.lent ≡ 0) }
    ensures cut { (streams : List StreamValue) (base : Option (List ℕ)) (batches : List Batch) (current : Option Batch)
        → StandsFor streams base (K.held writer.old.sink.now) writer.old.room.desk batches current
        → OnErr result ((some : List Batch) × IsCut streams base (K.held writer.new.sink.now) some × IsCutAt place [] ring.old.ring.queue (closed batches current) some) }
    ensures fault { IfErr result (λ f. f ≡ WriterFault.WriteFault) }
    ensures cause { HasCause (K.write_faults writer.old.sink.now) (K.write_faults writer.new.sink.now) result }
    ensures rest { K.rest writer.new.sink.now ≡ K.rest writer.old.sink.now }
{
    let Some(entry) = ring.take() else {
        return Ok(false);
    };
    let put = writer.put_block(place, entry.position, &entry.value);
    ring.give(entry.value);
    match put {
        Ok(()) => Ok(true),
        Err(fault) => Err(fault),
    }
}

// The oldest sample of texts.
fn put_texts<K: Sink>(
    ring: &mut TextRing,
    writer: &mut Writer<'_, K>,
    place: usize,
    shape: &Shape,
) -> Result<bool, WriterFault>
    requires place { place < length writer.old.room.desk.places }
    requires free { IsFreeFor writer.old.room.desk place }
    requires whole { writer.old.room.desk.broken ≡ false }
    requires taken { (e : EntryValue SampleValue) → slice_get ring.old.queue 0 ≡ Some e → IsTakenAt writer.old.room.desk place shape.now e }
    ensures same_reference { writer.new.sink.ghost_name ≡ writer.old.sink.ghost_name }
    ensures out { IfOk result (λ some. IsOut ring.old ring.new place writer.old.room.desk writer.new.room.desk (K.held writer.old.sink.now) (K.held writer.new.sink.now) some) }
    ensures fewer { IsNoFuller ring.old ring.new }
    ensures cut { (streams : List StreamValue) (base : Option (List ℕ)) (batches : List Batch) (current : Option Batch)
        → StandsFor streams base (K.held writer.old.sink.now) writer.old.room.desk batches current
        → OnErr result ((some : List Batch) × IsCut streams base (K.held writer.new.sink.now) some × IsCutAt place [] ring.old.queue (closed batches current) some) }
    ensures cause { Blames (IsErrOf result WriterFault.WriteFault) (K.write_faults writer.old.sink.now) (K.write_faults writer.new.sink.now) }
    ensures rest { K.rest writer.new.sink.now ≡ K.rest writer.old.sink.now }
{
    let Some(entry) = ring.take() else {
        return Ok(false);
    };
    let put = writer.put(place, entry.position, &entry.value);
    ring.give(entry.value);
    match put {
        Ok(()) => Ok(true),
        Err(fault) => Err(fault),
    }
}

impl FeedRing {
    /// An empty ring of so many samples, with room for as many and two more: of numbers all of it, of
    /// texts as they come. By turns at most `waiting` samples are in it at once.
    pub(crate) fn new(
        alloc: Global,
        shape: Shape,
        capacity: usize,
        waiting: usize,
    ) -> Result<FeedRing, Memory>
        requires low { 1 ≤ capacity }
        requires high { capacity ≤ 1_048_576 }
        requires count { shape.count ≤ 4096 }
        requires waiting { waiting ≤ 1_048_576 }
        ensures shape { IfOk result (λ r. r.shape ≡ shape) }
        ensures empty { IfOk result (λ r. (r.lone.queue ≡ []) × (r.lone.pushes ≡ 0) × (r.lone.capacity ≡ capacity)) }
        ensures stands { IfOk result (λ r. RingStandsFor r.lone new_ring) }
    {
        let rooms = match size_of_format(shape.format) {
            0 => Rooms::Texts(TextRing::new(alloc, capacity, waiting + 2)?),
            size => {
                let longest = 9 + shape.count as usize * size as usize;
                Rooms::Numbers(BlockRing::new(alloc, shape, capacity, longest)?)
            }
        };
        Ok(FeedRing { shape, rooms })
    }

    /// What the reader answers next; a sample goes into the ring. With numbers it takes no memory.
    #[inline(always)]
    pub(crate) fn take_from<S: Source>(&mut self, reader: &mut FeedReader<S>) -> Given
        requires shape { self.old.shape ≡ reader.old.inlet.shape }
        requires low { 1 ≤ self.old.lone.capacity }
        requires room { self.old.lone.pushes < 2 ^ 41 }
        ensures given { (step : StepValue) × IsPut self.old.lone self.new.lone step result
            × Answered feed_kind (outlook reader.old.inlet) (outlook reader.new.inlet) (S.left reader.old.source) (S.left reader.new.source) (got step)
            × FitsGiven reader.old.inlet.shape step × (reader.new.inlet.received ≡ received_by step reader.old.inlet.received) }
        ensures shape { self.new.shape ≡ self.old.shape }
        ensures bounded { reader.new.inlet.received ≤ reader.new.inlet.byte_limit }
        ensures same_shape { (reader.new.inlet.shape ≡ reader.old.inlet.shape) × (reader.new.inlet.byte_limit ≡ reader.old.inlet.byte_limit) }
        ensures cause { Blames (((outlook reader.old.inlet).is_over ≡ false) × (result ≡ Given.End FeedEnd.ReadFault)) (S.faults reader.old.source) (S.faults reader.new.source) }
        ensures marked { S.mark reader.new.source ≡ S.mark reader.old.source }
        ensures memory { 1 ≤ size_of self.old.shape.format → result ≢ Given.Memory }
    {
        match &mut self.rooms {
            Rooms::Numbers(ring) => take_numbers(ring, reader),
            Rooms::Texts(ring) => take_texts(ring, reader),
        }
    }

    /// Puts the oldest sample to the stream at a place; `false` comes exactly where there is none. With
    /// numbers it takes no memory.
    #[inline(always)]
    pub(crate) fn put_oldest<K: Sink>(
        &mut self,
        writer: &mut Writer<'_, K>,
        place: usize,
    ) -> Result<bool, WriterFault>
        requires place { place < length writer.old.room.desk.places }
        requires free { IsFreeFor writer.old.room.desk place }
        requires whole { writer.old.room.desk.broken ≡ false }
        requires taken { (e : EntryValue SampleValue) → slice_get self.old.lone.queue 0 ≡ Some e → IsTakenAt writer.old.room.desk place self.old.shape e }
        ensures same_reference { writer.new.sink.ghost_name ≡ writer.old.sink.ghost_name }
        ensures out { IfOk result (λ some. IsOut self.old.lone self.new.lone place writer.old.room.desk writer.new.room.desk (K.held writer.old.sink.now) (K.held writer.new.sink.now) some) }
        ensures fewer { IsNoFuller self.old.lone self.new.lone }
        ensures shape { self.new.shape ≡ self.old.shape }
        ensures cut { (streams : List StreamValue) (base : Option (List ℕ)) (batches : List Batch) (current : Option Batch)
            → StandsFor streams base (K.held writer.old.sink.now) writer.old.room.desk batches current
            → OnErr result ((some : List Batch) × IsCut streams base (K.held writer.new.sink.now) some × IsCutAt place [] self.old.lone.queue (closed batches current) some) }
        ensures memory { IsErrOf result WriterFault.Memory → 1 ≤ size_of self.old.shape.format → ⊥ }
        ensures cause { Blames (IsErrOf result WriterFault.WriteFault) (K.write_faults writer.old.sink.now) (K.write_faults writer.new.sink.now) }
        ensures rest { K.rest writer.new.sink.now ≡ K.rest writer.old.sink.now }
    {
        match &mut self.rooms {
            Rooms::Numbers(ring) => put_numbers(ring, writer, place),
            Rooms::Texts(ring) => put_texts(ring, writer, place, &self.shape),
        }
    }
}
