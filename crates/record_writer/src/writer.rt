//! The writer of a recording, entry by entry.

ghost use Rattle.std.specs.Prelude.{◌≡◌, ◌≤◌, ◌<◌, ◌+◌, ◌==◌, ◌^◌, OnOk, OnErr, IfOk, IfErr, IsErrOf, Option, Some, None, List, [], ℕ, slice_get, length, map, sum_by, true, false, if◌then◌else◌};
ghost use Rattle.std.specs.List.{AllByRecursion};
ghost use Rattle.rec_base.specs.Causes.{Blames, HasCause};
ghost use Rattle.xdf_model.specs.Sample.{Sample as SampleValue, FitsShape, least_sample_text};
ghost use Rattle.feed_model.specs.Feed.{text_size, text_limit};
ghost use Rattle.recording_model.specs.declared.stream.StreamDoc.{StreamDoc as StreamValue};
ghost use Rattle.recording_model.specs.Batch.{Batch};
ghost use Rattle.recording_model.specs.Recording.{AreStreams};
ghost use Rattle.record_writer.specs.declared.place.Place.{Place as PlaceValue};

use crate::fault::WriterFault;
use crate::room::WriterRoom;
use crate::written::Written;
use rec_base::{Failed, Sink};
use recording_model::StreamDoc;
use sample_pool::{Block, block_bytes};
use sample_values::Sample;
use std::alloc::Global;

/// A sink that is lent, and the room that is used on it.
///
/// The room is a type parameter so that contracts can say what the sink holds once the whole is
/// given up.
#[derive(Drop)]
pub struct Lent<'a, K: Sink, R> {
    /// Where the file goes. Contracts name it; whoever writes to it beside the writer spoils the file.
    pub sink: &'a mut K,
    /// What is kept beside it.
    pub room: R,
}

/// Writes the file of a recording into a sink, entry by entry.
///
/// A batch is opened by its first entry and closed by `close_batch`; between the two only its own
/// stream is put to. No history is kept: the clauses speak of every list of batches that the writer
/// may stand for.
pub type Writer<'a, K> = Lent<'a, K, WriterRoom>;

impl<'a, K: Sink> Lent<'a, K, WriterRoom> {
    ghost use Rattle.record_writer.specs.Desk.{new_place, next_at, shapes_of, IsFreeFor};
    ghost use Rattle.record_writer.specs.Standing.{IsReady, StandsFor, IsCut, IsFinished, closed, with_entry};

    /// A writer over a sink. Nothing is written yet; `begin` comes next.
    pub fn over(sink: &'a mut K, room: WriterRoom) -> Lent<'a, K, WriterRoom>
        ensures same_reference { result.sink.ghost_name ≡ sink.entry.ghost_name }
        ensures sink { result.sink.now ≡ sink.old }
        ensures room { result.room ≡ room }
    {
        Lent { sink, room }
    }

    /// Writes the magic and the headers of a recording: of the file, of the ledger and of the streams
    /// in order. The file is XDF 1.0; its documents and its order are this project's own. It takes no
    /// memory.
    ///
    /// `WriteFault` comes only where a write of the sink failed in this call. A front of these bytes
    /// went out then, and the writer is broken.
    pub fn begin(&mut self) -> Result<(), WriterFault>
        requires whole { self.old.room.desk.broken ≡ false }
        ensures same_reference { self.new.sink.ghost_name ≡ self.old.sink.ghost_name }
        ensures begun { (streams : List StreamValue) → IsReady streams self.old.room.desk
            → OnOk result (StandsFor streams (K.held self.old.sink.now) (K.held self.new.sink.now) self.new.room.desk [] None) }
        ensures cut { (streams : List StreamValue) → IsReady streams self.old.room.desk
            → OnErr result (IsCut streams (K.held self.old.sink.now) (K.held self.new.sink.now) []) }
        ensures fault { IfErr result (λ f. f ≡ WriterFault.WriteFault) }
        ensures kept { OnOk result (self.new.room.desk ≡ self.old.room.desk) }
        ensures broken { OnErr result (self.new.room.desk.broken ≡ true) }
        ensures cause { HasCause (K.write_faults self.old.sink.now) (K.write_faults self.new.sink.now) result }
        ensures rest { K.rest self.new.sink.now ≡ K.rest self.old.sink.now }
    {
        self.room.desk.begin(self.sink)
    }

    /// Puts the sample at a position of the stream at a place, both counted from 0. Where positions are
    /// missing before it, a row of the ledger says so. Where the samples of the open chunk and this one
    /// would have more than 1,048,576 bytes together, the open one is written first; a boundary stands
    /// behind each chunk that ends 65,536 bytes or more behind the last one. All this is this project's
    /// own. The room for samples of numeric streams is made before, so these ask for no memory.
    ///
    /// `WriteFault` comes only where a write of the sink failed in this call. A front of the text of a
    /// recording's first chunks is held then, and the writer is broken. `Memory` comes for want of memory
    /// alone, and changes nothing.
    pub fn put(&mut self, place: usize, position: u64, sample: &Sample) -> Result<(), WriterFault>
        requires place { place < length self.old.room.desk.places }
        requires position { position < 2 ^ 41 }
        requires low { next_at self.old.room.desk place ≤ position }
        requires free { IsFreeFor self.old.room.desk place }
        requires fits { (x : PlaceValue) → slice_get self.old.room.desk.places place ≡ Some x → FitsShape x.shape sample.now }
        requires short { sum_by text_size sample.now.values ≤ text_limit }
        requires whole { self.old.room.desk.broken ≡ false }
        ensures same_reference { self.new.sink.ghost_name ≡ self.old.sink.ghost_name }
        ensures put { (streams : List StreamValue) (base : Option (List ℕ)) (batches : List Batch) (current : Option Batch)
            → StandsFor streams base (K.held self.old.sink.now) self.old.room.desk batches current
            → OnOk result (StandsFor streams base (K.held self.new.sink.now) self.new.room.desk batches (Some (with_entry place current position sample.now))) }
        ensures cut { (streams : List StreamValue) (base : Option (List ℕ)) (batches : List Batch) (current : Option Batch)
            → StandsFor streams base (K.held self.old.sink.now) self.old.room.desk batches current
            → IsErrOf result WriterFault.WriteFault → IsCut streams base (K.held self.new.sink.now) (closed batches (Some (with_entry place current position sample.now))) }
        ensures memory { IsErrOf result WriterFault.Memory → (self.new.room.desk ≡ self.old.room.desk) × (self.new.sink.now ≡ self.old.sink.now) }
        ensures next { OnOk result ((p : ℕ) → next_at self.new.room.desk p ≡ (if p == place then position + 1 else next_at self.old.room.desk p)) }
        ensures shapes { OnOk result (shapes_of self.new.room.desk ≡ shapes_of self.old.room.desk) }
        ensures open { OnOk result ((1 ≤ self.new.room.desk.count) × (self.new.room.desk.place ≡ place)) }
        ensures whole { OnOk result (self.new.room.desk.broken ≡ false) }
        ensures broken { IsErrOf result WriterFault.WriteFault → self.new.room.desk.broken ≡ true }
        ensures cause { Blames (IsErrOf result WriterFault.WriteFault) (K.write_faults self.old.sink.now) (K.write_faults self.new.sink.now) }
        ensures rest { K.rest self.new.sink.now ≡ K.rest self.old.sink.now }
    {
        self.room
            .desk
            .put(&mut self.room.scratch, self.sink, place, position, sample)
    }

    /// Puts the sample whose text a block holds, at a position of the stream at a place, as
    /// [`put`](Lent::put) puts a sample: rows, chunks and boundaries are the same. The text is what the
    /// file has for the sample (XDF 1.0, "Samples chunk"), its numbers lowest byte first, and has at most
    /// 1,048,576 bytes. It takes no memory.
    ///
    /// `WriteFault` is the only error, and comes only where a write of the sink failed in this call. A
    /// front of the text of a recording's first chunks is held then, and the writer is broken.
    #[inline]
    pub fn put_block(
        &mut self,
        place: usize,
        position: u64,
        block: &Block,
    ) -> Result<(), WriterFault>
        requires place { place < length self.old.room.desk.places }
        requires position { position < 2 ^ 41 }
        requires low { next_at self.old.room.desk place ≤ position }
        requires free { IsFreeFor self.old.room.desk place }
        requires some { 1 ≤ length block.now.bytes }
        requires short { length block.now.bytes ≤ 1_048_576 }
        requires whole { self.old.room.desk.broken ≡ false }
        ensures same_reference { self.new.sink.ghost_name ≡ self.old.sink.ghost_name }
        ensures put { (streams : List StreamValue) (base : Option (List ℕ)) (batches : List Batch) (current : Option Batch) (sample : SampleValue) (x : PlaceValue)
            → StandsFor streams base (K.held self.old.sink.now) self.old.room.desk batches current
            → slice_get self.old.room.desk.places place ≡ Some x → block.now.bytes ≡ least_sample_text x.shape sample → FitsShape x.shape sample
            → OnOk result (StandsFor streams base (K.held self.new.sink.now) self.new.room.desk batches (Some (with_entry place current position sample))) }
        ensures cut { (streams : List StreamValue) (base : Option (List ℕ)) (batches : List Batch) (current : Option Batch) (sample : SampleValue) (x : PlaceValue)
            → StandsFor streams base (K.held self.old.sink.now) self.old.room.desk batches current
            → slice_get self.old.room.desk.places place ≡ Some x → block.now.bytes ≡ least_sample_text x.shape sample → FitsShape x.shape sample
            → OnErr result (IsCut streams base (K.held self.new.sink.now) (closed batches (Some (with_entry place current position sample)))) }
        ensures fault { IfErr result (λ f. f ≡ WriterFault.WriteFault) }
        ensures next { OnOk result ((p : ℕ) → next_at self.new.room.desk p ≡ (if p == place then position + 1 else next_at self.old.room.desk p)) }
        ensures shapes { OnOk result (shapes_of self.new.room.desk ≡ shapes_of self.old.room.desk) }
        ensures open { OnOk result ((1 ≤ self.new.room.desk.count) × (self.new.room.desk.place ≡ place)) }
        ensures whole { OnOk result (self.new.room.desk.broken ≡ false) }
        ensures broken { OnErr result (self.new.room.desk.broken ≡ true) }
        ensures cause { HasCause (K.write_faults self.old.sink.now) (K.write_faults self.new.sink.now) result }
        ensures rest { K.rest self.new.sink.now ≡ K.rest self.old.sink.now }
    {
        self.room
            .desk
            .put_ready(self.sink, place, position, block_bytes(block))
    }

    /// Closes the open batch, if there is one: its last chunk is written. It takes no memory.
    ///
    /// `WriteFault` comes only where a write of the sink failed in this call. A front of the text of a
    /// recording's first chunks is held then, and the writer is broken.
    pub fn close_batch(&mut self) -> Result<(), WriterFault>
        requires whole { self.old.room.desk.broken ≡ false }
        ensures same_reference { self.new.sink.ghost_name ≡ self.old.sink.ghost_name }
        ensures closed { (streams : List StreamValue) (base : Option (List ℕ)) (batches : List Batch) (current : Option Batch)
            → StandsFor streams base (K.held self.old.sink.now) self.old.room.desk batches current
            → OnOk result (StandsFor streams base (K.held self.new.sink.now) self.new.room.desk (closed batches current) None) }
        ensures cut { (streams : List StreamValue) (base : Option (List ℕ)) (batches : List Batch) (current : Option Batch)
            → StandsFor streams base (K.held self.old.sink.now) self.old.room.desk batches current
            → OnErr result (IsCut streams base (K.held self.new.sink.now) (closed batches current)) }
        ensures fault { IfErr result (λ f. f ≡ WriterFault.WriteFault) }
        ensures places { OnOk result (self.new.room.desk.places ≡ self.old.room.desk.places) }
        ensures none { OnOk result (self.new.room.desk.count ≡ 0) }
        ensures whole { OnOk result (self.new.room.desk.broken ≡ false) }
        ensures broken { OnErr result (self.new.room.desk.broken ≡ true) }
        ensures cause { HasCause (K.write_faults self.old.sink.now) (K.write_faults self.new.sink.now) result }
        ensures rest { K.rest self.new.sink.now ≡ K.rest self.old.sink.now }
    {
        self.room.desk.close(self.sink)
    }

    /// Writes the footers in the order of the headers: the ledger's counts its rows, a stream's its
    /// samples in the file and its lost positions. It answers the size of the file and its number of
    /// chunks. It takes no memory.
    ///
    /// `WriteFault` comes only where a write of the sink failed in this call. A front of the recording's
    /// file is held then.
    pub fn finish(self) -> Result<Written, WriterFault>
        requires none { self.room.desk.count ≡ 0 }
        requires whole { self.room.desk.broken ≡ false }
        ensures finished { (streams : List StreamValue) (base : Option (List ℕ)) (batches : List Batch)
            → StandsFor streams base (K.held self.entry.sink.now) self.entry.room.desk batches None → IfOk result (IsFinished streams base (K.held self.exit.0.now) batches) }
        ensures cut { (streams : List StreamValue) (base : Option (List ℕ)) (batches : List Batch)
            → StandsFor streams base (K.held self.entry.sink.now) self.entry.room.desk batches None → OnErr result (IsCut streams base (K.held self.exit.0.now) batches) }
        ensures fault { IfErr result (λ f. f ≡ WriterFault.WriteFault) }
        ensures cause { HasCause (K.write_faults self.entry.sink.now) (K.write_faults self.exit.0.now) result }
        ensures rest { K.rest self.exit.0.now ≡ K.rest self.entry.sink.now }
    {
        let mut room = self.room;
        room.desk.finish(self.sink)
    }

    /// Whether a write has failed. The sink then holds a front of a recording's file.
    pub fn broken(&self) -> bool
        ensures { result ≡ self.now.room.desk.broken }
    {
        self.room.desk.is_broken()
    }
}
