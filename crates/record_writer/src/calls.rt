//! The calls of a writer, on a desk and a sink.

ghost use Rattle.std.specs.Prelude.{◌≡◌, ◌≤◌, ◌<◌, ◌+◌, ◌==◌, ◌^◌, OnOk, OnErr, IfOk, IfErr, IsErrOf, Option, Some, None, List, [], ℕ, slice_get, length, sum_by, true, false, if◌then◌else◌};
ghost use Rattle.rec_base.specs.Causes.{Blames, HasCause};
ghost use Rattle.xdf_model.specs.Sample.{Sample as SampleValue, FitsShape, least_sample_text};
ghost use Rattle.feed_model.specs.Feed.{text_size, text_limit};
ghost use Rattle.recording_model.specs.declared.stream.StreamDoc.{StreamDoc as StreamValue};
ghost use Rattle.recording_model.specs.Batch.{Batch};
ghost use Rattle.record_writer.specs.declared.place.Place.{Place as PlaceValue};

use crate::desk::Desk;
use crate::fault::WriterFault;
use crate::written::Written;
use rec_base::Sink;
use sample_values::{Sample, put_sample};

impl Desk {
    ghost use Rattle.record_writer.specs.Desk.{next_at, shapes_of, IsFreeFor};
    ghost use Rattle.record_writer.specs.Standing.{IsReady, StandsFor, IsCut, IsFinished, closed, with_entry};

    /// Writes the front of the file.
    pub(crate) fn begin<K: Sink>(&mut self, sink: &mut K) -> Result<(), WriterFault>
        requires whole { self.old.broken ≡ false }
        ensures begun { (streams : List StreamValue) → IsReady streams self.old → OnOk result (StandsFor streams (K.held sink.old) (K.held sink.new) self.new [] None) }
        ensures cut { (streams : List StreamValue) → IsReady streams self.old → OnErr result (IsCut streams (K.held sink.old) (K.held sink.new) []) }
        ensures fault { IfErr result (λ f. f ≡ WriterFault.WriteFault) }
        ensures kept { OnOk result (self.new ≡ self.old) }
        ensures broken { OnErr result (self.new.broken ≡ true) }
        ensures cause { HasCause (K.write_faults sink.old) (K.write_faults sink.new) result }
        ensures rest { K.rest sink.new ≡ K.rest sink.old }
    {
        self.write_front(sink)?;
        Ok(())
    }

    /// Puts a sample. Its text is made in `scratch`.
    pub(crate) fn put<K: Sink>(
        &mut self,
        scratch: &mut Vec<u8>,
        sink: &mut K,
        place: usize,
        position: u64,
        sample: &Sample,
    ) -> Result<(), WriterFault>
        requires place { place < length self.old.places }
        requires position { position < 2 ^ 41 }
        requires low { next_at self.old place ≤ position }
        requires free { IsFreeFor self.old place }
        requires fits { (x : PlaceValue) → slice_get self.old.places place ≡ Some x → FitsShape x.shape sample.now }
        requires short { sum_by text_size sample.now.values ≤ text_limit }
        requires whole { self.old.broken ≡ false }
        ensures put { (streams : List StreamValue) (base : Option (List ℕ)) (batches : List Batch) (current : Option Batch)
            → StandsFor streams base (K.held sink.old) self.old batches current
            → OnOk result (StandsFor streams base (K.held sink.new) self.new batches (Some (with_entry place current position sample.now))) }
        ensures cut { (streams : List StreamValue) (base : Option (List ℕ)) (batches : List Batch) (current : Option Batch)
            → StandsFor streams base (K.held sink.old) self.old batches current
            → IsErrOf result WriterFault.WriteFault → IsCut streams base (K.held sink.new) (closed batches (Some (with_entry place current position sample.now))) }
        ensures memory { IsErrOf result WriterFault.Memory → (self.new ≡ self.old) × (sink.new ≡ sink.old) }
        ensures next { OnOk result ((p : ℕ) → next_at self.new p ≡ (if p == place then position + 1 else next_at self.old p)) }
        ensures shapes { OnOk result (shapes_of self.new ≡ shapes_of self.old) }
        ensures open { OnOk result ((1 ≤ self.new.count) × (self.new.place ≡ place)) }
        ensures whole { OnOk result (self.new.broken ≡ false) }
        ensures broken { IsErrOf result WriterFault.WriteFault → self.new.broken ≡ true }
        ensures cause { Blames (IsErrOf result WriterFault.WriteFault) (K.write_faults sink.old) (K.write_faults sink.new) }
        ensures rest { K.rest sink.new ≡ K.rest sink.old }
    {
        let shape = self.spot(place).shape;
        scratch.clear();
        put_sample(&shape, sample, scratch)?;
        self.make_room(scratch.len())?;
        self.put_text(sink, place, position, scratch)?;
        Ok(())
    }

    /// Puts the sample whose text this is.
    #[inline]
    pub(crate) fn put_ready<K: Sink>(
        &mut self,
        sink: &mut K,
        place: usize,
        position: u64,
        text: &[u8],
    ) -> Result<(), WriterFault>
        requires place { place < length self.old.places }
        requires position { position < 2 ^ 41 }
        requires low { next_at self.old place ≤ position }
        requires free { IsFreeFor self.old place }
        requires some { 1 ≤ length text.now }
        requires short { length text.now ≤ 1_048_576 }
        requires whole { self.old.broken ≡ false }
        ensures put { (streams : List StreamValue) (base : Option (List ℕ)) (batches : List Batch) (current : Option Batch) (sample : SampleValue) (x : PlaceValue)
            → StandsFor streams base (K.held sink.old) self.old batches current
            → slice_get self.old.places place ≡ Some x → text.now ≡ least_sample_text x.shape sample → FitsShape x.shape sample
            → OnOk result (StandsFor streams base (K.held sink.new) self.new batches (Some (with_entry place current position sample))) }
        ensures cut { (streams : List StreamValue) (base : Option (List ℕ)) (batches : List Batch) (current : Option Batch) (sample : SampleValue) (x : PlaceValue)
            → StandsFor streams base (K.held sink.old) self.old batches current
            → slice_get self.old.places place ≡ Some x → text.now ≡ least_sample_text x.shape sample → FitsShape x.shape sample
            → OnErr result (IsCut streams base (K.held sink.new) (closed batches (Some (with_entry place current position sample)))) }
        ensures fault { IfErr result (λ f. f ≡ WriterFault.WriteFault) }
        ensures next { OnOk result ((p : ℕ) → next_at self.new p ≡ (if p == place then position + 1 else next_at self.old p)) }
        ensures shapes { OnOk result (shapes_of self.new ≡ shapes_of self.old) }
        ensures open { OnOk result ((1 ≤ self.new.count) × (self.new.place ≡ place)) }
        ensures whole { OnOk result (self.new.broken ≡ false) }
        ensures broken { OnErr result (self.new.broken ≡ true) }
        ensures cause { HasCause (K.write_faults sink.old) (K.write_faults sink.new) result }
        ensures rest { K.rest sink.new ≡ K.rest sink.old }
    {
        let _room = self.texts.room();
        self.spot(place);
        match self.put_text(sink, place, position, text) {
            Ok(()) => Ok(()),
            Err(_) => Err(WriterFault::WriteFault),
        }
    }

    /// Writes the open batch.
    pub(crate) fn close<K: Sink>(&mut self, sink: &mut K) -> Result<(), WriterFault>
        requires whole { self.old.broken ≡ false }
        ensures closed { (streams : List StreamValue) (base : Option (List ℕ)) (batches : List Batch) (current : Option Batch)
            → StandsFor streams base (K.held sink.old) self.old batches current
            → OnOk result (StandsFor streams base (K.held sink.new) self.new (closed batches current) None) }
        ensures cut { (streams : List StreamValue) (base : Option (List ℕ)) (batches : List Batch) (current : Option Batch)
            → StandsFor streams base (K.held sink.old) self.old batches current
            → OnErr result (IsCut streams base (K.held sink.new) (closed batches current)) }
        ensures fault { IfErr result (λ f. f ≡ WriterFault.WriteFault) }
        ensures places { OnOk result (self.new.places ≡ self.old.places) }
        ensures none { OnOk result (self.new.count ≡ 0) }
        ensures whole { OnOk result (self.new.broken ≡ false) }
        ensures broken { OnErr result (self.new.broken ≡ true) }
        ensures cause { HasCause (K.write_faults sink.old) (K.write_faults sink.new) result }
        ensures rest { K.rest sink.new ≡ K.rest sink.old }
    {
        self.end_group(sink)?;
        Ok(())
    }

    /// Writes the footers.
    pub(crate) fn finish<K: Sink>(&mut self, sink: &mut K) -> Result<Written, WriterFault>
        requires none { self.old.count ≡ 0 }
        requires whole { self.old.broken ≡ false }
        ensures finished { (streams : List StreamValue) (base : Option (List ℕ)) (batches : List Batch)
            → StandsFor streams base (K.held sink.old) self.old batches None → IfOk result (IsFinished streams base (K.held sink.new) batches) }
        ensures cut { (streams : List StreamValue) (base : Option (List ℕ)) (batches : List Batch)
            → StandsFor streams base (K.held sink.old) self.old batches None → OnErr result (IsCut streams base (K.held sink.new) batches) }
        ensures fault { IfErr result (λ f. f ≡ WriterFault.WriteFault) }
        ensures cause { HasCause (K.write_faults sink.old) (K.write_faults sink.new) result }
        ensures rest { K.rest sink.new ≡ K.rest sink.old }
    {
        self.write_footers(sink)?;
        Ok(self.written())
    }
}
