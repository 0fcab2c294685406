//! The feeds of a recording by turns.

ghost use Rattle.std.specs.Prelude.{◌≡◌, ◌≢◌, ◌≤◌, [], ℕ, List, length, map, slice_get, vec_capacity, Some, IfOk};
ghost use Rattle.std.specs.List.{AllByRecursion};
ghost use Rattle.rec_base.specs.Causes.{Blames};
ghost use Rattle.plan_model.specs.declared.plan.Mode.TheVariants.{Turns};
ghost use Rattle.recording_model.specs.declared.stream.StreamDoc.{StreamDoc as StreamValue};
ghost use Rattle.recording_model.specs.Recording.{AreStreams};
ghost use Rattle.run_model.specs.declared.feed.FeedSource.{FeedSource as FeedValue};
ghost use Rattle.record_run.specs.Inlets.{InletView};
ghost use Rattle.run_model.specs.Fitting.{AreNumbers};
ghost use Rattle.record_run.specs.Opening.{IsNewInlet, AreTurnsFor};
ghost use Rattle.run_model.specs.Outcomes.{IsDone, IsStopped};

use crate::inlet::Inlet;
use crate::turns::record;
use rec_base::{Memory, Sink, Source};
use record_writer::{WriterFault, WriterRoom};
use recording_model::StreamDoc;
use run_model::{FeedReport, FeedSource, Outcome, SourceList};
use std::alloc::Global;
use std::marker::Model;

/// The feeds of a recording by turns, each with its reader and its ring, and the room of the writer.
#[derive(Drop)]
pub(crate) struct TurnRecorder<S: Source> {
    inlets: Vec<Inlet<S>>,
    room: WriterRoom,
    // room for what becomes of the feeds, and for their sources
    reports: Vec<FeedReport>,
    sources: Vec<S>,
    batch: u64,
}

impl<S: Source> Model for TurnRecorder<S> {
    ghost use Rattle.record_run.specs.Opening.{TurnsView, AreTurns};

    ghost Value = { TurnsView S };

    ghost view = { λ r. record { inlets = r.inlets.items; desk = r.room.desk; batch = r.batch } };

    ghost use Rattle.std.specs.Prelude.{◌≡◌, ◌≤◌, [], length, vec_capacity};

    ghost invariant = { λ r. AreTurns (record { inlets = r.inlets.items; desk = r.room.desk; batch = r.batch })
        × (r.reports.items ≡ []) × (length r.inlets.items ≤ vec_capacity r.reports)
        × (r.sources.items ≡ []) × (length r.inlets.items ≤ vec_capacity r.sources) };
}

// An inlet for each feed.
fn new_inlets<S: Source + Drop>(
    alloc: Global,
    ring: usize,
    waiting: usize,
    streams: &[StreamDoc],
    feeds: Vec<FeedSource<S>>,
) -> Result<Vec<Inlet<S>>, Memory>
    requires low { 1 ≤ ring }
    requires high { ring ≤ 1_048_576 }
    requires waiting { waiting ≤ 1_048_576 }
    requires are { AreStreams streams.now }
    requires feeds { length feeds.items ≡ length streams.now }
    ensures count { IfOk result (λ inlets. length inlets.items ≡ length streams.now) }
    ensures each { IfOk result (λ inlets. (place : ℕ) (stream : StreamValue) (feed : FeedValue S) (x : InletView S) → slice_get streams.now place ≡ Some stream
        → slice_get feeds.items place ≡ Some feed → slice_get inlets.items place ≡ Some x → IsNewInlet ring stream feed x) }
{
    let mut feeds = feeds;
    let mut inlets = Vec::with_capacity(alloc, streams.len())?;
    for place in 0..streams.len() {
        // There are few feeds, so moving those behind it costs nothing that counts.
        let feed = feeds.remove(0);
        let stream = &streams[place];
        let inlet = Inlet::new(alloc, stream.id, ring, waiting, stream.shape, feed)?;
        inlets.push(inlet)?;
    }
    Ok(inlets)
}

// The sources of the inlets, into room that was made before.
fn sources_of<S: Source + Drop>(inlets: Vec<Inlet<S>>, sources: Vec<S>) -> Vec<S>
    requires empty { sources.items ≡ [] }
    requires room { length inlets.items ≤ vec_capacity sources }
    ensures { result.items ≡ map (λ x. x.source) inlets.items }
{
    let mut inlets = inlets;
    let mut sources = sources;
    let count = inlets.len();
    for _ in 0..count {
        // There are few inlets, so moving those behind it costs nothing that counts.
        sources.push_reserved(inlets.remove(0).into_source());
    }
    sources
}

impl<S: Source + Send + Drop> TurnRecorder<S> {
    /// As [`crate::Recorder::open`].
    pub(crate) fn open(
        alloc: Global,
        ring: u64,
        batch: u64,
        streams: Vec<StreamDoc>,
        feeds: Vec<FeedSource<S>>,
    ) -> Result<TurnRecorder<S>, Memory>
        requires ring_low { 1 ≤ ring }
        requires ring_high { ring ≤ 1_048_576 }
        requires batch_low { 1 ≤ batch }
        requires batch_high { batch ≤ 65_536 }
        requires are { AreStreams streams.items }
        requires some { 1 ≤ length streams.items }
        requires few { length streams.items ≤ 64 }
        requires short { AllByRecursion (λ s. length s.doc ≤ 1_048_576) streams.items }
        requires feeds { length feeds.items ≡ length streams.items }
        ensures { IfOk result (λ r. AreTurnsFor ring batch streams.items feeds.items r) }
    {
        let room = WriterRoom::new(alloc, &streams)?;
        let reports = Vec::with_capacity(alloc, streams.len())?;
        let sources = Vec::with_capacity(alloc, streams.len())?;
        // A turn reads no more than a batch, and then takes all of it out of the ring.
        let waiting = ring.min(batch) as usize;
        let inlets = new_inlets(alloc, ring as usize, waiting, &streams, feeds)?;
        Ok(TurnRecorder {
            inlets,
            room,
            reports,
            sources,
            batch,
        })
    }

    /// As [`crate::Recorder::run_turns`].
    pub(crate) fn run<K: Sink>(self, sink: &mut K) -> Outcome<S>
        ensures done { (ring batch : ℕ) (streams : List StreamValue) (feeds : List (FeedValue S)) → AreTurnsFor ring batch streams feeds self
            → IsDone S.left S.faults S.mark Turns ring batch streams feeds (K.held sink.old) (K.held sink.new) result }
        ensures stopped { (ring batch : ℕ) (streams : List StreamValue) (feeds : List (FeedValue S)) → AreTurnsFor ring batch streams feeds self
            → IsStopped S.left streams feeds (K.held sink.old) (K.held sink.new) result }
        ensures memory { (ring batch : ℕ) (streams : List StreamValue) (feeds : List (FeedValue S)) → AreTurnsFor ring batch streams feeds self
            → AreNumbers streams → result ≢ Outcome.Memory }
        ensures cause { Blames (result ≡ Outcome.WriteFault) (K.write_faults sink.old) (K.write_faults sink.new) }
        ensures rest { K.rest sink.new ≡ K.rest sink.old }
    {
        let TurnRecorder {
            inlets,
            room,
            reports,
            sources,
            batch,
        } = self;
        let mut inlets = inlets;
        match record(&mut inlets, sink, room, reports, batch) {
            Ok(recorded) => Outcome::Done {
                reports: recorded.reports,
                bytes: recorded.bytes,
                chunks: recorded.chunks,
                sources: SourceList::from_vec(sources_of(inlets, sources)),
            },
            Err(WriterFault::WriteFault) => Outcome::WriteFault,
            Err(WriterFault::Memory) => Outcome::Memory,
        }
    }
}
