//! The feeds of a recording by threads, with the room of the writer.

ghost use Rattle.std.specs.Prelude.{◌≡◌, ◌≢◌, ◌≤◌, ℕ, List, length, IfOk};
ghost use Rattle.std.specs.List.{AllByRecursion};
ghost use Rattle.rec_base.specs.Causes.{Blames};
ghost use Rattle.plan_model.specs.declared.plan.Mode.TheVariants.{Threads as ByThreads};
ghost use Rattle.recording_model.specs.declared.stream.StreamDoc.{StreamDoc as StreamValue};
ghost use Rattle.recording_model.specs.Recording.{AreStreams};
ghost use Rattle.run_model.specs.declared.feed.FeedSource.{FeedSource as FeedValue};
ghost use Rattle.run_model.specs.Fitting.{AreNumbers};
ghost use Rattle.run_model.specs.Outcomes.{IsDone, IsStopped};
ghost use Rattle.thread_run.specs.Opening.{AreThreadsFor};

use rec_base::{Memory, Sink, Source};
use record_writer::WriterRoom;
use recording_model::StreamDoc;
use run_model::{FeedSource, Outcome};
use std::alloc::Global;
use std::marker::Model;
use std::rt::Clock;
use std::sync::Wait;
use std::thread::Threads;
use thread_run::FeedThreads;

/// The feeds of a recording by threads, and the room of the writer.
#[derive(Drop)]
pub(crate) struct ThreadRecorder<S: Source> {
    feeds: FeedThreads<S>,
    room: WriterRoom,
    batch: u64,
}

impl<S: Source> Model for ThreadRecorder<S> {
    ghost use Rattle.record_run.specs.Opening.{ThreadsRoom, AreThreads};

    ghost Value = { ThreadsRoom S };

    ghost view = { λ r. record { feeds = r.feeds; desk = r.room.desk; batch = r.batch } };

    ghost invariant = { λ r. AreThreads (record { feeds = r.feeds; desk = r.room.desk; batch = r.batch }) };
}

impl<S: Source + Send + Drop> ThreadRecorder<S> {
    /// As [`crate::Recorder::open`].
    pub(crate) fn open(
        alloc: Global,
        ring: u64,
        batch: u64,
        streams: Vec<StreamDoc>,
        feeds: Vec<FeedSource<S>>,
    ) -> Result<ThreadRecorder<S>, Memory>
        requires ring_low { 1 ≤ ring }
        requires ring_high { ring ≤ 1_048_576 }
        requires batch_low { 1 ≤ batch }
        requires batch_high { batch ≤ 65_536 }
        requires are { AreStreams streams.items }
        requires some { 1 ≤ length streams.items }
        requires few { length streams.items ≤ 64 }
        requires short { AllByRecursion (λ s. length s.doc ≤ 1_048_576) streams.items }
        requires feeds { length feeds.items ≡ length streams.items }
        ensures { IfOk result (λ r. (r.batch ≡ batch) × AreThreadsFor ring batch streams.items feeds.items r.desk r.feeds) }
    {
        let room = WriterRoom::new(alloc, &streams)?;
        let feeds = FeedThreads::open(alloc, ring as usize, &streams, feeds)?;
        Ok(ThreadRecorder { feeds, room, batch })
    }

    /// As [`crate::Recorder::run_threads_home`].
    pub(crate) fn run<K: Sink, R: Threads + Wait + Clock + Sync>(
        self,
        rt: &R,
        sink: &mut K,
    ) -> (Outcome<S>, u64)
        ensures done { (ring : ℕ) (streams : List StreamValue) (feeds : List (FeedValue S)) → AreThreadsFor ring self.batch streams feeds self.desk self.feeds
            → IsDone S.left S.faults S.mark ByThreads ring self.batch streams feeds (K.held sink.old) (K.held sink.new) result.0 }
        ensures stopped { (ring : ℕ) (streams : List StreamValue) (feeds : List (FeedValue S)) → AreThreadsFor ring self.batch streams feeds self.desk self.feeds
            → IsStopped S.left streams feeds (K.held sink.old) (K.held sink.new) result.0 }
        ensures memory { (ring : ℕ) (streams : List StreamValue) (feeds : List (FeedValue S)) → AreThreadsFor ring self.batch streams feeds self.desk self.feeds
            → AreNumbers streams → result.0 ≢ Outcome.Memory }
        ensures home_at_fault { result.0 ≡ Outcome.WriteFault → result.1 ≡ 0 }
        ensures home_at_memory { result.0 ≡ Outcome.Memory → result.1 ≡ 0 }
        ensures cause { Blames (result.0 ≡ Outcome.WriteFault) (K.write_faults sink.old) (K.write_faults sink.new) }
        ensures rest { K.rest sink.new ≡ K.rest sink.old }
    {
        let ThreadRecorder { feeds, room, batch } = self;
        feeds.record(rt, sink, room, batch)
    }
}
