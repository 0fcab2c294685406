//! A recorder: the feeds of a recording with all that is needed to record them.

ghost use Rattle.std.specs.Prelude.{◌≡◌, ◌≢◌, ◌≤◌, ℕ, List, length, IfOk};
ghost use Rattle.std.specs.List.{AllByRecursion};
ghost use Rattle.rec_base.specs.Causes.{Blames};
ghost use Rattle.plan_model.specs.declared.plan.Mode.TheVariants.{Threads as ByThreads, Turns as ByTurns};
ghost use Rattle.recording_model.specs.declared.stream.StreamDoc.{StreamDoc as StreamValue};
ghost use Rattle.recording_model.specs.Recording.{AreStreams};
ghost use Rattle.run_model.specs.declared.feed.FeedSource.{FeedSource as FeedValue};
ghost use Rattle.run_model.specs.Fitting.{AreNumbers};
ghost use Rattle.run_model.specs.Outcomes.{IsDone, IsStopped};
ghost use Rattle.record_run.specs.Recorders.{IsIn, IsOpenFor};

use crate::thread_recorder::ThreadRecorder;
use crate::turn_recorder::TurnRecorder;
use plan_model::Mode;
use rec_base::{Memory, Sink, Source};
use recording_model::StreamDoc;
use run_model::{FeedSource, Outcome};
use std::alloc::Global;
use std::marker::Model;
use std::rt::Clock;
use std::sync::Wait;
use std::thread::Threads;

/// A recorder by mode.
#[derive(Drop)]
pub(crate) enum Modes<S: Source> {
    /// By turns, on one thread.
    Turns(TurnRecorder<S>),
    /// Each feed in a thread of its own.
    Threads(ThreadRecorder<S>),
}

/// The feeds of a recording, and all that is needed to record them in one of the two modes. This
/// project's own.
#[derive(Drop)]
pub struct Recorder<S: Source> {
    modes: Modes<S>,
}

impl<S: Source> Model for Recorder<S> {
    ghost use Rattle.record_run.specs.Recorders.{RecorderView, view_in};

    ghost Value = { RecorderView S };

    ghost view = { λ r. view_in r.modes };
}

impl<S: Source + Send + Drop> Recorder<S> {
    /// A recorder of these feeds, each as the stream at its place. `ring` is the most samples that wait
    /// in a feed's ring, 1 to 1,048,576, and `batch` the most of a feed that are written at once, 1 to
    /// 65,536; by turns it is also the most that are read of a feed in a turn. There are 1 to 64 streams,
    /// whose header documents have at most 1,048,576 bytes. All memory of the run but that of texts and
    /// of the threads themselves is taken here, `ring` blocks and two more for each feed of numbers among
    /// it, and nothing is read.
    ///
    /// `Memory` comes for want of memory alone; the sources are then given up.
    pub fn open(
        alloc: Global,
        mode: Mode,
        ring: u64,
        batch: u64,
        streams: Vec<StreamDoc>,
        feeds: Vec<FeedSource<S>>,
    ) -> Result<Recorder<S>, Memory>
        requires ring_low { 1 ≤ ring }
        requires ring_high { ring ≤ 1_048_576 }
        requires batch_low { 1 ≤ batch }
        requires batch_high { batch ≤ 65_536 }
        requires are { AreStreams streams.items }
        requires some { 1 ≤ length streams.items }
        requires few { length streams.items ≤ 64 }
        requires short { AllByRecursion (λ s. length s.doc ≤ 1_048_576) streams.items }
        requires feeds { length feeds.items ≡ length streams.items }
        ensures { IfOk result (λ r. IsOpenFor mode ring batch streams.items feeds.items r) }
    {
        let modes = match mode {
            Mode::Turns => { Modes::Turns(TurnRecorder::open(alloc, ring, batch, streams, feeds)?) }
            Mode::Threads => {
                Modes::Threads(ThreadRecorder::open(alloc, ring, batch, streams, feeds)?)
            }
        };
        Ok(Recorder { modes })
    }

    /// Records by turns, on this thread. A turn has two passes over the feeds in order: first each feed
    /// that hasn't ended puts up to `batch` samples into its ring, which drops its oldest where it is
    /// full; then what waits in each ring is written as one batch. Once every feed has ended the file is
    /// finished. It returns always: each turn takes at least one sample or is the last.
    ///
    /// `Done` says what became of the feeds, and that the file is whole. `WriteFault` comes only where a
    /// write of the sink failed in this call, `Memory` for want of memory alone, and never where all feeds
    /// are of numbers. What the sink holds is then a partial recording: whole chunks, which hold the first
    /// samples of each feed without those that their ledger names, and at most a torn one.
    pub fn run_turns<K: Sink>(self, sink: &mut K) -> Outcome<S>
        requires mode { IsIn ByTurns self }
        ensures done { (ring batch : ℕ) (streams : List StreamValue) (feeds : List (FeedValue S)) → IsOpenFor ByTurns ring batch streams feeds self
            → IsDone S.left S.faults S.mark ByTurns ring batch streams feeds (K.held sink.old) (K.held sink.new) result }
        ensures stopped { (ring batch : ℕ) (streams : List StreamValue) (feeds : List (FeedValue S)) → IsOpenFor ByTurns ring batch streams feeds self
            → IsStopped S.left streams feeds (K.held sink.old) (K.held sink.new) result }
        ensures memory { (ring batch : ℕ) (streams : List StreamValue) (feeds : List (FeedValue S)) → IsOpenFor ByTurns ring batch streams feeds self
            → AreNumbers streams → result ≢ Outcome.Memory }
        ensures cause { Blames (result ≡ Outcome.WriteFault) (K.write_faults sink.old) (K.write_faults sink.new) }
        ensures rest { K.rest sink.new ≡ K.rest sink.old }
    {
        match self.modes {
            Modes::Turns(turns) => turns.run(sink),
            Modes::Threads(_) => unreachable!(),
        }
    }

    /// Records by threads. Each feed is read in a thread of its own, which puts its samples into the
    /// feed's ring; the ring drops its oldest where it is full. This thread meanwhile goes round the
    /// rings in order, and writes up to `batch` samples of each as one batch. Once every feed has ended,
    /// the threads are joined, what is left in the rings is written, and the file is finished. Where a
    /// thread can't be started, its feed is read by this thread. While little comes it sleeps between two
    /// rounds, for 16 milliseconds at most. A feed that never ends is recorded for ever.
    ///
    /// `Done` says what became of the feeds, and that the file is whole. `WriteFault` comes only where a
    /// write of the sink failed in this call, `Memory` for want of memory alone, and never where all feeds
    /// are of numbers. What the sink holds is then a partial recording, as by turns. Once a write failed
    /// each inlet stops before its next sample, and the threads are joined before either is answered.
    pub fn run_threads<K: Sink, R: Threads + Wait + Clock + Sync>(
        self,
        rt: &R,
        sink: &mut K,
    ) -> Outcome<S>
        requires mode { IsIn ByThreads self }
        ensures done { (ring batch : ℕ) (streams : List StreamValue) (feeds : List (FeedValue S)) → IsOpenFor ByThreads ring batch streams feeds self
            → IsDone S.left S.faults S.mark ByThreads ring batch streams feeds (K.held sink.old) (K.held sink.new) result }
        ensures stopped { (ring batch : ℕ) (streams : List StreamValue) (feeds : List (FeedValue S)) → IsOpenFor ByThreads ring batch streams feeds self
            → IsStopped S.left streams feeds (K.held sink.old) (K.held sink.new) result }
        ensures memory { (ring batch : ℕ) (streams : List StreamValue) (feeds : List (FeedValue S)) → IsOpenFor ByThreads ring batch streams feeds self
            → AreNumbers streams → result ≢ Outcome.Memory }
        ensures cause { Blames (result ≡ Outcome.WriteFault) (K.write_faults sink.old) (K.write_faults sink.new) }
        ensures rest { K.rest sink.new ≡ K.rest sink.old }
    {
        self.run_threads_home(rt, sink).0
    }

    /// As [`run_threads`](Recorder::run_threads), and counts the blocks of the feeds of numbers that are
    /// home at the end, and 0 where the run isn't done. `ring` and two are made for each such feed; that
    /// all of them come home is shown by tests, and said by no clause.
    pub fn run_threads_home<K: Sink, R: Threads + Wait + Clock + Sync>(
        self,
        rt: &R,
        sink: &mut K,
    ) -> (Outcome<S>, u64)
        requires mode { IsIn ByThreads self }
        ensures done { (ring batch : ℕ) (streams : List StreamValue) (feeds : List (FeedValue S)) → IsOpenFor ByThreads ring batch streams feeds self
            → IsDone S.left S.faults S.mark ByThreads ring batch streams feeds (K.held sink.old) (K.held sink.new) result.0 }
        ensures stopped { (ring batch : ℕ) (streams : List StreamValue) (feeds : List (FeedValue S)) → IsOpenFor ByThreads ring batch streams feeds self
            → IsStopped S.left streams feeds (K.held sink.old) (K.held sink.new) result.0 }
        ensures memory { (ring batch : ℕ) (streams : List StreamValue) (feeds : List (FeedValue S)) → IsOpenFor ByThreads ring batch streams feeds self
            → AreNumbers streams → result.0 ≢ Outcome.Memory }
        ensures home_at_fault { result.0 ≡ Outcome.WriteFault → result.1 ≡ 0 }
        ensures home_at_memory { result.0 ≡ Outcome.Memory → result.1 ≡ 0 }
        ensures cause { Blames (result.0 ≡ Outcome.WriteFault) (K.write_faults sink.old) (K.write_faults sink.new) }
        ensures rest { K.rest sink.new ≡ K.rest sink.old }
    {
        match self.modes {
            Modes::Threads(threads) => threads.run(rt, sink),
            Modes::Turns(_) => unreachable!(),
        }
    }
}
