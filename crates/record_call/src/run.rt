//! The run of a recording, into an output that is created for it.

ghost use Rattle.std.specs.Prelude.{◌≡◌, ◌≢◌, ◌≤◌, ◌⊎◌, ℕ, List, length, IfOk, IsErr, IsErrOf, ◌∷◌, []};
ghost use Rattle.dock_calls.specs.Asking.{FailsAt};
ghost use Rattle.rec_base.specs.Asked.{AsksAll, AsksFront};
ghost use Rattle.rec_base.specs.declared.asked.Asked.TheVariants.{Creation};
ghost use Rattle.rec_base.specs.Causes.{Blames, Rose};
ghost use Rattle.std.specs.List.{AllByRecursion};
ghost use Rattle.recording_model.specs.Recording.{AreStreams};
ghost use Rattle.recording_model.specs.declared.stream.StreamDoc.{StreamDoc as StreamValue};
ghost use Rattle.run_model.specs.Fitting.{AreNumbers};
ghost use Rattle.run_model.specs.declared.feed.FeedSource.{FeedSource as FeedValue};
ghost use Rattle.run_model.specs.Outcomes.{IsDone, IsStopped};
ghost use Rattle.record_run.specs.Recorders.{IsIn, IsOpenFor};
ghost use Rattle.record_call.specs.Recorded.{IsWritten, IsCut, IsCreated};

use crate::fault::RecordFault;
use plan_words::Mode;
use rec_base::{Dock, Failed, Lines, Sink, Source, Word};
use record_run::{FeedSource, Outcome, Recorder, ReportList, StreamDoc};
use std::alloc::Global;
use std::rt::Clock;
use std::sync::Wait;
use std::thread::Threads;

/// How a plan is recorded: in which mode, the most samples that wait in a ring, and the most that are
/// taken at once.
#[derive(Clone, Copy, Debug)]
pub(crate) struct Settings {
    pub(crate) mode: Mode,
    pub(crate) ring: u64,
    pub(crate) batch: u64,
}

/// A recording whose file is written: what became of its feeds, the file's size, and its number of
/// chunks.
#[derive(Debug, Drop)]
pub(crate) struct Written {
    pub(crate) reports: ReportList,
    pub(crate) bytes: u64,
    pub(crate) chunks: u64,
}

// Runs a recorder in its mode.
fn run<S: Source + Send + Drop, K: Sink, R: Threads + Wait + Clock + Sync>(
    rt: &R,
    mode: Mode,
    recorder: Recorder<S>,
    sink: &mut K,
) -> Outcome<S>
    requires mode { IsIn mode recorder }
    ensures done { (ring batch : ℕ) (streams : List StreamValue) (feeds : List (FeedValue S)) → IsOpenFor mode ring batch streams feeds recorder
        → IsDone S.left S.faults S.mark mode ring batch streams feeds (K.held sink.old) (K.held sink.new) result }
    ensures stopped { (ring batch : ℕ) (streams : List StreamValue) (feeds : List (FeedValue S)) → IsOpenFor mode ring batch streams feeds recorder
        → IsStopped S.left streams feeds (K.held sink.old) (K.held sink.new) result }
    ensures memory { (ring batch : ℕ) (streams : List StreamValue) (feeds : List (FeedValue S)) → IsOpenFor mode ring batch streams feeds recorder
        → AreNumbers streams → result ≢ Outcome.Memory }
    ensures cause { Blames (result ≡ Outcome.WriteFault) (K.write_faults sink.old) (K.write_faults sink.new) }
    ensures rest { K.rest sink.new ≡ K.rest sink.old }
{
    match mode {
        Mode::Turns => recorder.run_turns(sink),
        Mode::Threads => recorder.run_threads(rt, sink),
    }
}

/// Takes the memory of the run, creates the output, and records the feeds.
pub(crate) fn record_feeds<D: Dock, R: Threads + Wait + Clock + Sync>(
    rt: &R,
    alloc: Global,
    dock: &mut D,
    out: &Word,
    settings: Settings,
    streams: Vec<StreamDoc>,
    feeds: Vec<FeedSource<D::Source>>,
) -> Result<Written, RecordFault>
    requires ring_low { 1 ≤ settings.ring }
    requires ring_high { settings.ring ≤ 1_048_576 }
    requires batch_low { 1 ≤ settings.batch }
    requires batch_high { settings.batch ≤ 65_536 }
    requires are { AreStreams streams.items }
    requires some { 1 ≤ length streams.items }
    requires few { length streams.items ≤ 64 }
    requires short { AllByRecursion (λ s. length s.doc ≤ 1_048_576) streams.items }
    requires feeds { length feeds.items ≡ length streams.items }
    ensures written { IfOk result (λ w. IsWritten D.Source.left D.Source.faults D.Source.mark settings.mode settings.ring settings.batch streams.items feeds.items out.now
        (D.target dock.old) (D.target dock.new) (D.held dock.old) (D.held dock.new) w.reports w.bytes w.chunks) }
    ensures not_created { IsErrOf result RecordFault.Open → FailsAt (D.asked dock.old) (D.asked dock.new) (Creation out.now ∷ []) (D.open_faults dock.old) (D.open_faults dock.new)
        × (D.target dock.new ≡ D.target dock.old) × (D.held dock.new ≡ D.held dock.old) }
    ensures not_written { IsErrOf result RecordFault.Write → (created : D)
        × IsCreated (D.target dock.old) (D.target created) (D.held dock.old) (D.held created) out.now
        × Rose (D.write_faults created) (D.write_faults dock.new)
        × IsCut D.Source.left streams.items feeds.items out.now (D.target dock.old) (D.target dock.new) (D.held dock.old) (D.held dock.new) }
    ensures memory { IsErrOf result RecordFault.Memory → ((D.target dock.new ≡ D.target dock.old) × (D.held dock.new ≡ D.held dock.old))
        ⊎ IsCut D.Source.left streams.items feeds.items out.now (D.target dock.old) (D.target dock.new) (D.held dock.old) (D.held dock.new) }
    ensures numbers { IsErrOf result RecordFault.Memory → ((D.target dock.new ≡ D.target dock.old) × (D.held dock.new ≡ D.held dock.old))
        ⊎ (AreNumbers streams.items → ⊥) }
    ensures none_else { IsErr result → IsErrOf result RecordFault.Open ⊎ IsErrOf result RecordFault.Write ⊎ IsErrOf result RecordFault.Memory }
    ensures asks { AsksFront (D.asked dock.old) (D.asked dock.new) (Creation out.now ∷ []) }
    ensures asks_all { (IsErrOf result RecordFault.Memory → ⊥) → AsksAll (D.asked dock.old) (D.asked dock.new) (Creation out.now ∷ []) }
    ensures quiet { (IsErrOf result RecordFault.Open → ⊥) → D.open_faults dock.new ≡ D.open_faults dock.old }
    ensures writes { Blames (IsErrOf result RecordFault.Write) (D.write_faults dock.old) (D.write_faults dock.new) }
    ensures printed { D.printed dock.new ≡ D.printed dock.old }
    ensures print_faults { D.print_faults dock.new ≡ D.print_faults dock.old }
{
    let Settings { mode, ring, batch } = settings;
    let recorder = Recorder::open(alloc, mode, ring, batch, streams, feeds)?;
    match dock.create(out) {
        Ok(()) => {}
        Err(Failed) => return Err(RecordFault::Open),
    }
    match run(rt, mode, recorder, dock) {
        Outcome::Done {
            reports,
            bytes,
            chunks,
            ..
        } => Ok(Written {
            reports,
            bytes,
            chunks,
        }),
        Outcome::WriteFault => Err(RecordFault::Write),
        Outcome::Memory => Err(RecordFault::Memory),
    }
}
