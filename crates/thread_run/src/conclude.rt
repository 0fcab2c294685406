//! The end of a run by threads.

ghost use Rattle.std.specs.Prelude.{◌≡◌, ◌≢◌, ◌≤◌, ℕ, List, [], false, length, map, slice_get, Some, Option, vec_capacity, IsTrue};
ghost use Rattle.rec_base.specs.Causes.{Blames};
ghost use Rattle.inlet_model.specs.declared.end.FeedEnd.{FeedEnd as EndValue};
ghost use Rattle.plan_model.specs.declared.plan.Mode.TheVariants.{Threads as ByThreads};
ghost use Rattle.recording_model.specs.declared.stream.StreamDoc.{StreamDoc as StreamValue};
ghost use Rattle.record_writer.specs.Desk.{DeskState};
ghost use Rattle.run_model.specs.declared.feed.FeedSource.{FeedSource as FeedValue};
ghost use Rattle.run_model.specs.Fitting.{AreNumbers};
ghost use Rattle.run_model.specs.Outcomes.{IsDone, IsStopped};
ghost use Rattle.thread_run.specs.Opening.{AreThreadsFor, ThreadsView};
ghost use Rattle.thread_run.specs.Concluded.{HaveEnded, HaveSettled, NoneHalted, report_in};
ghost use Rattle.thread_run.specs.declared.settle.Joined.{Joined as JoinedValue};

use crate::lane::CountedLast;
use crate::settle::Joined;
use crate::work::InletDone;
use feed_samples::FeedEnd;
use rec_base::{Sink, Source};
use record_writer::Writer;
use run_model::{FeedReport, Outcome, ReportList, SourceList};
use std::sync::Wait;

/// Whether an inlet had no memory for a sample.
fn ran_out<S: Source>(settled: &[Joined<S>]) -> bool
    requires going { NoneHalted settled.now }
    ensures some { IsTrue result → (p : ℕ) × (s : JoinedValue S) × (slice_get settled.now p ≡ Some s) × (s.done ≡ InletDone.Memory) }
    ensures none { result ≡ false → HaveEnded settled.now }
{
    for one in settled {
        if let InletDone::Memory = one.done {
            return true;
        }
    }
    false
}

// How a feed ended that did end.
fn end_of(done: InletDone) -> FeedEnd
    requires { (e : EndValue) × (done ≡ InletDone.Ended e) }
    ensures { done ≡ InletDone.Ended result }
{
    match done {
        InletDone::Ended(end) => end,
        InletDone::Memory | InletDone::Halted => unreachable!(),
    }
}

// What became of a feed.
fn report_on<S: Source>(one: &Joined<S>) -> FeedReport
    requires { (e : EndValue) × (one.now.done ≡ InletDone.Ended e) }
    ensures { result ≡ report_in one.now }
{
    let received = one.reader.received();
    FeedReport {
        id: one.id,
        received,
        kept: one.lane.kept,
        lost: received.saturating_sub(one.lane.kept),
        end: end_of(one.done),
    }
}

// What became of the feeds, into room that was made before.
fn report_all<S: Source>(settled: &[Joined<S>], reports: Vec<FeedReport>) -> Vec<FeedReport>
    requires ended { HaveEnded settled.now }
    requires empty { reports.items ≡ [] }
    requires room { length settled.now ≤ vec_capacity reports }
    ensures { result.items ≡ map report_in settled.now }
{
    let mut reports = reports;
    for one in settled {
        reports.push_reserved(report_on(one));
    }
    reports
}

// Ends a lane, and gives the source of its feed back, and how many of the lane's blocks are home.
fn close_one<S: Source + Drop, R: Wait>(rt: &R, one: Joined<S>) -> (S, u64)
    ensures { result.0 ≡ one.reader.source }
{
    let Joined { reader, lane, .. } = one;
    let CountedLast { last, .. } = lane;
    (reader.into_source(), last.close(rt))
}

// Ends all lanes, and gives the sources back, into room that was made before, and how many blocks are
// home in all.
fn close_all<S: Source + Drop, R: Wait>(
    rt: &R,
    settled: Vec<Joined<S>>,
    sources: Vec<S>,
) -> (Vec<S>, u64)
    requires empty { sources.items ≡ [] }
    requires room { length settled.items ≤ vec_capacity sources }
    ensures { result.0.items ≡ map (λ s. s.reader.source) settled.items }
{
    let mut settled = settled;
    let mut sources = sources;
    let mut home: u64 = 0;
    for _ in 0..settled.len() {
        // There are few feeds, so moving those behind it costs nothing that counts.
        let (source, blocks) = close_one(rt, settled.remove(0));
        sources.push_reserved(source);
        home = home.saturating_add(blocks);
    }
    (sources, home)
}

/// Gives the room up, and the sink back as it is.
pub(crate) fn let_go<K: Sink>(writer: Writer<'_, K>)
    ensures { writer.exit.0.now ≡ writer.entry.sink.now }
{
    let _room = writer.room;
}

/// Finishes the file, and tells what became of the feeds, and how many blocks are home. Where an inlet had
/// no memory, the file is left as it is.
pub(crate) fn conclude<S: Source + Drop, K: Sink, R: Wait>(
    rt: &R,
    settled: Vec<Joined<S>>,
    writer: Writer<'_, K>,
    reports: Vec<FeedReport>,
    sources: Vec<S>,
) -> (Outcome<S>, u64)
    requires going { NoneHalted settled.items }
    requires closed { writer.room.desk.count ≡ 0 }
    requires whole { writer.room.desk.broken ≡ false }
    requires empty { (reports.items ≡ []) × (sources.items ≡ []) }
    requires space { (length settled.items ≤ vec_capacity reports) × (length settled.items ≤ vec_capacity sources) }
    ensures done { (ring batch : ℕ) (streams : List StreamValue) (feeds : List (FeedValue S)) (base : Option (List ℕ)) (desk : DeskState) (v : ThreadsView S)
        → AreThreadsFor ring batch streams feeds desk v
        → HaveSettled S.left S.faults S.mark batch streams base (K.held writer.entry.sink.now) writer.entry.room.desk v.works settled.items
        → IsDone S.left S.faults S.mark ByThreads ring batch streams feeds base (K.held writer.exit.0.now) result.0 }
    ensures stopped { (ring batch : ℕ) (streams : List StreamValue) (feeds : List (FeedValue S)) (base : Option (List ℕ)) (desk : DeskState) (v : ThreadsView S)
        → AreThreadsFor ring batch streams feeds desk v
        → HaveSettled S.left S.faults S.mark batch streams base (K.held writer.entry.sink.now) writer.entry.room.desk v.works settled.items
        → IsStopped S.left streams feeds base (K.held writer.exit.0.now) result.0 }
    ensures memory { (ring batch : ℕ) (streams : List StreamValue) (feeds : List (FeedValue S)) (base : Option (List ℕ)) (desk : DeskState) (v : ThreadsView S)
        → AreThreadsFor ring batch streams feeds desk v
        → HaveSettled S.left S.faults S.mark batch streams base (K.held writer.entry.sink.now) writer.entry.room.desk v.works settled.items
        → AreNumbers streams → result.0 ≢ Outcome.Memory }
    ensures home_at_fault { result.0 ≡ Outcome.WriteFault → result.1 ≡ 0 }
    ensures home_at_memory { result.0 ≡ Outcome.Memory → result.1 ≡ 0 }
    ensures cause { Blames (result.0 ≡ Outcome.WriteFault) (K.write_faults writer.entry.sink.now) (K.write_faults writer.exit.0.now) }
    ensures rest { K.rest writer.exit.0.now ≡ K.rest writer.entry.sink.now }
{
    if ran_out(&settled) {
        let_go(writer);
        return (Outcome::Memory, 0);
    }
    let reports = report_all(&settled, reports);
    match writer.finish() {
        Ok(written) => {
            let (sources, home) = close_all(rt, settled, sources);
            let done = Outcome::Done {
                reports: ReportList::from_vec(reports),
                bytes: written.bytes,
                chunks: written.chunks,
                sources: SourceList::from_vec(sources),
            };
            (done, home)
        }
        Err(_) => (Outcome::WriteFault, 0),
    }
}
