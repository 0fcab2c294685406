//! The turns of a run, and its end.

ghost use Rattle.std.specs.Prelude.{◌≡◌, ◌≤◌, ℕ, List, [], false, length, map, slice_get, vec_capacity, Some, None, Option, IsTrue, IfOk, IfErr, OnOk, OnErr, IsErrOf};
ghost use Rattle.rec_base.specs.Causes.{Blames, HasCause};
ghost use Rattle.xdf_model.specs.Sample.{Sample as SampleValue};
ghost use Rattle.plan_model.specs.declared.plan.Mode.TheVariants.{Turns};
ghost use Rattle.recording_model.specs.declared.stream.StreamDoc.{StreamDoc as StreamValue};
ghost use Rattle.run_model.specs.declared.feed.FeedSource.{FeedSource as FeedValue};
ghost use Rattle.record_run.specs.Inlets.{InletView};
ghost use Rattle.run_model.specs.Outcomes.{IsRecorded, IsCutOff};
ghost use Rattle.run_model.specs.Fitting.{AreNumbers};
ghost use Rattle.record_run.specs.Opening.{AreTurnsFor, TurnsView};
ghost use Rattle.record_run.specs.Turning.{AreTurned, HaveEnded, report_in};

use crate::inlet::Inlet;
use crate::passes::{drain_all, fill_all};
use rec_base::{Sink, Source};
use record_writer::{Lent, Writer, WriterFault, WriterRoom};
use run_model::{FeedReport, ReportList};

// A turn that isn't the last takes at least one byte of a feed, of whose bytes 2^40 count.
const MOST_TURNS: u64 = 1_099_511_627_777;

// Whether every feed has ended.
fn have_ended<S: Source>(inlets: &[Inlet<S>]) -> bool
    ensures all { IsTrue result → HaveEnded inlets.now }
    ensures some { result ≡ false → (p : ℕ) × (x : InletView S) × (slice_get inlets.now p ≡ Some x) × (x.end ≡ None) }
{
    for inlet in inlets {
        if inlet.end().is_none() {
            return false;
        }
    }
    true
}

/// Writes the headers, and takes turns until every feed has ended.
pub(crate) fn take_turns<S: Source, K: Sink>(
    inlets: &mut [Inlet<S>],
    writer: &mut Writer<'_, K>,
    batch: u64,
) -> Result<(), WriterFault>
    requires ready { (ring : ℕ) × (streams : List StreamValue) × (feeds : List (FeedValue S))
        × AreTurnsFor ring batch streams feeds (record { inlets = inlets.old; desk = writer.old.room.desk; batch = batch }) }
    ensures same_reference { writer.new.sink.ghost_name ≡ writer.old.sink.ghost_name }
    ensures turned { (ring : ℕ) (streams : List StreamValue) (feeds : List (FeedValue S)) → AreTurnsFor ring batch streams feeds (record { inlets = inlets.old; desk = writer.old.room.desk; batch = batch })
        → OnOk result ((turns : ℕ) × (lists : List (List SampleValue))
        × AreTurned S.left S.faults S.mark ring batch turns streams feeds (K.held writer.old.sink.now) (K.held writer.new.sink.now) writer.new.room.desk lists inlets.new) }
    ensures ended { OnOk result (HaveEnded inlets.new) }
    ensures count { OnOk result (length inlets.new ≡ length inlets.old) }
    ensures cut { (ring : ℕ) (streams : List StreamValue) (feeds : List (FeedValue S)) → AreTurnsFor ring batch streams feeds (record { inlets = inlets.old; desk = writer.old.room.desk; batch = batch })
        → OnErr result (IsCutOff S.left streams feeds (K.held writer.old.sink.now) (K.held writer.new.sink.now)) }
    ensures closed { OnOk result ((writer.new.room.desk.count ≡ 0) × (writer.new.room.desk.broken ≡ false)) }
    ensures memory { (ring : ℕ) (streams : List StreamValue) (feeds : List (FeedValue S)) → AreTurnsFor ring batch streams feeds (record { inlets = inlets.old; desk = writer.old.room.desk; batch = batch })
        → AreNumbers streams → IsErrOf result WriterFault.Memory → ⊥ }
    ensures cause { Blames (IsErrOf result WriterFault.WriteFault) (K.write_faults writer.old.sink.now) (K.write_faults writer.new.sink.now) }
    ensures rest { K.rest writer.new.sink.now ≡ K.rest writer.old.sink.now }
{
    writer.begin()?;
    for _ in 0..MOST_TURNS {
        fill_all(inlets, batch)?;
        drain_all(inlets, writer)?;
        if have_ended(inlets) {
            return Ok(());
        }
    }
    unreachable!()
}

// What became of the feeds, into room that was made before.
fn report_all<S: Source>(inlets: &[Inlet<S>], reports: &mut Vec<FeedReport>)
    requires ended { HaveEnded inlets.now }
    requires empty { reports.old.items ≡ [] }
    requires room { length inlets.now ≤ vec_capacity reports.old }
    ensures { reports.new.items ≡ map report_in inlets.now }
{
    for inlet in inlets {
        let Some(end) = inlet.end() else {
            unreachable!()
        };
        reports.push_reserved(inlet.report(end));
    }
}

/// A recording that is whole: what became of its feeds, the file's size and its number of chunks.
#[derive(Debug, Drop)]
pub(crate) struct Recorded {
    pub(crate) reports: ReportList,
    pub(crate) bytes: u64,
    pub(crate) chunks: u64,
}

/// Finishes the file, and tells what became of the feeds.
pub(crate) fn finish<S: Source, K: Sink>(
    inlets: &[Inlet<S>],
    writer: Writer<'_, K>,
    reports: Vec<FeedReport>,
) -> Result<Recorded, WriterFault>
    requires ended { HaveEnded inlets.now }
    requires closed { writer.room.desk.count ≡ 0 }
    requires whole { writer.room.desk.broken ≡ false }
    requires empty { reports.items ≡ [] }
    requires room { length inlets.now ≤ vec_capacity reports }
    ensures done { (ring batch turns : ℕ) (streams : List StreamValue) (feeds : List (FeedValue S)) (base : Option (List ℕ)) (lists : List (List SampleValue)) → 1 ≤ ring → 1 ≤ batch
        → AreTurned S.left S.faults S.mark ring batch turns streams feeds base (K.held writer.entry.sink.now) writer.entry.room.desk lists inlets.now
        → IfOk result (λ r. IsRecorded S.left S.faults S.mark Turns ring batch streams feeds base (K.held writer.exit.0.now) r.reports r.bytes r.chunks (map (λ x. x.source) inlets.now)) }
    ensures stopped { (ring batch turns : ℕ) (streams : List StreamValue) (feeds : List (FeedValue S)) (base : Option (List ℕ)) (lists : List (List SampleValue)) → 1 ≤ ring → 1 ≤ batch
        → AreTurned S.left S.faults S.mark ring batch turns streams feeds base (K.held writer.entry.sink.now) writer.entry.room.desk lists inlets.now
        → OnErr result (IsCutOff S.left streams feeds base (K.held writer.exit.0.now)) }
    ensures fault { IfErr result (λ f. f ≡ WriterFault.WriteFault) }
    ensures cause { HasCause (K.write_faults writer.entry.sink.now) (K.write_faults writer.exit.0.now) result }
    ensures rest { K.rest writer.exit.0.now ≡ K.rest writer.entry.sink.now }
{
    let mut reports = reports;
    report_all(inlets, &mut reports);
    let written = writer.finish()?;
    Ok(Recorded {
        reports: ReportList::from_vec(reports),
        bytes: written.bytes,
        chunks: written.chunks,
    })
}

// Gives the room up, and the sink back as it is.
fn let_go<K: Sink>(writer: Writer<'_, K>)
    ensures { writer.exit.0.now ≡ writer.entry.sink.now }
{
    let _room = writer.room;
}

/// Records what the inlets get, into a sink that is lent.
pub(crate) fn record<S: Source, K: Sink>(
    inlets: &mut [Inlet<S>],
    sink: &mut K,
    room: WriterRoom,
    reports: Vec<FeedReport>,
    batch: u64,
) -> Result<Recorded, WriterFault>
    requires ready { (ring : ℕ) × (streams : List StreamValue) × (feeds : List (FeedValue S))
        × AreTurnsFor ring batch streams feeds (record { inlets = inlets.old; desk = room.desk; batch = batch }) }
    requires empty { reports.items ≡ [] }
    requires space { length inlets.old ≤ vec_capacity reports }
    ensures done { (ring : ℕ) (streams : List StreamValue) (feeds : List (FeedValue S)) → AreTurnsFor ring batch streams feeds (record { inlets = inlets.old; desk = room.desk; batch = batch })
        → IfOk result (λ r. IsRecorded S.left S.faults S.mark Turns ring batch streams feeds (K.held sink.old) (K.held sink.new) r.reports r.bytes r.chunks (map (λ x. x.source) inlets.new)) }
    ensures stopped { (ring : ℕ) (streams : List StreamValue) (feeds : List (FeedValue S)) → AreTurnsFor ring batch streams feeds (record { inlets = inlets.old; desk = room.desk; batch = batch })
        → OnErr result (IsCutOff S.left streams feeds (K.held sink.old) (K.held sink.new)) }
    ensures memory { (ring : ℕ) (streams : List StreamValue) (feeds : List (FeedValue S)) → AreTurnsFor ring batch streams feeds (record { inlets = inlets.old; desk = room.desk; batch = batch })
        → AreNumbers streams → IsErrOf result WriterFault.Memory → ⊥ }
    ensures cause { Blames (IsErrOf result WriterFault.WriteFault) (K.write_faults sink.old) (K.write_faults sink.new) }
    ensures rest { K.rest sink.new ≡ K.rest sink.old }
{
    let mut writer = Lent::over(sink, room);
    match take_turns(inlets, &mut writer, batch) {
        Ok(()) => finish(inlets, writer, reports),
        Err(fault) => {
            let_go(writer);
            Err(fault)
        }
    }
}
