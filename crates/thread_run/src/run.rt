//! All feeds of a recording, in threads of one scope.

ghost use Rattle.std.specs.Prelude.{◌≡◌, ◌≤◌, ℕ, List, [], true, length, map, slice_get, Some, Option, vec_capacity, false, IfOk, OnOk, OnErr, IsErrOf};
ghost use Rattle.rec_base.specs.Causes.{Blames};
ghost use Rattle.recording_model.specs.declared.stream.StreamDoc.{StreamDoc as StreamValue};
ghost use Rattle.recording_model.specs.Batch.{Batch};
ghost use Rattle.run_model.specs.declared.feed.FeedSource.{FeedSource as FeedValue};
ghost use Rattle.run_model.specs.Fitting.{AreNumbers};
ghost use Rattle.run_model.specs.Outcomes.{IsCutOff};
ghost use Rattle.thread_run.specs.Work.{IsFresh};
ghost use Rattle.thread_run.specs.Rounds.{AreDrawn, AreOfNumbers, given_by};
ghost use Rattle.thread_run.specs.Opening.{AreThreadsFor, IsNewHalt};
ghost use Rattle.thread_run.specs.Concluded.{HaveCut, HaveSettled, NoneHalted};
ghost use Rattle.thread_run.specs.declared.lane.CountedHead.{CountedHead as HeadValue};
ghost use Rattle.thread_run.specs.declared.work.Work.{Work as WorkValue};

use crate::all::{finish_all, start_all};
use crate::lane::CountedHead;
use crate::rounds::go_until;
use crate::settle::{Joined, empty_all, join_all};
use crate::started::Started;
use crate::work::{Work, Worked};
use halt_word::{LookerList, Raiser, close_halt};
use rec_base::{Sink, Source};
use record_writer::{Writer, WriterFault};
use std::rt::Clock;
use std::sync::Wait;
use std::sync::atomic::AtomicU64;
use std::thread::{Scope, Threads};

/// The lists that a run fills, empty and with room for all feeds.
#[derive(Drop)]
pub(crate) struct RunRoom<S: Source> {
    pub(crate) started: Vec<Started<S>>,
    pub(crate) worked: Vec<Worked<S>>,
    pub(crate) joined: Vec<Joined<S>>,
}

/// The lanes of a run before anything is read: the work of each inlet, the end that takes of each lane, and
/// the halt word, with an empty list for all that look at it.
#[derive(Drop)]
pub(crate) struct RunLanes<S: Source> {
    pub(crate) works: Vec<Work<S>>,
    pub(crate) heads: Vec<CountedHead>,
    pub(crate) raiser: Raiser,
    pub(crate) lookers: LookerList,
}

/// The sizes of a run: the most samples of a batch, and how many of one lane in a round mean that more
/// wait.
#[derive(Clone, Copy, Debug)]
pub(crate) struct Pace {
    pub(crate) batch: u64,
    pub(crate) plenty: u64,
}

// Raises the halt word where a write failed; for want of memory it stays as it is.
fn raise_behind(outcome: &Result<(), WriterFault>, raiser: &mut Raiser)
    ensures word { raiser.new.word ≡ raiser.old.word }
    ensures raised { IsErrOf outcome.now WriterFault.WriteFault → raiser.new.raised ≡ true }
    ensures same { (IsErrOf outcome.now WriterFault.WriteFault → ⊥) → raiser.new ≡ raiser.old }
{
    if let Err(WriterFault::WriteFault) = outcome {
        raiser.raise();
    }
}

/// Starts each inlet, writes what comes until all have said that they ended, joins them, and writes what
/// is left. Once a write failed, the halt word is raised, so that each inlet stops.
///
/// `WriteFault` comes only where a write failed in this call; `Memory` for want of memory alone, and
/// never where all lanes are of numbers. Either comes behind the joins.
pub(crate) fn run_in<
    's,
    E,
    S: Source + Send + Drop + 's,
    K: Sink,
    R: Threads + Wait + Clock + Sync,
>(
    scope: &Scope<'s, E>,
    rt: &'s R,
    ended: &'s AtomicU64,
    lanes: RunLanes<S>,
    room: RunRoom<S>,
    writer: &mut Writer<'_, K>,
    pace: Pace,
) -> Result<Vec<Joined<S>>, WriterFault>
    requires fresh { (p : ℕ) (w : WorkValue _) → slice_get lanes.works.items p ≡ Some w → IsFresh w }
    requires count { length lanes.works.items ≡ length lanes.heads.items }
    requires lanes { (p : ℕ) (w : WorkValue _) (h : HeadValue) → slice_get lanes.works.items p ≡ Some w → slice_get lanes.heads.items p ≡ Some h → w.tail.lane ≡ h.head.lane }
    requires halt { IsNewHalt lanes.works.items lanes.raiser lanes.lookers }
    requires none { (room.started.items ≡ []) × (room.worked.items ≡ []) × (room.joined.items ≡ []) }
    requires room { (length lanes.works.items ≤ vec_capacity room.started) × (length lanes.works.items ≤ vec_capacity room.worked) × (length lanes.works.items ≤ vec_capacity room.joined) }
    requires drawn { (streams : List StreamValue) × (base : Option (List ℕ)) × (batches : List Batch) × AreDrawn pace.batch streams base (K.held writer.old.sink.now) writer.old.room.desk batches (map given_by lanes.heads.items) }
    ensures same_reference { writer.new.sink.ghost_name ≡ writer.old.sink.ghost_name }
    ensures settled { (streams : List StreamValue) (base : Option (List ℕ)) (batches : List Batch) → AreDrawn pace.batch streams base (K.held writer.old.sink.now) writer.old.room.desk batches (map given_by lanes.heads.items)
        → IfOk result (λ all. HaveSettled S.left S.faults S.mark pace.batch streams base (K.held writer.new.sink.now) writer.new.room.desk lanes.works.items all.items) }
    ensures going { IfOk result (λ all. NoneHalted all.items) }
    ensures cut { (streams : List StreamValue) (base : Option (List ℕ)) (batches : List Batch) → AreDrawn pace.batch streams base (K.held writer.old.sink.now) writer.old.room.desk batches (map given_by lanes.heads.items)
        → OnErr result (HaveCut S.left S.faults S.mark streams base (K.held writer.new.sink.now) lanes.works.items) }
    ensures memory { IsErrOf result WriterFault.Memory → AreOfNumbers (map given_by lanes.heads.items) → ⊥ }
    ensures cause { Blames (IsErrOf result WriterFault.WriteFault) (K.write_faults writer.old.sink.now) (K.write_faults writer.new.sink.now) }
    ensures rest { K.rest writer.new.sink.now ≡ K.rest writer.old.sink.now }
{
    let RunRoom {
        started,
        worked,
        joined,
    } = room;
    let RunLanes {
        works,
        mut heads,
        mut raiser,
        mut lookers,
    } = lanes;
    let count = works.len() as u64;
    let started = start_all(scope, rt, ended, works, started);
    let outcome = go_until(
        rt,
        ended,
        count,
        heads.as_mut_slice(),
        writer,
        pace.batch,
        pace.plenty,
    );
    raise_behind(&outcome, &mut raiser);
    let worked = finish_all(rt, started, worked);
    let mut joined = join_all(rt, worked, heads, &mut lookers, joined);
    let _raised = close_halt(raiser, lookers);
    outcome?;
    empty_all(rt, joined.as_mut_slice(), writer, pace.batch)?;
    Ok(joined)
}

/// Writes the headers, and then all that the feeds give.
///
/// `WriteFault` comes only where a write failed in this call; `Memory` for want of memory alone, and
/// never where all feeds are of numbers.
pub(crate) fn write_feeds<
    's,
    E,
    S: Source + Send + Drop + 's,
    K: Sink,
    R: Threads + Wait + Clock + Sync,
>(
    scope: &Scope<'s, E>,
    rt: &'s R,
    ended: &'s AtomicU64,
    lanes: RunLanes<S>,
    room: RunRoom<S>,
    writer: &mut Writer<'_, K>,
    pace: Pace,
) -> Result<Vec<Joined<S>>, WriterFault>
    requires ready { (ring : ℕ) × (streams : List StreamValue) × (feeds : List (FeedValue S))
        × AreThreadsFor ring pace.batch streams feeds writer.old.room.desk (record { works = lanes.works.items; heads = lanes.heads.items; raiser = lanes.raiser; lookers = lanes.lookers }) }
    requires none { (room.started.items ≡ []) × (room.worked.items ≡ []) × (room.joined.items ≡ []) }
    requires room { (length lanes.works.items ≤ vec_capacity room.started) × (length lanes.works.items ≤ vec_capacity room.worked) × (length lanes.works.items ≤ vec_capacity room.joined) }
    ensures same_reference { writer.new.sink.ghost_name ≡ writer.old.sink.ghost_name }
    ensures settled { (ring : ℕ) (streams : List StreamValue) (feeds : List (FeedValue S)) → AreThreadsFor ring pace.batch streams feeds writer.old.room.desk (record { works = lanes.works.items; heads = lanes.heads.items; raiser = lanes.raiser; lookers = lanes.lookers })
        → IfOk result (λ all. HaveSettled S.left S.faults S.mark pace.batch streams (K.held writer.old.sink.now) (K.held writer.new.sink.now) writer.new.room.desk lanes.works.items all.items) }
    ensures going { IfOk result (λ all. NoneHalted all.items) }
    ensures closed { OnOk result ((writer.new.room.desk.count ≡ 0) × (writer.new.room.desk.broken ≡ false)) }
    ensures count { IfOk result (λ all. length all.items ≡ length lanes.works.items) }
    ensures cut { (ring : ℕ) (streams : List StreamValue) (feeds : List (FeedValue S)) → AreThreadsFor ring pace.batch streams feeds writer.old.room.desk (record { works = lanes.works.items; heads = lanes.heads.items; raiser = lanes.raiser; lookers = lanes.lookers })
        → OnErr result (IsCutOff S.left streams feeds (K.held writer.old.sink.now) (K.held writer.new.sink.now)) }
    ensures memory { (ring : ℕ) (streams : List StreamValue) (feeds : List (FeedValue S)) → AreThreadsFor ring pace.batch streams feeds writer.old.room.desk (record { works = lanes.works.items; heads = lanes.heads.items; raiser = lanes.raiser; lookers = lanes.lookers })
        → AreNumbers streams → IsErrOf result WriterFault.Memory → ⊥ }
    ensures cause { Blames (IsErrOf result WriterFault.WriteFault) (K.write_faults writer.old.sink.now) (K.write_faults writer.new.sink.now) }
    ensures rest { K.rest writer.new.sink.now ≡ K.rest writer.old.sink.now }
{
    writer.begin()?;
    run_in(scope, rt, ended, lanes, room, writer, pace)
}
