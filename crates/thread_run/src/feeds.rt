//! The feeds of a recording by threads.

ghost use Rattle.std.specs.Prelude.{◌≡◌, ◌≢◌, ◌+◌, ◌≤◌, ℕ, List, [], false, length, slice_get, Some, vec_capacity, IfOk, OnOk};
ghost use Rattle.rec_base.specs.Causes.{Blames};
ghost use Rattle.plan_model.specs.declared.plan.Mode.TheVariants.{Threads as ByThreads};
ghost use Rattle.recording_model.specs.declared.stream.StreamDoc.{StreamDoc as StreamValue};
ghost use Rattle.recording_model.specs.Recording.{AreStreams};
ghost use Rattle.run_model.specs.declared.feed.FeedSource.{FeedSource as FeedValue};
ghost use Rattle.run_model.specs.Fitting.{AreNumbers};
ghost use Rattle.run_model.specs.Outcomes.{IsDone, IsStopped};
ghost use Rattle.halt_word.specs.Ends.{AreNew};
ghost use Rattle.thread_run.specs.Opening.{AreThreadsFor, IsNewHalt, IsNewLane, ThreadsView};
ghost use Rattle.thread_run.specs.Concluded.{HaveRun};
ghost use Rattle.thread_run.specs.declared.lane.CountedHead.{CountedHead as HeadValue};
ghost use Rattle.thread_run.specs.declared.work.Work.{Work as WorkValue};

use crate::conclude::{conclude, let_go};
use crate::lane::CountedHead;
use crate::run::{Pace, RunLanes, RunRoom, write_feeds};
use crate::work::Work;
use feed_lane::make_lane;
use feed_samples::FeedReader;
use halt_word::{Looker, LookerList, Raiser, make_halt};
use rec_base::{Memory, Sink, Source};
use record_writer::{Lent, WriterFault, WriterRoom};
use recording_model::StreamDoc;
use run_model::{FeedReport, FeedSource, Outcome};
use std::alloc::Global;
use std::marker::Model;
use std::rt::Clock;
use std::sync::Wait;
use std::sync::atomic::AtomicU64;
use std::thread;
use std::thread::{Scope, Threads};

// The most bytes of a feed that count.
const BYTE_LIMIT: u64 = 1_099_511_627_776;

/// The feeds of a recording by threads, each with its reader and its lane, before anything is read, the
/// halt word that their inlets look at, and the room for all lists of the run.
#[derive(Drop)]
pub struct FeedThreads<S: Source> {
    works: Vec<Work<S>>,
    heads: Vec<CountedHead>,
    raiser: Raiser,
    // room for the lookers, which are out
    lookers: LookerList,
    lists: RunRoom<S>,
    // room for what becomes of the feeds, and for their sources
    reports: Vec<FeedReport>,
    sources: Vec<S>,
    ring: u64,
}

impl<S: Source> Model for FeedThreads<S> {
    ghost use Rattle.thread_run.specs.Opening.{ThreadsView};

    ghost Value = { ThreadsView S };

    ghost view = { λ t. record { works = t.works.items; heads = t.heads.items; raiser = t.raiser; lookers = t.lookers } };

    ghost use Rattle.std.specs.Prelude.{◌≡◌, ◌≤◌, [], length, vec_capacity};

    ghost invariant = { λ t. (t.lists.started.items ≡ []) × (t.lists.worked.items ≡ []) × (t.lists.joined.items ≡ []) × (t.reports.items ≡ []) × (t.sources.items ≡ [])
        × (length t.works.items ≤ vec_capacity t.lists.started) × (length t.works.items ≤ vec_capacity t.lists.worked) × (length t.works.items ≤ vec_capacity t.lists.joined)
        × (length t.works.items ≤ vec_capacity t.reports) × (length t.works.items ≤ vec_capacity t.sources) };
}

// A feed with its reader and its lane.
fn new_lane<S: Source + Drop>(
    alloc: Global,
    ring: usize,
    stream: &StreamDoc,
    feed: FeedSource<S>,
    looker: Looker,
) -> Result<(Work<S>, CountedHead), Memory>
    requires low { 1 ≤ ring }
    requires high { ring ≤ 1_048_576 }
    requires count { stream.now.shape.count ≤ 4096 }
    ensures lane { IfOk result (λ r. IsNewLane ring stream.now feed r.0 r.1) }
    ensures looker { IfOk result (λ r. r.0.looker ≡ looker) }
{
    let FeedSource { source, uid, limit } = feed;
    let (tail, head) = make_lane(alloc, stream.shape, ring)?;
    let reader = FeedReader::new(alloc, source, stream.shape, uid, limit, BYTE_LIMIT)?;
    let work = Work {
        id: stream.id,
        reader,
        tail,
        looker,
    };
    Ok((work, CountedHead { head, kept: 0 }))
}

// Takes one of those that look at the halt word out.
fn take_looker(lookers: &mut LookerList) -> Looker
    requires some { 1 ≤ length lookers.old.lookers }
    requires new { AreNew lookers.old.lookers }
    ensures same { (lookers.new.word ≡ lookers.old.word) × (lookers.new.room ≡ lookers.old.room) }
    ensures less { length lookers.new.lookers + 1 ≡ length lookers.old.lookers }
    ensures new { AreNew lookers.new.lookers }
    ensures looker { (result.word ≡ lookers.old.word) × (result.saw ≡ false) }
{
    match lookers.pop() {
        Some(looker) => looker,
        None => unreachable!(),
    }
}

// A lane for each feed.
fn new_lanes<S: Source + Drop>(
    alloc: Global,
    ring: usize,
    streams: &[StreamDoc],
    feeds: Vec<FeedSource<S>>,
    lookers: &mut LookerList,
) -> Result<(Vec<Work<S>>, Vec<CountedHead>), Memory>
    requires low { 1 ≤ ring }
    requires high { ring ≤ 1_048_576 }
    requires are { AreStreams streams.now }
    requires feeds { length feeds.items ≡ length streams.now }
    requires lookers { length lookers.old.lookers ≡ length streams.now }
    requires new { AreNew lookers.old.lookers }
    ensures same { (lookers.new.word ≡ lookers.old.word) × (lookers.new.room ≡ lookers.old.room) }
    ensures none { OnOk result (lookers.new.lookers ≡ []) }
    ensures unseen { IfOk result (λ r. (place : ℕ) (work : WorkValue S) → slice_get r.0.items place ≡ Some work → (work.looker.word ≡ lookers.old.word) × (work.looker.saw ≡ false)) }
    ensures count { IfOk result (λ r. (length r.0.items ≡ length streams.now) × (length r.1.items ≡ length streams.now)) }
    ensures each { IfOk result (λ r. (place : ℕ) (stream : StreamValue) (feed : FeedValue S) (work : WorkValue S) (head : HeadValue) → slice_get streams.now place ≡ Some stream
        → slice_get feeds.items place ≡ Some feed → slice_get r.0.items place ≡ Some work → slice_get r.1.items place ≡ Some head → IsNewLane ring stream feed work head) }
{
    let mut feeds = feeds;
    let mut works = Vec::with_capacity(alloc, streams.len())?;
    let mut heads = Vec::with_capacity(alloc, streams.len())?;
    for place in 0..streams.len() {
        // There are few feeds, so moving those behind it costs nothing that counts.
        let feed = feeds.remove(0);
        let looker = take_looker(lookers);
        let (work, head) = new_lane(alloc, ring, &streams[place], feed, looker)?;
        works.push_reserved(work);
        heads.push_reserved(head);
    }
    Ok((works, heads))
}

// The lists that a run of so many feeds fills.
fn run_room<S: Source + Drop>(alloc: Global, count: usize) -> Result<RunRoom<S>, Memory>
    ensures none { IfOk result (λ r. (r.started.items ≡ []) × (r.worked.items ≡ []) × (r.joined.items ≡ [])) }
    ensures room { IfOk result (λ r. (count ≤ vec_capacity r.started) × (count ≤ vec_capacity r.worked) × (count ≤ vec_capacity r.joined)) }
{
    let started = Vec::with_capacity(alloc, count)?;
    let worked = Vec::with_capacity(alloc, count)?;
    let joined = Vec::with_capacity(alloc, count)?;
    Ok(RunRoom {
        started,
        worked,
        joined,
    })
}

// So many samples of one lane in a round mean that more wait, or that a small ring is half full.
fn plenty_of(ring: u64, batch: u64) -> u64 {
    (ring / 2).max(1).min(batch)
}

// How a run ended whose writer failed so.
fn stopped_by<S>(fault: WriterFault) -> Outcome<S>
    ensures write { fault ≡ WriterFault.WriteFault → result ≡ Outcome.WriteFault }
    ensures memory { fault ≡ WriterFault.Memory → result ≡ Outcome.Memory }
{
    match fault {
        WriterFault::WriteFault => Outcome::WriteFault,
        WriterFault::Memory => Outcome::Memory,
    }
}

// Records the feeds in threads of a scope, into a sink that is lent.
fn record_within<'s, E, S: Source + Send + Drop + 's, K: Sink, R: Threads + Wait + Clock + Sync>(
    scope: &Scope<'s, E>,
    rt: &'s R,
    ended: &'s AtomicU64,
    feeds: FeedThreads<S>,
    sink: &mut K,
    room: WriterRoom,
    batch: u64,
) -> (Outcome<S>, u64)
    requires ready { (ring : ℕ) × (streams : List StreamValue) × (sources : List (FeedValue S)) × AreThreadsFor ring batch streams sources room.desk feeds }
    ensures run { HaveRun S.left S.faults S.mark batch room.desk feeds (K.held sink.old) (K.held sink.new) result.0 }
    ensures home_at_fault { result.0 ≡ Outcome.WriteFault → result.1 ≡ 0 }
    ensures home_at_memory { result.0 ≡ Outcome.Memory → result.1 ≡ 0 }
    ensures cause { Blames (result.0 ≡ Outcome.WriteFault) (K.write_faults sink.old) (K.write_faults sink.new) }
    ensures rest { K.rest sink.new ≡ K.rest sink.old }
{
    let FeedThreads {
        works,
        heads,
        raiser,
        lookers,
        lists,
        reports,
        sources,
        ring,
    } = feeds;
    let lanes = RunLanes {
        works,
        heads,
        raiser,
        lookers,
    };
    let pace = Pace {
        batch,
        plenty: plenty_of(ring, batch),
    };
    let mut writer = Lent::over(sink, room);
    match write_feeds(scope, rt, ended, lanes, lists, &mut writer, pace) {
        Ok(settled) => conclude(rt, settled, writer, reports, sources),
        Err(fault) => {
            let_go(writer);
            (stopped_by(fault), 0)
        }
    }
}

// Lets a reference go, and what is behind it stay.
fn keep<K>(back: &mut K)
    ensures { back.new ≡ back.old }
{
    let _ = back;
}

impl<S: Source + Send + Drop> FeedThreads<S> {
    /// The feeds of a recording by threads, 1 to 64, each as the stream at its place. `ring` is the most
    /// samples that wait in a feed's ring, 1 to 1,048,576. All memory of the lanes is taken here, of feeds
    /// of texts that of the rings, and that of the halt word; nothing is read.
    ///
    /// `Memory` comes for want of memory alone; the sources are then given up.
    pub fn open(
        alloc: Global,
        ring: usize,
        streams: &[StreamDoc],
        feeds: Vec<FeedSource<S>>,
    ) -> Result<FeedThreads<S>, Memory>
        requires low { 1 ≤ ring }
        requires high { ring ≤ 1_048_576 }
        requires are { AreStreams streams.now }
        requires feeds { length feeds.items ≡ length streams.now }
        requires some { 1 ≤ length streams.now }
        requires few { length streams.now ≤ 64 }
        ensures count { IfOk result (λ t. (length t.works ≡ length streams.now) × (length t.heads ≡ length streams.now)) }
        ensures each { IfOk result (λ t. (place : ℕ) (stream : StreamValue) (feed : FeedValue S) (work : WorkValue S) (head : HeadValue) → slice_get streams.now place ≡ Some stream
            → slice_get feeds.items place ≡ Some feed → slice_get t.works place ≡ Some work → slice_get t.heads place ≡ Some head → IsNewLane ring stream feed work head) }
        ensures halt { IfOk result (λ t. IsNewHalt t.works t.raiser t.lookers) }
    {
        let lists = run_room(alloc, streams.len())?;
        let reports = Vec::with_capacity(alloc, streams.len())?;
        let sources = Vec::with_capacity(alloc, streams.len())?;
        let (raiser, mut lookers) = make_halt(alloc, streams.len())?;
        let (works, heads) = new_lanes(alloc, ring, streams, feeds, &mut lookers)?;
        Ok(FeedThreads {
            works,
            heads,
            raiser,
            lookers,
            lists,
            reports,
            sources,
            ring: ring as u64,
        })
    }

    /// Records by threads: each feed is read in a thread of its own, or here where a thread is refused,
    /// and its samples come over its lane to this thread, which writes them, at most `batch` of one feed
    /// in a row. Each ring drops its oldest sample where it is full. Once all inlets have ended they are
    /// joined, what is left in the lanes is written, and the file is finished. With the outcome comes how
    /// many blocks of the lanes are home, and 0 where it isn't `Done`.
    ///
    /// `Done` says what became of the feeds, and that the file is whole. `WriteFault` comes only where a
    /// write of the sink failed in this call, `Memory` for want of memory alone, and never where all feeds
    /// are of numbers; a part of a recording of the feeds went out then, and all inlets are joined. Once a
    /// write failed, each inlet stops before its next sample, and the threads are joined.
    pub fn record<K: Sink, R: Threads + Wait + Clock + Sync>(
        self,
        rt: &R,
        sink: &mut K,
        room: WriterRoom,
        batch: u64,
    ) -> (Outcome<S>, u64)
        requires ready { (ring : ℕ) × (streams : List StreamValue) × (feeds : List (FeedValue S)) × AreThreadsFor ring batch streams feeds room.desk self }
        ensures done { (ring : ℕ) (streams : List StreamValue) (feeds : List (FeedValue S)) → AreThreadsFor ring batch streams feeds room.desk self
            → IsDone S.left S.faults S.mark ByThreads ring batch streams feeds (K.held sink.old) (K.held sink.new) result.0 }
        ensures stopped { (ring : ℕ) (streams : List StreamValue) (feeds : List (FeedValue S)) → AreThreadsFor ring batch streams feeds room.desk self
            → IsStopped S.left streams feeds (K.held sink.old) (K.held sink.new) result.0 }
        ensures memory { (ring : ℕ) (streams : List StreamValue) (feeds : List (FeedValue S)) → AreThreadsFor ring batch streams feeds room.desk self
            → AreNumbers streams → result.0 ≢ Outcome.Memory }
        ensures home_at_fault { result.0 ≡ Outcome.WriteFault → result.1 ≡ 0 }
        ensures home_at_memory { result.0 ≡ Outcome.Memory → result.1 ≡ 0 }
        ensures cause { Blames (result.0 ≡ Outcome.WriteFault) (K.write_faults sink.old) (K.write_faults sink.new) }
        ensures rest { K.rest sink.new ≡ K.rest sink.old }
    {
        let count = AtomicU64::new(0);
        let ended = &count;
        let feeds = self;
        let (back, told) = thread::scope(
            thread::scope_env(),
            rt,
            move |scope| -> (&mut K, (Outcome<S>, u64))
                requires { (ring : ℕ) × (streams : List StreamValue) × (sources : List (FeedValue S)) × AreThreadsFor ring batch streams sources room.desk feeds }
                ensures same_reference { result.0.ghost_name ≡ sink.entry.ghost_name }
                ensures run { HaveRun S.left S.faults S.mark batch room.desk feeds (K.held sink.entry.now) (K.held result.0.now) result.1.0 }
                ensures home_at_fault { result.1.0 ≡ Outcome.WriteFault → result.1.1 ≡ 0 }
                ensures home_at_memory { result.1.0 ≡ Outcome.Memory → result.1.1 ≡ 0 }
                ensures cause { Blames (result.1.0 ≡ Outcome.WriteFault) (K.write_faults sink.entry.now) (K.write_faults result.0.now) }
                ensures rest { K.rest result.0.now ≡ K.rest sink.entry.now }
            {
                let told = record_within(scope, rt, ended, feeds, sink, room, batch);
                (sink, told)
            },
        );
        keep(back);
        told
    }
}
