//! The work of an inlet: it reads a feed, and puts what it gives into a lane.

ghost use Rattle.std.specs.Prelude.{◌≡◌, ◌≢◌, ◌+◌, ◌≤◌, ◌^◌, [], true, false, length};
ghost use Rattle.xdf_model.specs.Sample.{size_of};
ghost use Rattle.feed_samples.specs.Inlet.{outlook};
ghost use Rattle.thread_run.specs.Work.{HasEnded, HasWorked, IsFresh};

use feed_lane::{LaneStep, LaneTail};
use feed_samples::{FeedEnd, FeedReader};
use halt_word::Looker;
use rec_base::Source;
use std::rt::Clock;
use std::snapshot::Snapshot;
use std::sync::Wait;
use std::thread::Promise;

/// How the work of an inlet ended.
#[derive(Clone, Copy, Debug)]
pub enum InletDone {
    /// The feed ended so.
    Ended(FeedEnd),
    /// There was no memory for a sample.
    Memory,
    /// The run was stopped: a write had failed.
    Halted,
}

/// Reads a feed to its end, and puts each sample into the lane. It looks at the halt word before each
/// sample, and once more before the end.
///
/// `Halted` comes only where a look of this call found the word raised; `Memory` for want of memory alone,
/// and never with numbers. It may not return: a feed may never end.
pub fn inlet_work<S: Source, R: Wait + Clock>(
    rt: &R,
    reader: &mut FeedReader<S>,
    tail: &mut LaneTail,
    looker: &mut Looker,
) -> InletDone
    requires goes { (outlook reader.old.inlet).is_over ≡ false }
    requires fresh { (reader.old.inlet.received ≡ 0) × (tail.old.puts ≡ []) }
    requires counted { reader.old.inlet.byte_limit ≤ 2 ^ 40 }
    requires shape { tail.old.lane.shape ≡ reader.old.inlet.shape }
    ensures same { tail.new.lane ≡ tail.old.lane }
    ensures counts { (reader.new.inlet.received ≡ length tail.new.puts) × (reader.new.inlet.received ≤ reader.old.inlet.byte_limit) }
    ensures put { HasEnded S.left S.faults S.mark (outlook reader.old.inlet).coming reader.old.source reader.new.source (outlook reader.new.inlet) tail.new.puts result }
    ensures memory { 1 ≤ size_of tail.old.lane.shape.format → result ≢ InletDone.Memory }
    ensures word { looker.new.word ≡ looker.old.word }
    ensures looks { looker.new.looks ≡ (looker.old.looks + length tail.new.puts) + 1 }
    ensures halted { result ≡ InletDone.Halted → looker.new.saw ≡ true }
    ensures unseen { result ≢ InletDone.Halted → looker.new.saw ≡ false }
{
    for _ in rt.forever() {
        if looker.seen() {
            return InletDone::Halted;
        }
        match tail.take_from(rt, reader) {
            LaneStep::Sample => {}
            LaneStep::End(end) => return InletDone::Ended(end),
            LaneStep::Memory => return InletDone::Memory,
        }
    }
    unreachable!()
}

/// The reader of a feed that has read nothing, the end of a lane that has put nothing, and one that looks at
/// the halt word.
#[derive(Drop)]
pub(crate) struct Work<S: Source> {
    pub(crate) id: u32,
    pub(crate) reader: FeedReader<S>,
    pub(crate) tail: LaneTail,
    pub(crate) looker: Looker,
}

/// What comes back of it.
#[derive(Drop)]
pub(crate) struct Worked<S: Source> {
    pub(crate) id: u32,
    pub(crate) reader: FeedReader<S>,
    pub(crate) tail: LaneTail,
    pub(crate) looker: Looker,
    pub(crate) done: InletDone,
}

/// What the thread of an inlet promises of what it hands back.
#[derive(Drop)]
pub(crate) struct PutAll<S: Source> {
    pub(crate) work: Snapshot<Work<S>>,
}

impl<S: Source> Promise<Worked<S>> for PutAll<S> {
    ghost use Rattle.thread_run.specs.Work.{HasWorked};

    ghost kept_by = { λ p r. HasWorked S.left S.faults S.mark p.work.value r };
}

/// Does the work.
pub(crate) fn work_on<S: Source, R: Wait + Clock>(rt: &R, work: Work<S>) -> Worked<S>
    requires { IsFresh work }
    ensures { HasWorked S.left S.faults S.mark work result }
{
    let Work {
        id,
        mut reader,
        mut tail,
        mut looker,
    } = work;
    let done = inlet_work(rt, &mut reader, &mut tail, &mut looker);
    Worked {
        id,
        reader,
        tail,
        looker,
        done,
    }
}
