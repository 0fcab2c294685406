//! A feed whose inlet has ended.

ghost use Rattle.std.specs.Prelude.{◌≡◌, ◌<◌, ◌≤◌, ℕ, List, false, length, map, slice_get, Some, None, Option, [], vec_capacity, OnOk, OnErr, IsErrOf};
ghost use Rattle.xdf_model.specs.Sample.{size_of};
ghost use Rattle.ring_model.specs.Ring.{IsReached};
ghost use Rattle.rec_base.specs.Causes.{Blames};
ghost use Rattle.recording_model.specs.declared.stream.StreamDoc.{StreamDoc as StreamValue};
ghost use Rattle.recording_model.specs.Batch.{Batch};
ghost use Rattle.loss_model.specs.Loss.{behind_last};
ghost use Rattle.record_writer.specs.Desk.{next_at, shapes_of};
ghost use Rattle.record_writer.specs.Standing.{StandsFor, IsCut};
ghost use Rattle.run_model.specs.Putting.{IsCutAt};
ghost use Rattle.run_model.specs.Rings.{ring_entry};
ghost use Rattle.thread_run.specs.Lanes.{AreWritten, Counts};
ghost use Rattle.thread_run.specs.declared.lane.CountedHead.{CountedHead as HeadValue};
ghost use Rattle.thread_run.specs.declared.settle.Joined.{Joined as JoinedValue};
ghost use Rattle.thread_run.specs.declared.work.Worked.{Worked as WorkedValue};
ghost use Rattle.thread_run.specs.Rounds.{AreDrawn, AreOfNumbers, IsCutOf};
ghost use Rattle.thread_run.specs.Settled.{AreReached, IsJoined, IsSameFeed, given_in};

use crate::lane::{CountedHead, CountedLast, write_rest};
use crate::work::{InletDone, Worked};
use feed_lane::join_lane;
use feed_samples::FeedReader;
use halt_word::{Looker, LookerList};
use rec_base::{Sink, Source};
use record_writer::{Writer, WriterFault};
use std::sync::Wait;

/// A feed whose inlet has ended, with both ends of its lane.
#[derive(Drop)]
pub(crate) struct Joined<S: Source> {
    pub(crate) id: u32,
    pub(crate) reader: FeedReader<S>,
    pub(crate) done: InletDone,
    pub(crate) lane: CountedLast,
}

// Joins the ends of a lane, and hands back what looked at the halt word.
fn join_one<S: Source + Drop, R: Wait>(
    rt: &R,
    worked: Worked<S>,
    head: CountedHead,
) -> (Joined<S>, Looker)
    requires { worked.tail.lane ≡ head.head.lane }
    ensures joined { IsJoined worked head result.0 }
    ensures looker { result.1 ≡ worked.looker }
{
    let Worked {
        id,
        reader,
        tail,
        looker,
        done,
    } = worked;
    let CountedHead { head, kept } = head;
    let lane = CountedLast {
        last: join_lane(rt, tail, head),
        kept,
    };
    let joined = Joined {
        id,
        reader,
        done,
        lane,
    };
    (joined, looker)
}

/// Joins the ends of all lanes, in order, and puts what looked at the halt word into its list again. The
/// room for both lists is there. It takes no memory.
pub(crate) fn join_all<S: Source + Drop, R: Wait>(
    rt: &R,
    worked: Vec<Worked<S>>,
    heads: Vec<CountedHead>,
    lookers: &mut LookerList,
    joined: Vec<Joined<S>>,
) -> Vec<Joined<S>>
    requires count { length worked.items ≡ length heads.items }
    requires lanes { (p : ℕ) (w : WorkedValue _) (h : HeadValue) → slice_get worked.items p ≡ Some w → slice_get heads.items p ≡ Some h → w.tail.lane ≡ h.head.lane }
    requires word { (p : ℕ) (w : WorkedValue _) → slice_get worked.items p ≡ Some w → w.looker.word ≡ lookers.old.word }
    requires none { (joined.items ≡ []) × (lookers.old.lookers ≡ []) }
    requires room { (length worked.items ≤ vec_capacity joined) × (length worked.items ≤ lookers.old.room) }
    ensures word { lookers.new.word ≡ lookers.old.word }
    ensures lookers { lookers.new.lookers ≡ map (λ w. w.looker) worked.items }
    ensures count { length result.items ≡ length worked.items }
    ensures each { (p : ℕ) (w : WorkedValue _) (h : HeadValue) (s : JoinedValue _) → slice_get worked.items p ≡ Some w → slice_get heads.items p ≡ Some h → slice_get result.items p ≡ Some s → IsJoined w h s }
{
    let mut worked = worked;
    let mut heads = heads;
    let mut joined = joined;
    for _ in 0..worked.len() {
        // There are few feeds, so moving those behind it costs nothing that counts.
        let inlet = worked.remove(0);
        let head = heads.remove(0);
        let (one, looker) = join_one(rt, inlet, head);
        joined.push_reserved(one);
        lookers.push(looker);
    }
    joined
}

// Writes what is left in a lane, in batches of at most `batch` entries.
fn empty_one<S: Source + Drop, K: Sink, R: Wait>(
    rt: &R,
    one: &mut Joined<S>,
    writer: &mut Writer<'_, K>,
    place: usize,
    batch: u64,
) -> Result<(), WriterFault>
    requires place { place < length writer.old.room.desk.places }
    requires closed { writer.old.room.desk.count ≡ 0 }
    requires whole { writer.old.room.desk.broken ≡ false }
    requires next { next_at writer.old.room.desk place ≡ behind_last (map ring_entry one.old.lane.last.state.taken) }
    requires shape { slice_get (shapes_of writer.old.room.desk) place ≡ Some one.old.lane.last.shape }
    requires reached { IsReached one.old.lane.last.capacity one.old.lane.last.state }
    requires counted { Counts one.old.lane.kept one.old.lane.last.state.taken }
    ensures same_reference { writer.new.sink.ghost_name ≡ writer.old.sink.ghost_name }
    ensures same { IsSameFeed one.old one.new }
    ensures dropped { OnOk result (one.new.lane.last.state.dropped ≡ one.old.lane.last.state.dropped) }
    ensures counted { OnOk result (Counts one.new.lane.kept one.new.lane.last.state.taken) }
    ensures empty { OnOk result (one.new.lane.last.state.queue ≡ []) }
    ensures wrote { OnOk result (AreWritten batch place one.old.lane.last.state.taken one.new.lane.last.state.taken writer.old.room.desk writer.new.room.desk (K.held writer.old.sink.now) (K.held writer.new.sink.now)) }
    ensures cut { (streams : List StreamValue) (base : Option (List ℕ)) (batches : List Batch)
        → StandsFor streams base (K.held writer.old.sink.now) writer.old.room.desk batches None
        → OnErr result ((some : List Batch) × IsCut streams base (K.held writer.new.sink.now) some × IsCutAt place one.old.lane.last.state.taken one.new.lane.last.state.taken batches some) }
    ensures memory { IsErrOf result WriterFault.Memory → 1 ≤ size_of one.old.lane.last.shape.format → ⊥ }
    ensures cause { Blames (IsErrOf result WriterFault.WriteFault) (K.write_faults writer.old.sink.now) (K.write_faults writer.new.sink.now) }
    ensures rest { K.rest writer.new.sink.now ≡ K.rest writer.old.sink.now }
{
    write_rest(rt, &mut one.lane, writer, place, batch)
}

/// Writes what is left in each lane, in order, in batches of at most `batch` entries.
///
/// `WriteFault` comes only where a write failed in this call; `Memory` for want of memory alone, and
/// never where all lanes are of numbers.
pub(crate) fn empty_all<S: Source + Drop, K: Sink, R: Wait>(
    rt: &R,
    joined: &mut [Joined<S>],
    writer: &mut Writer<'_, K>,
    batch: u64,
) -> Result<(), WriterFault>
    requires reached { AreReached joined.old }
    requires drawn { (streams : List StreamValue) × (base : Option (List ℕ)) × (batches : List Batch) × AreDrawn batch streams base (K.held writer.old.sink.now) writer.old.room.desk batches (map given_in joined.old) }
    ensures same_reference { writer.new.sink.ghost_name ≡ writer.old.sink.ghost_name }
    ensures count { length joined.new ≡ length joined.old }
    ensures same { (p : ℕ) (before after : JoinedValue _) → slice_get joined.old p ≡ Some before → slice_get joined.new p ≡ Some after → IsSameFeed before after }
    ensures empty { OnOk result ((p : ℕ) (before after : JoinedValue _) → slice_get joined.old p ≡ Some before → slice_get joined.new p ≡ Some after
        → (after.lane.last.state.queue ≡ []) × (after.lane.last.state.dropped ≡ before.lane.last.state.dropped)) }
    ensures drawn { (streams : List StreamValue) (base : Option (List ℕ)) (batches : List Batch) → AreDrawn batch streams base (K.held writer.old.sink.now) writer.old.room.desk batches (map given_in joined.old)
        → OnOk result ((more : List Batch) × AreDrawn batch streams base (K.held writer.new.sink.now) writer.new.room.desk more (map given_in joined.new)) }
    ensures cut { (streams : List StreamValue) (base : Option (List ℕ)) (batches : List Batch) → AreDrawn batch streams base (K.held writer.old.sink.now) writer.old.room.desk batches (map given_in joined.old)
        → OnErr result (IsCutOf streams base (K.held writer.new.sink.now) (map given_in joined.new)) }
    ensures memory { IsErrOf result WriterFault.Memory → AreOfNumbers (map given_in joined.old) → ⊥ }
    ensures cause { Blames (IsErrOf result WriterFault.WriteFault) (K.write_faults writer.old.sink.now) (K.write_faults writer.new.sink.now) }
    ensures rest { K.rest writer.new.sink.now ≡ K.rest writer.old.sink.now }
{
    for place in 0..joined.len() {
        empty_one(rt, &mut joined[place], writer, place, batch)?;
    }
    Ok(())
}
