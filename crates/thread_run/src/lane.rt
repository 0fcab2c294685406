//! The writer's side of a lane.

ghost use Rattle.std.specs.Prelude.{◌≡◌, ◌<◌, ◌≤◌, ℕ, List, [], false, length, map, slice_get, Some, None, Option, IfOk, OnOk, OnErr, IsErrOf, IsTrue};
ghost use Rattle.rec_base.specs.Causes.{Blames};
ghost use Rattle.xdf_model.specs.Sample.{size_of};
ghost use Rattle.ring_model.specs.Ring.{IsReached};
ghost use Rattle.recording_model.specs.declared.stream.StreamDoc.{StreamDoc as StreamValue};
ghost use Rattle.recording_model.specs.Batch.{Batch};
ghost use Rattle.loss_model.specs.Loss.{behind_last};
ghost use Rattle.record_writer.specs.Desk.{next_at, shapes_of};
ghost use Rattle.record_writer.specs.Standing.{StandsFor, IsCut};
ghost use Rattle.run_model.specs.Putting.{IsCutAt};
ghost use Rattle.run_model.specs.Rings.{ring_entry};
ghost use Rattle.thread_run.specs.Lanes.{AreGathered, AreWritten, Counts, IsSameLane};

use feed_lane::{LaneHead, LaneLast};
use rec_base::Sink;
use record_writer::{Writer, WriterFault};
use std::sync::Wait;

/// The end of a lane that writes, with how many of its samples were written.
#[derive(Drop)]
pub(crate) struct CountedHead {
    pub(crate) head: LaneHead,
    pub(crate) kept: u64,
}

/// Both ends of a lane in one thread, with how many of its samples were written.
#[derive(Drop)]
pub(crate) struct CountedLast {
    pub(crate) last: LaneLast,
    pub(crate) kept: u64,
}

// Puts what is in a lane to the stream at a place, at most `batch` samples, and answers how many.
fn gather<K: Sink, R: Wait>(
    rt: &R,
    head: &mut LaneHead,
    writer: &mut Writer<'_, K>,
    place: usize,
    batch: u64,
) -> Result<u64, WriterFault>
    requires place { place < length writer.old.room.desk.places }
    requires closed { writer.old.room.desk.count ≡ 0 }
    requires whole { writer.old.room.desk.broken ≡ false }
    requires next { next_at writer.old.room.desk place ≡ behind_last (map ring_entry head.old.taken) }
    requires shape { slice_get (shapes_of writer.old.room.desk) place ≡ Some head.old.lane.shape }
    ensures same_reference { writer.new.sink.ghost_name ≡ writer.old.sink.ghost_name }
    ensures same { head.new.lane ≡ head.old.lane }
    ensures gathered { IfOk result (λ n. (n ≤ batch) × AreGathered place n head.old.taken head.new.taken writer.old.room.desk writer.new.room.desk (K.held writer.old.sink.now) (K.held writer.new.sink.now)) }
    ensures cut { (streams : List StreamValue) (base : Option (List ℕ)) (batches : List Batch)
        → StandsFor streams base (K.held writer.old.sink.now) writer.old.room.desk batches None
        → OnErr result ((some : List Batch) × IsCut streams base (K.held writer.new.sink.now) some × IsCutAt place head.old.taken head.new.taken batches some) }
    ensures memory { IsErrOf result WriterFault.Memory → 1 ≤ size_of head.old.lane.shape.format → ⊥ }
    ensures cause { Blames (IsErrOf result WriterFault.WriteFault) (K.write_faults writer.old.sink.now) (K.write_faults writer.new.sink.now) }
    ensures rest { K.rest writer.new.sink.now ≡ K.rest writer.old.sink.now }
{
    for count in 0..batch {
        if !head.put_oldest(rt, writer, place)? {
            return Ok(count);
        }
    }
    Ok(batch)
}

/// Writes what is in a lane, at most `batch` samples, as one batch of the stream at a place, and answers
/// how many.
///
/// `WriteFault` comes only where a write failed in this call; `Memory` for want of memory alone, and
/// never with numbers.
pub(crate) fn write_some<K: Sink, R: Wait>(
    rt: &R,
    lane: &mut CountedHead,
    writer: &mut Writer<'_, K>,
    place: usize,
    batch: u64,
) -> Result<u64, WriterFault>
    requires place { place < length writer.old.room.desk.places }
    requires closed { writer.old.room.desk.count ≡ 0 }
    requires whole { writer.old.room.desk.broken ≡ false }
    requires next { next_at writer.old.room.desk place ≡ behind_last (map ring_entry lane.old.head.taken) }
    requires shape { slice_get (shapes_of writer.old.room.desk) place ≡ Some lane.old.head.lane.shape }
    requires counted { Counts lane.old.kept lane.old.head.taken }
    ensures same_reference { writer.new.sink.ghost_name ≡ writer.old.sink.ghost_name }
    ensures same { lane.new.head.lane ≡ lane.old.head.lane }
    ensures counted { OnOk result (Counts lane.new.kept lane.new.head.taken) }
    ensures wrote { OnOk result (AreWritten batch place lane.old.head.taken lane.new.head.taken writer.old.room.desk writer.new.room.desk (K.held writer.old.sink.now) (K.held writer.new.sink.now)) }
    ensures cut { (streams : List StreamValue) (base : Option (List ℕ)) (batches : List Batch)
        → StandsFor streams base (K.held writer.old.sink.now) writer.old.room.desk batches None
        → OnErr result ((some : List Batch) × IsCut streams base (K.held writer.new.sink.now) some × IsCutAt place lane.old.head.taken lane.new.head.taken batches some) }
    ensures memory { IsErrOf result WriterFault.Memory → 1 ≤ size_of lane.old.head.lane.shape.format → ⊥ }
    ensures cause { Blames (IsErrOf result WriterFault.WriteFault) (K.write_faults writer.old.sink.now) (K.write_faults writer.new.sink.now) }
    ensures rest { K.rest writer.new.sink.now ≡ K.rest writer.old.sink.now }
{
    let count = gather(rt, &mut lane.head, writer, place, batch)?;
    writer.close_batch()?;
    lane.kept = lane.kept.saturating_add(count);
    Ok(count)
}

// Puts what is left in a lane to the stream at a place, at most `batch` samples, and answers how many;
// fewer than `batch` are all.
fn gather_rest<K: Sink, R: Wait>(
    rt: &R,
    last: &mut LaneLast,
    writer: &mut Writer<'_, K>,
    place: usize,
    batch: u64,
) -> Result<u64, WriterFault>
    requires place { place < length writer.old.room.desk.places }
    requires closed { writer.old.room.desk.count ≡ 0 }
    requires whole { writer.old.room.desk.broken ≡ false }
    requires next { next_at writer.old.room.desk place ≡ behind_last (map ring_entry last.old.state.taken) }
    requires shape { slice_get (shapes_of writer.old.room.desk) place ≡ Some last.old.shape }
    requires reached { IsReached last.old.capacity last.old.state }
    ensures same_reference { writer.new.sink.ghost_name ≡ writer.old.sink.ghost_name }
    ensures same { IsSameLane last.old last.new }
    ensures dropped { OnOk result (last.new.state.dropped ≡ last.old.state.dropped) }
    ensures reached { IsReached last.new.capacity last.new.state }
    ensures empty { IfOk result (λ n. n < batch → last.new.state.queue ≡ []) }
    ensures gathered { IfOk result (λ n. (n ≤ batch) × AreGathered place n last.old.state.taken last.new.state.taken writer.old.room.desk writer.new.room.desk (K.held writer.old.sink.now) (K.held writer.new.sink.now)) }
    ensures cut { (streams : List StreamValue) (base : Option (List ℕ)) (batches : List Batch)
        → StandsFor streams base (K.held writer.old.sink.now) writer.old.room.desk batches None
        → OnErr result ((some : List Batch) × IsCut streams base (K.held writer.new.sink.now) some × IsCutAt place last.old.state.taken last.new.state.taken batches some) }
    ensures memory { IsErrOf result WriterFault.Memory → 1 ≤ size_of last.old.shape.format → ⊥ }
    ensures cause { Blames (IsErrOf result WriterFault.WriteFault) (K.write_faults writer.old.sink.now) (K.write_faults writer.new.sink.now) }
    ensures rest { K.rest writer.new.sink.now ≡ K.rest writer.old.sink.now }
{
    for count in 0..batch {
        if !last.put_oldest(rt, writer, place)? {
            return Ok(count);
        }
    }
    Ok(batch)
}

// Writes what is left in a lane, at most `batch` samples, as one batch, and answers whether that was all.
fn write_more<K: Sink, R: Wait>(
    rt: &R,
    lane: &mut CountedLast,
    writer: &mut Writer<'_, K>,
    place: usize,
    batch: u64,
) -> Result<bool, WriterFault>
    requires place { place < length writer.old.room.desk.places }
    requires closed { writer.old.room.desk.count ≡ 0 }
    requires whole { writer.old.room.desk.broken ≡ false }
    requires next { next_at writer.old.room.desk place ≡ behind_last (map ring_entry lane.old.last.state.taken) }
    requires shape { slice_get (shapes_of writer.old.room.desk) place ≡ Some lane.old.last.shape }
    requires reached { IsReached lane.old.last.capacity lane.old.last.state }
    requires counted { Counts lane.old.kept lane.old.last.state.taken }
    ensures same_reference { writer.new.sink.ghost_name ≡ writer.old.sink.ghost_name }
    ensures same { IsSameLane lane.old.last lane.new.last }
    ensures dropped { OnOk result (lane.new.last.state.dropped ≡ lane.old.last.state.dropped) }
    ensures reached { IsReached lane.new.last.capacity lane.new.last.state }
    ensures counted { OnOk result (Counts lane.new.kept lane.new.last.state.taken) }
    ensures empty { IfOk result (λ all. IsTrue all → lane.new.last.state.queue ≡ []) }
    ensures wrote { OnOk result (AreWritten batch place lane.old.last.state.taken lane.new.last.state.taken writer.old.room.desk writer.new.room.desk (K.held writer.old.sink.now) (K.held writer.new.sink.now)) }
    ensures cut { (streams : List StreamValue) (base : Option (List ℕ)) (batches : List Batch)
        → StandsFor streams base (K.held writer.old.sink.now) writer.old.room.desk batches None
        → OnErr result ((some : List Batch) × IsCut streams base (K.held writer.new.sink.now) some × IsCutAt place lane.old.last.state.taken lane.new.last.state.taken batches some) }
    ensures memory { IsErrOf result WriterFault.Memory → 1 ≤ size_of lane.old.last.shape.format → ⊥ }
    ensures cause { Blames (IsErrOf result WriterFault.WriteFault) (K.write_faults writer.old.sink.now) (K.write_faults writer.new.sink.now) }
    ensures rest { K.rest writer.new.sink.now ≡ K.rest writer.old.sink.now }
{
    let count = gather_rest(rt, &mut lane.last, writer, place, batch)?;
    writer.close_batch()?;
    lane.kept = lane.kept.saturating_add(count);
    Ok(count < batch)
}

/// Writes all that is left in a lane, in batches of at most `batch` samples, of the stream at a place.
///
/// `WriteFault` comes only where a write failed in this call; `Memory` for want of memory alone, and
/// never with numbers.
pub(crate) fn write_rest<K: Sink, R: Wait>(
    rt: &R,
    lane: &mut CountedLast,
    writer: &mut Writer<'_, K>,
    place: usize,
    batch: u64,
) -> Result<(), WriterFault>
    requires place { place < length writer.old.room.desk.places }
    requires closed { writer.old.room.desk.count ≡ 0 }
    requires whole { writer.old.room.desk.broken ≡ false }
    requires next { next_at writer.old.room.desk place ≡ behind_last (map ring_entry lane.old.last.state.taken) }
    requires shape { slice_get (shapes_of writer.old.room.desk) place ≡ Some lane.old.last.shape }
    requires reached { IsReached lane.old.last.capacity lane.old.last.state }
    requires counted { Counts lane.old.kept lane.old.last.state.taken }
    ensures same_reference { writer.new.sink.ghost_name ≡ writer.old.sink.ghost_name }
    ensures same { IsSameLane lane.old.last lane.new.last }
    ensures dropped { OnOk result (lane.new.last.state.dropped ≡ lane.old.last.state.dropped) }
    ensures reached { IsReached lane.new.last.capacity lane.new.last.state }
    ensures counted { OnOk result (Counts lane.new.kept lane.new.last.state.taken) }
    ensures empty { OnOk result (lane.new.last.state.queue ≡ []) }
    ensures wrote { OnOk result (AreWritten batch place lane.old.last.state.taken lane.new.last.state.taken writer.old.room.desk writer.new.room.desk (K.held writer.old.sink.now) (K.held writer.new.sink.now)) }
    ensures cut { (streams : List StreamValue) (base : Option (List ℕ)) (batches : List Batch)
        → StandsFor streams base (K.held writer.old.sink.now) writer.old.room.desk batches None
        → OnErr result ((some : List Batch) × IsCut streams base (K.held writer.new.sink.now) some × IsCutAt place lane.old.last.state.taken lane.new.last.state.taken batches some) }
    ensures memory { IsErrOf result WriterFault.Memory → 1 ≤ size_of lane.old.last.shape.format → ⊥ }
    ensures cause { Blames (IsErrOf result WriterFault.WriteFault) (K.write_faults writer.old.sink.now) (K.write_faults writer.new.sink.now) }
    ensures rest { K.rest writer.new.sink.now ≡ K.rest writer.old.sink.now }
{
    for _ in rt.forever() {
        if write_more(rt, lane, writer, place, batch)? {
            return Ok(());
        }
    }
    unreachable!()
}
