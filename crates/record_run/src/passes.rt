//! The two passes of a turn over all inlets.

ghost use Rattle.std.specs.Prelude.{◌≡◌, ◌≤◌, ℕ, List, [], ◌++◌, false, length, slice_get, Some, None, Option, OnOk, OnErr, IsErrOf};
ghost use Rattle.rec_base.specs.Causes.{Blames};
ghost use Rattle.recording_model.specs.declared.stream.StreamDoc.{StreamDoc as StreamValue};
ghost use Rattle.recording_model.specs.Batch.{Batch};
ghost use Rattle.record_writer.specs.Desk.{next_at, shapes_of};
ghost use Rattle.record_writer.specs.Standing.{StandsFor};
ghost use Rattle.record_run.specs.Inlets.{InletView, IsFilled, IsDrained, AreNumeric, AreWaitingAll, waiting_batches};
ghost use Rattle.record_run.specs.Cutting.{IsCutQueues};

use crate::inlet::Inlet;
use rec_base::{Memory, Sink, Source};
use record_writer::{Writer, WriterFault};

/// Each feed that hasn't ended puts up to `batch` samples into its ring. `Memory` comes for want of
/// memory alone, and never where all feeds are of numbers.
pub(crate) fn fill_all<S: Source>(inlets: &mut [Inlet<S>], batch: u64) -> Result<(), Memory>
    ensures count { OnOk result (length inlets.new ≡ length inlets.old) }
    ensures filled { ((p : ℕ) (x : InletView S) → slice_get inlets.old p ≡ Some x → x.ring.queue ≡ [])
        → OnOk result ((p : ℕ) (x y : InletView S) → slice_get inlets.old p ≡ Some x → slice_get inlets.new p ≡ Some y
        → IsFilled S.left S.faults S.mark batch x y) }
    ensures memory { OnErr result (AreNumeric inlets.old → ⊥) }
{
    for place in 0..inlets.len() {
        inlets[place].fill(batch)?;
    }
    Ok(())
}

/// What waits in each ring is written as one batch. `Memory` comes as in `fill_all`.
pub(crate) fn drain_all<S: Source, K: Sink>(
    inlets: &mut [Inlet<S>],
    writer: &mut Writer<'_, K>,
) -> Result<(), WriterFault>
    requires closed { writer.old.room.desk.count ≡ 0 }
    requires whole { writer.old.room.desk.broken ≡ false }
    requires waiting { AreWaitingAll writer.old.room.desk inlets.old }
    ensures same_reference { writer.new.sink.ghost_name ≡ writer.old.sink.ghost_name }
    ensures count { OnOk result (length inlets.new ≡ length inlets.old) }
    ensures drained { OnOk result ((p : ℕ) (x y : InletView S) → slice_get inlets.old p ≡ Some x → slice_get inlets.new p ≡ Some y → IsDrained x y) }
    ensures put { (streams : List StreamValue) (base : Option (List ℕ)) (batches : List Batch)
        → StandsFor streams base (K.held writer.old.sink.now) writer.old.room.desk batches None
        → OnOk result (StandsFor streams base (K.held writer.new.sink.now) writer.new.room.desk (batches ++ waiting_batches 0 inlets.old) None) }
    ensures cut { (streams : List StreamValue) (base : Option (List ℕ)) (batches : List Batch)
        → StandsFor streams base (K.held writer.old.sink.now) writer.old.room.desk batches None
        → OnErr result (IsCutQueues streams base (K.held writer.new.sink.now) inlets.old batches) }
    ensures next { OnOk result ((p : ℕ) (x : InletView S) → slice_get inlets.old p ≡ Some x → next_at writer.new.room.desk p ≤ x.ring.pushes) }
    ensures shapes { OnOk result (shapes_of writer.new.room.desk ≡ shapes_of writer.old.room.desk) }
    ensures closed { OnOk result (writer.new.room.desk.count ≡ 0) }
    ensures whole { OnOk result (writer.new.room.desk.broken ≡ false) }
    ensures memory { IsErrOf result WriterFault.Memory → AreNumeric inlets.old → ⊥ }
    ensures cause { Blames (IsErrOf result WriterFault.WriteFault) (K.write_faults writer.old.sink.now) (K.write_faults writer.new.sink.now) }
    ensures rest { K.rest writer.new.sink.now ≡ K.rest writer.old.sink.now }
{
    for place in 0..inlets.len() {
        inlets[place].drain(writer, place)?;
    }
    Ok(())
}
