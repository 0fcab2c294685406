//! The writer's rounds over the lanes.

ghost use Rattle.std.specs.Prelude.{◌≡◌, ◌≤◌, ◌<◌, ℕ, List, length, map, Option, OnOk, OnErr, IsErrOf};
ghost use Rattle.rec_base.specs.Causes.{Blames};
ghost use Rattle.recording_model.specs.declared.stream.StreamDoc.{StreamDoc as StreamValue};
ghost use Rattle.recording_model.specs.Batch.{Batch};
ghost use Rattle.thread_run.specs.Rounds.{AreDrawn, AreOfNumbers, IsCutOf, given_by, lanes_of};

use crate::lane::{CountedHead, write_some};
use rec_base::Sink;
use record_writer::{Writer, WriterFault};
use std::rt::Clock;
use std::sync::Wait;
use std::sync::atomic::{AtomicU64, Ordering};
use std::thread::sleep;
use std::time::Duration;

/// Goes once round the lanes, writes of each what is in it, at most `batch` samples, as one batch, and
/// answers the most that it wrote of one lane.
///
/// `WriteFault` comes only where a write failed in this call; `Memory` for want of memory alone, and
/// never where all lanes are of numbers.
pub(crate) fn go_round<K: Sink, R: Wait>(
    rt: &R,
    heads: &mut [CountedHead],
    writer: &mut Writer<'_, K>,
    batch: u64,
) -> Result<u64, WriterFault>
    requires drawn { (streams : List StreamValue) × (base : Option (List ℕ)) × (batches : List Batch) × AreDrawn batch streams base (K.held writer.old.sink.now) writer.old.room.desk batches (map given_by heads.old) }
    ensures same_reference { writer.new.sink.ghost_name ≡ writer.old.sink.ghost_name }
    ensures lanes { lanes_of heads.new ≡ lanes_of heads.old }
    ensures drawn { (streams : List StreamValue) (base : Option (List ℕ)) (batches : List Batch) → AreDrawn batch streams base (K.held writer.old.sink.now) writer.old.room.desk batches (map given_by heads.old)
        → OnOk result ((more : List Batch) × AreDrawn batch streams base (K.held writer.new.sink.now) writer.new.room.desk more (map given_by heads.new)) }
    ensures cut { (streams : List StreamValue) (base : Option (List ℕ)) (batches : List Batch) → AreDrawn batch streams base (K.held writer.old.sink.now) writer.old.room.desk batches (map given_by heads.old)
        → OnErr result (IsCutOf streams base (K.held writer.new.sink.now) (map given_by heads.new)) }
    ensures memory { IsErrOf result WriterFault.Memory → AreOfNumbers (map given_by heads.old) → ⊥ }
    ensures cause { Blames (IsErrOf result WriterFault.WriteFault) (K.write_faults writer.old.sink.now) (K.write_faults writer.new.sink.now) }
    ensures rest { K.rest writer.new.sink.now ≡ K.rest writer.old.sink.now }
{
    let mut most = 0;
    for place in 0..heads.len() {
        let count = write_some(rt, &mut heads[place], writer, place, batch)?;
        most = most.max(count);
    }
    Ok(most)
}

// The longest pause, in milliseconds: a sample is in the file within a few tens of them.
const LONGEST_PAUSE: u64 = 16;

/// How many milliseconds to pause after a round that wrote at most `most` samples of a lane, where the
/// pause before was `pause`.
///
/// None where a lane gave `plenty`: samples wait, or will soon fill a small ring, and waiting would lose
/// them. Else twice as long as before, up to 16: feeds at rest burn no processor, and slow ones get few
/// and larger chunks.
fn next_pause(pause: u64, most: u64, plenty: u64) -> u64
    ensures { result ≤ 16 }
{
    if most >= plenty {
        return 0;
    }
    if pause == 0 {
        return 1;
    }
    pause.min(LONGEST_PAUSE / 2) * 2
}

// Sleeps for so many milliseconds. Where that is none it goes on, and doesn't yield, which would give this
// thread's time to the threads that fill the rings.
fn pause_for<R: Clock>(rt: &R, pause: u64) {
    if pause > 0 {
        sleep(rt, Duration::from_millis(pause));
    }
}

/// Goes round until so many inlets have said that they ended. That is a hint: what is left in the lanes
/// is written behind the joins. It pauses between rounds as `next_pause` says, where a lane that gave
/// `plenty` samples has more.
///
/// `WriteFault` and `Memory` come as in `go_round`.
pub(crate) fn go_until<K: Sink, R: Wait + Clock>(
    rt: &R,
    ended: &AtomicU64,
    count: u64,
    heads: &mut [CountedHead],
    writer: &mut Writer<'_, K>,
    batch: u64,
    plenty: u64,
) -> Result<(), WriterFault>
    requires drawn { (streams : List StreamValue) × (base : Option (List ℕ)) × (batches : List Batch) × AreDrawn batch streams base (K.held writer.old.sink.now) writer.old.room.desk batches (map given_by heads.old) }
    ensures same_reference { writer.new.sink.ghost_name ≡ writer.old.sink.ghost_name }
    ensures lanes { lanes_of heads.new ≡ lanes_of heads.old }
    ensures drawn { (streams : List StreamValue) (base : Option (List ℕ)) (batches : List Batch) → AreDrawn batch streams base (K.held writer.old.sink.now) writer.old.room.desk batches (map given_by heads.old)
        → OnOk result ((more : List Batch) × AreDrawn batch streams base (K.held writer.new.sink.now) writer.new.room.desk more (map given_by heads.new)) }
    ensures cut { (streams : List StreamValue) (base : Option (List ℕ)) (batches : List Batch) → AreDrawn batch streams base (K.held writer.old.sink.now) writer.old.room.desk batches (map given_by heads.old)
        → OnErr result (IsCutOf streams base (K.held writer.new.sink.now) (map given_by heads.new)) }
    ensures memory { IsErrOf result WriterFault.Memory → AreOfNumbers (map given_by heads.old) → ⊥ }
    ensures cause { Blames (IsErrOf result WriterFault.WriteFault) (K.write_faults writer.old.sink.now) (K.write_faults writer.new.sink.now) }
    ensures rest { K.rest writer.new.sink.now ≡ K.rest writer.old.sink.now }
{
    let mut pause = 0;
    for _ in rt.forever() {
        let most = go_round(rt, heads, writer, batch)?;
        if ended.load(Ordering::SeqCst) >= count {
            return Ok(());
        }
        pause = next_pause(pause, most, plenty);
        pause_for(rt, pause);
    }
    unreachable!()
}
