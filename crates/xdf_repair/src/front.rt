//! Repairs a file from its front.

ghost use Rattle.std.specs.Prelude.{◌≡◌, ◌≤◌};
ghost use Rattle.rec_base.specs.Causes.{Blames, Rose};
ghost use Rattle.rec_base.specs.Known.{Loses};
ghost use Rattle.xdf_repair.specs.Repair.{IsFresh, RepairedSo};

use crate::copied::copy_chunks;
use crate::repaired::Repaired;
use file_reader::{FileReader, Rest};
use rec_base::{Sink, Source};

/// Writes the magic and the whole chunks at the front of a file, byte for byte, up to the first place
/// that holds none; then reads the input to its end to count what is left out. What a chunk is, is of
/// XDF 1.0, "Chunk layout"; how a file is repaired is this project's own.
///
/// Of the file just the magic was taken, by `FileReader::open`. `Done` comes where the whole input lies
/// within the limit. `ReadFault` and `WriteFault` come only where a read or a write failed in this call,
/// and `SizeLimit` only where a byte past the limit was read. After any of these the sink has grown by a
/// front of the magic and the whole chunks that were met, and so it has after `Memory`, which comes for
/// want of memory alone.
pub fn repair_front<S: Source, K: Sink>(reader: &mut FileReader<S>, sink: &mut K) -> Repaired
    requires fresh { IsFresh reader.old.file reader.old.skipped }
    ensures repaired { RepairedSo (S.left reader.old.source) (S.left reader.new.source) (K.held sink.old) (K.held sink.new) reader.old.file.byte_limit result }
    ensures read_fault { result ≡ Repaired.ReadFault → Rose (S.faults reader.old.source) (S.faults reader.new.source) }
    ensures read_later { S.faults reader.old.source ≤ S.faults reader.new.source }
    ensures read_quiet { (result ≡ Repaired.ReadFault → ⊥) → (result ≡ Repaired.WriteFault → ⊥) → S.faults reader.new.source ≡ S.faults reader.old.source }
    ensures write_fault { Blames (result ≡ Repaired.WriteFault) (K.write_faults sink.old) (K.write_faults sink.new) }
    ensures marked { S.mark reader.new.source ≡ S.mark reader.old.source }
    ensures left { Loses (S.left reader.old.source) (S.left reader.new.source) }
    ensures rest { K.rest sink.new ≡ K.rest sink.old }
{
    let copied = match copy_chunks(reader, sink) {
        Ok(copied) => copied,
        Err(fault) => return fault,
    };
    match reader.skip_rest() {
        Rest::End { size } => Repaired::Done {
            chunks: copied.chunks,
            bytes: copied.bytes,
            skipped: size - copied.bytes,
        },
        Rest::ReadFault => Repaired::ReadFault,
        Rest::SizeLimit => Repaired::SizeLimit,
    }
}
