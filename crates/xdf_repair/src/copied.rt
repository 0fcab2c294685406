//! Writes the whole chunks at the front of a file.

ghost use Rattle.std.specs.Prelude.{◌≡◌, ◌≤◌, None, IfOk, IfErr, OnOk, IsErrOf};
ghost use Rattle.rec_base.specs.Causes.{Blames, Rose};
ghost use Rattle.file_reader.specs.FileInlet.{HasStopped};
ghost use Rattle.xdf_repair.specs.Repair.{IsFresh, RepairedSo};
ghost use Rattle.xdf_repair.specs.Copying.{IsCopied, NoneStands};

use crate::repaired::Repaired;
use crate::turn::{Turn, turn_by};
use crate::waiting::{ROOM, gather, put_behind};
use chunk_encoder::write_all_of;
use file_reader::FileReader;
use rec_base::{Failed, Sink, Source};

/// What was written: so many chunks, and so many bytes with the magic.
#[derive(Clone, Copy)]
pub(crate) struct Copied {
    pub chunks: u64,
    pub bytes: u64,
}

/// Writes the magic and the bytes of each whole chunk, up to the first place that holds none. What waits
/// is written at every end but that of a failed write.
pub(crate) fn copy_chunks<S: Source, K: Sink>(
    reader: &mut FileReader<S>,
    sink: &mut K,
) -> Result<Copied, Repaired>
    requires fresh { IsFresh reader.old.file reader.old.skipped }
    ensures copied { IfOk result (λ c. IsCopied (S.left reader.old.source) (S.left reader.new.source) (K.held sink.old) (K.held sink.new) reader.new.file c.chunks c.bytes) }
    ensures all { OnOk result (NoneStands reader.new.file) }
    ensures stopped { OnOk result (HasStopped (S.left reader.new.source) reader.new.file reader.new.file.reading) }
    ensures fresh { OnOk result (reader.new.skipped ≡ None) }
    ensures err { IfErr result (λ fault. RepairedSo (S.left reader.old.source) (S.left reader.new.source) (K.held sink.old) (K.held sink.new) reader.old.file.byte_limit fault) }
    ensures limit { reader.new.file.byte_limit ≡ reader.old.file.byte_limit }
    ensures read_fault { IsErrOf result Repaired.ReadFault → Rose (S.faults reader.old.source) (S.faults reader.new.source) }
    ensures read_later { S.faults reader.old.source ≤ S.faults reader.new.source }
    ensures read_quiet { (IsErrOf result Repaired.ReadFault → ⊥) → (IsErrOf result Repaired.WriteFault → ⊥) → S.faults reader.new.source ≡ S.faults reader.old.source }
    ensures write_fault { Blames (IsErrOf result Repaired.WriteFault) (K.write_faults sink.old) (K.write_faults sink.new) }
    ensures marked { S.mark reader.new.source ≡ S.mark reader.old.source }
    ensures rest { K.rest sink.new ≡ K.rest sink.old }
{
    let mut room = [0; ROOM];
    let mut waiting = put_behind(&mut room, 0, b"XDF:");
    let mut chunks: u64 = 0;
    let mut bytes: u64 = 4;
    'chunks: loop {
        match turn_by(reader.pass()) {
            Turn::Copy => {
                let text = reader.last_bytes();
                match gather(sink, &mut room, waiting, text) {
                    Ok(count) => waiting = count,
                    Err(Failed) => return Err(Repaired::WriteFault),
                }
                chunks += 1;
                bytes += text.len() as u64;
            }
            Turn::Skip => {
                if write_all_of(sink, &room[..waiting]).is_err() {
                    return Err(Repaired::WriteFault);
                }
                return Ok(Copied { chunks, bytes });
            }
            Turn::Stop(fault) => {
                if write_all_of(sink, &room[..waiting]).is_err() {
                    return Err(Repaired::WriteFault);
                }
                return Err(fault);
            }
        }
    }
}
