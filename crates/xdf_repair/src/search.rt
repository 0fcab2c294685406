//! Repairs a file behind damage too.

ghost use Rattle.std.specs.Prelude.{◌≡◌, ◌≤◌};
ghost use Rattle.rec_base.specs.Causes.{Blames, Rose};
ghost use Rattle.rec_base.specs.Known.{Loses};
ghost use Rattle.boundary_search.specs.Salvage.{IsFresh};
ghost use Rattle.xdf_repair.specs.Search.{SearchedSo};

use crate::repaired::Repaired;
use crate::waiting::{ROOM, gather, put_behind};
use boundary_search::{Salvaged, Salvager};
use chunk_encoder::write_all_of;
use rec_base::{Failed, Sink, Source};

/// Writes the magic and each whole chunk of a damaged file, byte for byte: those up to the damage, and
/// those behind it. Where no whole chunk stands, the bytes up to the end of the next boundary's bytes
/// are left out, and counted. Behind a boundary that is whole a chunk begins (XDF 1.0, "Boundary
/// chunk"); how a file is repaired is this project's own.
///
/// Of the file just the magic was taken, by `Salvager::open`. `Done` comes where the whole input lies
/// within the limit. `ReadFault` and `WriteFault` come only where a read or a write failed in this call,
/// and `SizeLimit` only where a byte past the limit was read. After any of these the sink has grown by a
/// front of the magic and the whole chunks that were met, and so it has after `Memory`, which comes for
/// want of memory alone.
pub fn repair_search<S: Source, K: Sink>(salvager: &mut Salvager<S>, sink: &mut K) -> Repaired
    requires fresh { IsFresh salvager.old }
    ensures repaired { SearchedSo (S.left salvager.old.source) (S.left salvager.new.source) (K.held sink.old) (K.held sink.new) salvager.old.file.byte_limit result }
    ensures read_fault { result ≡ Repaired.ReadFault → Rose (S.faults salvager.old.source) (S.faults salvager.new.source) }
    ensures read_later { S.faults salvager.old.source ≤ S.faults salvager.new.source }
    ensures read_quiet { (result ≡ Repaired.ReadFault → ⊥) → (result ≡ Repaired.WriteFault → ⊥) → S.faults salvager.new.source ≡ S.faults salvager.old.source }
    ensures write_fault { Blames (result ≡ Repaired.WriteFault) (K.write_faults sink.old) (K.write_faults sink.new) }
    ensures marked { S.mark salvager.new.source ≡ S.mark salvager.old.source }
    ensures left { Loses (S.left salvager.old.source) (S.left salvager.new.source) }
    ensures rest { K.rest sink.new ≡ K.rest sink.old }
{
    let mut room = [0; ROOM];
    let mut waiting = put_behind(&mut room, 0, b"XDF:");
    let mut chunks: u64 = 0;
    let mut bytes: u64 = 4;
    let mut skipped: u64 = 0;
    let repaired = 'parts: loop {
        match salvager.pass() {
            Salvaged::Chunk { .. } => {
                let text = salvager.last_bytes();
                match gather(sink, &mut room, waiting, text) {
                    Ok(count) => waiting = count,
                    Err(Failed) => return Repaired::WriteFault,
                }
                chunks += 1;
                bytes += text.len() as u64;
            }
            Salvaged::Skipped { from, to } => skipped += to - from,
            Salvaged::End => {
                break Repaired::Done {
                    chunks,
                    bytes,
                    skipped,
                };
            }
            Salvaged::ReadFault => break Repaired::ReadFault,
            Salvaged::SizeLimit => break Repaired::SizeLimit,
            Salvaged::Memory => break Repaired::Memory,
        }
    };
    if write_all_of(sink, &room[..waiting]).is_err() {
        return Repaired::WriteFault;
    }
    repaired
}
