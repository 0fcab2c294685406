//! The parts of a damaged file, from a source.

ghost use Rattle.std.specs.Prelude.{◌≡◌, ◌≤◌, ◌+◌, ◌^◌, List, length, [], None, Some, IsTrue, false, IfOk, IsErrOf};
ghost use Rattle.std.specs.Io.KnownBytes.{Consumes, IsAtEnd};
ghost use Rattle.rec_base.specs.Causes.{Blames};
ghost use Rattle.rec_base.specs.Moved.{HasFailed};
ghost use Rattle.chunk_grammar.specs.Chunk.{magic};
ghost use Rattle.file_reader.specs.FileInlet.{IsNotXdf};
ghost use Rattle.boundary_search.specs.Salvage.{IsFound, IsFresh, as_step, told_end};
ghost use Rattle.boundary_search.specs.declared.step.SalvageEnd.{SalvageEnd as EndValue};
ghost use Rattle.boundary_search.specs.declared.step.Salvaged.{Salvaged as Found};

use crate::follow::{follow, read_on, read_value, told_end};
use crate::step::{SalvageEnd, SalvageStep, Salvaged, parted, step_with};
use file_reader::{FileFault, FileReader};
use rec_base::Source;
use std::alloc::Global;
use std::marker::Model;

/// Gives the parts of a damaged file, which comes from a source in pieces of any size: each whole chunk,
/// each range that is skipped, and then how the salvaging ended (XDF 1.0, "Chunk layout" and "Boundary
/// chunk"; what is skipped is this project's own).
///
/// A chunk is given where a whole one stands, in the context of the chunks before it. Where none stands,
/// the bytes up to the end of the first boundary's sixteen bytes are skipped, or, where there are none,
/// all that are left. Each place of a skipped range is tried once.
#[derive(Drop)]
pub struct Salvager<S: Source> {
    reader: FileReader<S>,
    // the input has ended, so nothing more is read
    ended: bool,
    // the end, once it was answered
    end: Option<SalvageEnd>,
}

impl<S: Source> Model for Salvager<S> {
    ghost use Rattle.std.specs.Prelude.{◌≡◌, ◌≤◌, ◌+◌, ◌^◌, [], None, IsTrue, length};
    ghost use Rattle.boundary_search.specs.Salvage.{Salvage};

    ghost Value = { Salvage S };

    ghost invariant = { λ s. (s.reader.file.byte_limit ≤ 2 ^ 40)
        × (s.end ≡ None → s.reader.file.place ≤ s.reader.file.byte_limit)
        × (s.end ≡ None → IsTrue s.ended → s.reader.file.place + length s.reader.file.ahead ≤ s.reader.file.byte_limit)
        × ((s.end ≡ None → ⊥) → s.reader.file.last ≡ []) };

    ghost view = { λ s. record { source = s.reader.source; file = s.reader.file; ended = s.ended; end = s.end } };
}

impl<S: Source + Drop> Salvager<S> {
    /// Takes the first four bytes, which are to be the magic. `byte_limit` is how many bytes of the file
    /// count, 4 to 2^40.
    ///
    /// `NotXdf` comes exactly where the first four bytes aren't the magic, or the input ends before
    /// the fourth; `ReadFault` only where a read failed. A refusal gives the source up.
    pub fn open(alloc: Global, source: S, byte_limit: u64) -> Result<Salvager<S>, FileFault>
        requires low { 4 ≤ byte_limit }
        requires high { byte_limit ≤ 2 ^ 40 }
        ensures magic { IfOk result (λ s. Consumes (S.left source) (S.left s.source) magic) }
        ensures fresh { IfOk result (λ s. IsFresh s × (s.file.byte_limit ≡ byte_limit)) }
        ensures source { IfOk result (λ s. (S.mark s.source ≡ S.mark source) × (S.faults s.source ≡ S.faults source)) }
        ensures not_xdf { IsErrOf result FileFault.NotXdf → (last : S) × IsNotXdf (S.left source) (S.left last) }
        ensures read_fault { IsErrOf result FileFault.ReadFault → (last : S) × HasFailed S.left S.faults S.mark source last }
    {
        match FileReader::open(alloc, source, byte_limit) {
            Ok(reader) => Ok(Salvager::over(reader)),
            Err(fault) => Err(fault),
        }
    }
}

impl<S: Source> Salvager<S> {
    /// The same over a reader of a file of which just the magic was taken.
    pub fn over(reader: FileReader<S>) -> Salvager<S>
        requires fresh { (reader.file.context ≡ []) × (reader.file.place ≡ 4) × (reader.file.last ≡ []) × (reader.file.ahead ≡ []) }
        requires low { 4 ≤ reader.file.byte_limit }
        requires high { reader.file.byte_limit ≤ 2 ^ 40 }
        ensures { result ≡ record { source = reader.source; file = reader.file; ended = false; end = None } }
    {
        Salvager {
            reader,
            ended: false,
            end: None,
        }
    }

    /// The next part with its place, or the end.
    ///
    /// The answers are determined by the bytes that were taken and by how the input ended. Of a file
    /// that is longer than the limit, a chunk is given where it lies within the bytes that count, and a
    /// skipped range where it ends within them and what stands at its first byte is bad, whatever
    /// follows; `SizeLimit` comes in place of the first part that isn't given so, where a byte past the
    /// limit was read. `End` comes where the input ended behind the last part. `ReadFault` comes only
    /// where a read failed in the call that first answers it. After an end each call answers the same
    /// end and reads nothing. After `Memory` the answers go on as if that call hadn't been made.
    pub fn next(&mut self) -> SalvageStep
        ensures found { self.old.end ≡ None → (found : Found) × IsFound (S.left self.old.source) (S.left self.new.source) self.old self.new found × (result ≡ as_step self.old.file.context self.new.file.last found) }
        ensures again { (end : EndValue) → self.old.end ≡ Some end → (result ≡ as_step self.old.file.context [] (told_end end)) × (self.new ≡ self.old) }
        ensures closed { self.old.ended ≡ false → IsTrue self.new.ended → IsAtEnd (S.left self.new.source) }
        ensures still { IsTrue self.old.ended → (self.new.source ≡ self.old.source) × IsTrue self.new.ended }
        ensures cause { Blames ((self.old.end ≡ None) × (result ≡ SalvageStep.ReadFault)) (S.faults self.old.source) (S.faults self.new.source) }
        ensures marked { S.mark self.new.source ≡ S.mark self.old.source }
        ensures low { self.old.end ≡ None → self.old.file.place ≤ self.old.file.byte_limit }
        ensures high { self.new.file.byte_limit ≤ 2 ^ 40 }
    {
        if let Some(end) = self.end {
            return step_with(told_end(end), None);
        }
        let (passed, value) = parted(read_value(&mut self.reader, self.ended));
        let found = follow(&mut self.reader, &mut self.ended, &mut self.end, passed);
        step_with(found, value)
    }

    /// The same, with no value made of a chunk: its bytes are those of `last_bytes`. A caller may mix
    /// both calls.
    pub fn pass(&mut self) -> Salvaged
        ensures found { self.old.end ≡ None → IsFound (S.left self.old.source) (S.left self.new.source) self.old self.new result }
        ensures again { (end : EndValue) → self.old.end ≡ Some end → (result ≡ told_end end) × (self.new ≡ self.old) }
        ensures closed { self.old.ended ≡ false → IsTrue self.new.ended → IsAtEnd (S.left self.new.source) }
        ensures still { IsTrue self.old.ended → (self.new.source ≡ self.old.source) × IsTrue self.new.ended }
        ensures cause { Blames ((self.old.end ≡ None) × (result ≡ Salvaged.ReadFault)) (S.faults self.old.source) (S.faults self.new.source) }
        ensures marked { S.mark self.new.source ≡ S.mark self.old.source }
        ensures low { self.old.end ≡ None → self.old.file.place ≤ self.old.file.byte_limit }
        ensures high { self.new.file.byte_limit ≤ 2 ^ 40 }
    {
        if let Some(end) = self.end {
            return told_end(end);
        }
        let passed = read_on(&mut self.reader, self.ended);
        follow(&mut self.reader, &mut self.ended, &mut self.end, passed)
    }

    /// The bytes of the chunk that the last call gave. There are none where it gave no chunk, or where
    /// there was no call.
    pub fn last_bytes(&self) -> &[u8]
        ensures { result.now ≡ self.now.file.last }
    {
        self.reader.last_bytes()
    }

    /// How many bytes of the input are held: those of the last chunk and those that were taken behind
    /// it. They are no more than a chunk can have, whatever its length tells, and a skipped range is
    /// gone past by pieces.
    pub fn held_bytes(&self) -> usize
        ensures held { result ≡ length self.now.file.last + length self.now.file.ahead }
        ensures bound { result ≤ 67_108_873 }
    {
        self.reader.held_bytes()
    }
}
