//! What a reader of a file keeps between two reads.

ghost use Rattle.std.specs.Prelude.{◌≡◌, ◌≤◌, ◌<◌, ◌+◌, ◌-◌, ◌^◌, ℕ, List, [], Some, length, take, IsTrue, false, IfOk, OnErr, IsErrOf};
ghost use Rattle.std.specs.Io.KnownBytes.{IsAtEnd, Keeps, Consumes};
ghost use Rattle.rec_base.specs.Causes.{Blames, HasCause};
ghost use Rattle.reading_model.specs.Outlook.{ended};
ghost use Rattle.reading_model.specs.Reading.{going, done};
ghost use Rattle.piece_reader.specs.Held.{HeldBytes};
ghost use Rattle.piece_reader.specs.Steps.{EndsAs, Wants, end_of};
ghost use Rattle.chunk_grammar.specs.Chunk.{Context as Streams, context_after};
ghost use Rattle.file_model.specs.Reader.{behind_magic, end_reading, file_rules};
ghost use Rattle.file_reader.specs.FileInlet.{FileInlet, StandsAt, Tells, end_in, had_ended, resumed, without_front};
ghost use Rattle.chunk_decoder.specs.Viewed.{chunk_in};
ghost use Rattle.file_reader.specs.AsNext.{as_next, passed_end};
ghost use Rattle.file_reader.specs.Kept.{Does, IsGoing, IsOfBytes, IsOver, IsShort, Shows, Values, with_more, with_reading, without_last};

use crate::missing::missing;
use crate::passed::Passed;
use chunk_decoder::{ChunkView, Viewed, view_chunk};
use chunk_grammar::{Chunk, Context};
use file_model::FileEnd;
use piece_reader::{Held, PieceFault};
use rec_base::{Failed, Memory, Source};
use std::alloc::Global;
use std::marker::Model;

/// How many bytes are held, where no chunk needs more: so small chunks don't cost a read each.
pub(crate) const PIECE: usize = 65_536;

/// What the bytes that were taken say.
#[derive(Debug, Drop)]
pub(crate) enum Inner {
    /// This is the answer, and the chunk's value where it was wanted.
    Answer(Passed, Option<Chunk>),
    /// More bytes are wanted.
    Want,
}

/// The bytes that were taken and not gone past, and where they stand in the file.
#[derive(Drop)]
pub struct KeptFile {
    alloc: Global,
    held: Held,
    // how many of the bytes that are held are the last chunk's
    last: usize,
    context: Context,
    // the place behind the last chunk
    place: usize,
    byte_limit: usize,
    ending: Option<FileEnd>,
}

impl Model for KeptFile {
    ghost use Rattle.std.specs.Prelude.{length, take, drop, ◌≤◌, ◌+◌, ◌-◌, ◌^◌};
    ghost use Rattle.file_reader.specs.FileInlet.{FileInlet};
    ghost use Rattle.file_reader.specs.Kept.{reading_of};

    ghost Value = { FileInlet };

    ghost view = { λ k. record {
      context = k.context;
      place = k.place;
      last = take k.last k.held.bytes;
      ahead = drop k.last k.held.bytes;
      reading = reading_of k.ending (record { context = k.context; place = k.place }) (drop k.last k.held.bytes) (k.byte_limit - k.place);
      byte_limit = k.byte_limit;
    } };

    ghost invariant = { λ k. (k.last ≤ length k.held.bytes) × (k.place ≤ k.byte_limit) × (k.byte_limit ≤ 2 ^ 40) × (k.place + length k.held.bytes ≤ k.byte_limit + 1 + k.last)
        × (length k.held.bytes ≤ 67_108_873) × (65_536 ≤ k.held.places) };
}

// The bytes that count.
fn counted(bytes: &[u8], room: usize) -> &[u8]
    ensures { result.now ≡ take room bytes.now }
{
    &bytes[..room.min(bytes.len())]
}

// Whether there was memory for the context after the chunk, which fits the context.
fn pass_chunk(context: &mut Context, chunk: &ChunkView<'_>) -> bool
    ensures ok { IsTrue result → context.new ≡ context_after context.old (chunk_in chunk.now) }
    ensures memory { result ≡ false → context.new ≡ context.old }
{
    match chunk {
        ChunkView::StreamHeader { id, doc } => context.context_add(*id, doc).is_ok(),
        _ => true,
    }
}

// The chunk's value, where it is wanted.
fn value_of(alloc: Global, wanted: bool, chunk: &ChunkView<'_>) -> Result<Option<Chunk>, Memory>
    ensures { IsTrue wanted → IfOk result (λ value. value ≡ Some (chunk_in chunk.now)) }
{
    if wanted {
        Ok(Some(chunk.copy(alloc)?))
    } else {
        Ok(None)
    }
}

/// An end, as it is told.
pub(crate) fn passed_of(end: FileEnd) -> Passed
    ensures value { result ≡ passed_end end }
    ensures told { (context : Streams) (text : List ℕ) → as_next context text result ≡ end_reading end }
{
    match end {
        FileEnd::End { at } => Passed::End { at },
        FileEnd::Torn { at, left } => Passed::Torn { at, left },
        FileEnd::Bad { at, why } => Passed::Bad { at, why },
        FileEnd::ReadFault => Passed::ReadFault,
        FileEnd::SizeLimit => Passed::SizeLimit,
    }
}

impl KeptFile {
    /// Nothing was taken but the magic, which is held.
    pub(crate) fn behind_magic(alloc: Global, magic: Held, byte_limit: usize) -> KeptFile
        requires low { 4 ≤ byte_limit }
        requires high { byte_limit ≤ 2 ^ 40 }
        requires size { length magic.bytes ≡ 4 }
        requires places { 65_536 ≤ magic.places }
        ensures value { result ≡ record { context = []; place = 4; last = []; ahead = []; reading = going behind_magic [] (byte_limit - 4); byte_limit = byte_limit } }
    {
        let mut held = magic;
        held.pass(4);
        KeptFile {
            alloc,
            held,
            last: 0,
            context: Context::new(alloc),
            place: 4,
            byte_limit,
            ending: None,
        }
    }

    /// The last chunk's bytes, where the last answer was a chunk.
    pub(crate) fn last(&self) -> &[u8]
        ensures { result.now ≡ self.now.last }
    {
        &self.held.bytes()[..self.last]
    }

    /// How many bytes are held.
    pub(crate) fn held_bytes(&self) -> usize
        ensures held { result ≡ length self.now.last + length self.now.ahead }
        ensures bound { result ≤ 67_108_873 }
    {
        self.held.bytes().len()
    }

    /// How many bytes of the file count, and how many were taken.
    pub(crate) fn counts(&self) -> (u64, u64)
        ensures limit { result.0 ≡ self.now.byte_limit }
        ensures taken { result.1 ≡ self.now.place + length self.now.ahead }
        ensures high { result.0 ≤ 2 ^ 40 }
    {
        let ahead = self.held.bytes().len() - self.last;
        (self.byte_limit as u64, (self.place + ahead) as u64)
    }

    /// Where the next chunk begins.
    pub(crate) fn place(&self) -> u64
        ensures { result ≡ self.now.place }
    {
        self.place as u64
    }

    /// The bytes behind the last chunk that were taken and count.
    pub(crate) fn counted(&self) -> &[u8]
        ensures { result.now ≡ take (self.now.byte_limit - self.now.place) self.now.ahead }
    {
        counted(
            &self.held.bytes()[self.last..],
            self.byte_limit - self.place,
        )
    }

    /// Whether the input ended before the end was answered.
    pub(crate) fn had_ended(&self) -> bool
        ensures { result ≡ had_ended self.now.reading }
    {
        matches!(
            self.ending,
            Some(FileEnd::End { .. } | FileEnd::Torn { .. })
        )
    }

    /// The streams whose headers were given.
    pub(crate) fn context(&self) -> &Context
        ensures { result.now ≡ self.now.context }
    {
        &self.context
    }

    /// The end, once it was answered.
    pub(crate) fn ended(&self) -> Option<FileEnd>
        ensures { result ≡ end_in self.now.reading }
    {
        self.ending
    }

    /// Goes past the last chunk's bytes.
    pub(crate) fn forget(&mut self)
        ensures forgotten { self.new ≡ without_last self.old }
        ensures stands { StandsAt self.new self.new.reading }
        ensures high { self.new.byte_limit ≤ 2 ^ 40 }
    {
        self.held.pass(self.last);
        self.last = 0;
    }

    /// Goes past so many bytes that count, whatever they are.
    pub(crate) fn leave(&mut self, count: usize)
        requires over { IsOver self.old.reading }
        requires fresh { self.old.last ≡ [] }
        requires within { count ≤ length self.old.ahead }
        requires counts { self.old.place + count ≤ self.old.byte_limit }
        ensures { self.new ≡ without_front count self.old }
    {
        self.held.pass(count);
        self.place += count;
    }

    /// Goes on at the place, whatever was answered before.
    pub(crate) fn resume(&mut self)
        ensures { self.new ≡ resumed self.old }
    {
        self.ending = None;
    }

    // Ends the reading.
    fn finish(&mut self, end: FileEnd) -> Passed
        ensures over { self.new ≡ with_reading self.old (done end) }
        ensures value { result ≡ passed_end end }
        ensures told { (context : Streams) (text : List ℕ) → as_next context text result ≡ end_reading end }
        ensures stands { StandsAt self.new self.new.reading }
    {
        self.ending = Some(end);
        passed_of(end)
    }

    // Ends the reading by the bytes that were taken.
    fn stop(&mut self, end: FileEnd) -> Inner
        requires ends { EndsAs file_rules self.old.reading end }
        requires fresh { self.old.last ≡ [] }
        requires tells { Tells (with_reading self.old (done end)) (end_reading end) }
        requires of_bytes { IsOfBytes (end_reading end) }
        ensures does { Does self.old self.new result }
        ensures shows { Shows self.old self.new result }
        ensures values { Values self.old self.new result }
        ensures stands { StandsAt self.new self.new.reading }
    {
        Inner::Answer(self.finish(end), None)
    }

    // Asks for more bytes, if more count.
    fn ask(&mut self) -> Inner
        requires short { IsShort self.old.reading }
        requires fresh { self.old.last ≡ [] }
        ensures does { Does self.old self.new result }
        ensures shows { Shows self.old self.new result }
        ensures values { Values self.old self.new result }
        ensures stands { StandsAt self.new self.new.reading }
    {
        if self.held.bytes().len() - self.last > self.byte_limit - self.place {
            self.stop(FileEnd::SizeLimit)
        } else {
            Inner::Want
        }
    }

    /// What the bytes that were taken say, if they say something; of a chunk with its value, where that
    /// is wanted.
    pub(crate) fn step(&mut self, wanted: bool) -> Inner
        requires going { IsGoing self.old.reading }
        requires fresh { self.old.last ≡ [] }
        ensures does { Does self.old self.new result }
        ensures shows { Shows self.old self.new result }
        ensures values { IsTrue wanted → Values self.old self.new result }
        ensures stands { StandsAt self.new self.new.reading }
    {
        let place = self.place;
        let bytes = counted(&self.held.bytes()[self.last..], self.byte_limit - place);
        match view_chunk(&self.context, bytes) {
            Viewed::Whole { chunk, used } => {
                let Ok(value) = value_of(self.alloc, wanted, &chunk) else {
                    return Inner::Answer(Passed::Memory, None);
                };
                if !pass_chunk(&mut self.context, &chunk) {
                    return Inner::Answer(Passed::Memory, None);
                }
                self.held.pass(self.last);
                self.last = used;
                self.place += used;
                let at = place as u64;
                Inner::Answer(Passed::Chunk { at }, value)
            }
            Viewed::Torn => self.ask(),
            Viewed::Bad { at, why } => {
                let at = (place + at) as u64;
                self.stop(FileEnd::Bad { at, why })
            }
        }
    }

    /// The end where no byte is left.
    pub(crate) fn end_input(&mut self) -> Passed
        requires { Wants file_rules self.old.reading }
        ensures tells { (context : Streams) (text : List ℕ) → Tells self.new (as_next context text result) }
        ensures told { (context : Streams) (text : List ℕ) → as_next context text result ≡ end_reading (end_of file_rules self.old.reading ended) }
        ensures no_fault { result ≡ Passed.ReadFault → ⊥ }
        ensures over { self.new ≡ with_reading self.old (done (end_of file_rules self.old.reading ended)) }
        ensures stands { StandsAt self.new self.new.reading }
    {
        let at = self.place as u64;
        let left = (self.held.bytes().len() - self.last) as u64;
        if left == 0 {
            self.finish(FileEnd::End { at })
        } else {
            self.finish(FileEnd::Torn { at, left })
        }
    }

    /// The end where a read failed.
    pub(crate) fn fail(&mut self) -> Passed
        requires { Wants file_rules self.old.reading }
        ensures value { result ≡ Passed.ReadFault }
        ensures tells { (context : Streams) (text : List ℕ) → Tells self.new (as_next context text result) }
        ensures over { self.new ≡ with_reading self.old (done FileEnd.ReadFault) }
        ensures stands { StandsAt self.new self.new.reading }
    {
        let _ = &self.alloc;
        self.finish(FileEnd::ReadFault)
    }

    /// Takes one piece of the source: what is surely missing, or as much as a piece has room for, but
    /// no more than one byte past those that count.
    pub(crate) fn take_piece<S: Source>(&mut self, source: &mut S) -> Result<usize, PieceFault>
        requires wants { Wants file_rules self.old.reading }
        requires fresh { self.old.last ≡ [] }
        ensures gains { IfOk result (λ n. (bytes : List ℕ) × Consumes (S.left source.old) (S.left source.new) bytes × (length bytes ≡ n) × (self.new ≡ with_more self.old bytes)) }
        ensures end { IfOk result (λ n. n ≡ 0 → IsAtEnd (S.left source.new)) }
        ensures kept { OnErr result (self.new ≡ self.old) }
        ensures left { OnErr result (Keeps (S.left source.old) (S.left source.new)) }
        ensures failed { Blames (IsErrOf result PieceFault.Failed) (S.faults source.old) (S.faults source.new) }
        ensures memory { IsErrOf result PieceFault.Memory → source.new ≡ source.old }
        ensures marked { S.mark source.new ≡ S.mark source.old }
        ensures stands { StandsAt self.new self.new.reading }
    {
        let rest = &self.held.bytes()[self.last..];
        let room = self.byte_limit - self.place + 1 - rest.len();
        let ahead = PIECE.saturating_sub(self.held.bytes().len());
        let most = room.min(ahead.max(missing(rest)));
        self.held.read(source, most)
    }

    /// Takes one piece of the source behind a few bytes that were taken, where the end was answered: as
    /// much as a piece has room for, but no more than one byte past those that count. It takes no
    /// memory.
    pub(crate) fn take_behind<S: Source>(&mut self, source: &mut S) -> Result<usize, Failed>
        requires over { IsOver self.old.reading }
        requires fresh { self.old.last ≡ [] }
        requires few { length self.old.ahead < 16 }
        requires within { self.old.place + length self.old.ahead ≤ self.old.byte_limit }
        ensures gains { IfOk result (λ n. (bytes : List ℕ) × Consumes (S.left source.old) (S.left source.new) bytes × (length bytes ≡ n) × (self.new ≡ with_more self.old bytes)) }
        ensures end { IfOk result (λ n. n ≡ 0 → IsAtEnd (S.left source.new)) }
        ensures kept { OnErr result (self.new ≡ self.old) }
        ensures left { OnErr result (Keeps (S.left source.old) (S.left source.new)) }
        ensures failed { HasCause (S.faults source.old) (S.faults source.new) result }
        ensures marked { S.mark source.new ≡ S.mark source.old }
    {
        let held = self.held.bytes().len();
        let room = self.byte_limit - self.place + 1 - held;
        match self.held.read(source, room.min(PIECE - held)) {
            Ok(n) => Ok(n),
            Err(_) => Err(Failed),
        }
    }
}
