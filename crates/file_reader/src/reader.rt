//! The chunks of a file, from a source.

ghost use Rattle.std.specs.Prelude.{◌≡◌, ◌≤◌, ◌<◌, ◌+◌, ◌-◌, ◌^◌, ℕ, List, [], ◌++◌, length, take, None, Some, IsTrue, false, IfOk, OnOk, OnErr, IsErrOf};
ghost use Rattle.std.specs.Io.KnownBytes.{Consumes, IsAtEnd, Keeps};
ghost use Rattle.rec_base.specs.Causes.{Blames, HasCause};
ghost use Rattle.rec_base.specs.Known.{Loses, LosesAtMost};
ghost use Rattle.rec_base.specs.Moved.{HasFailed};
ghost use Rattle.reading_model.specs.Outlook.{Answered, How};
ghost use Rattle.chunk_grammar.specs.Chunk.{magic};
ghost use Rattle.file_model.specs.Reader.{file_counted, file_kind};
ghost use Rattle.file_reader.specs.FileInlet.{HasStopped, IsGiven, IsNotXdf, IsSameEnd, IsSkipped, KeepsAll, StandsAt, Stops, Tells, got, had_ended, outlook, resumed, without_front};
ghost use Rattle.file_reader.specs.AsNext.{HasValue, next_in};
ghost use Rattle.file_reader.specs.declared.rest.Rest.{Rest as RestValue};
ghost use Rattle.file_reader.specs.Kept.{IsGoing, with_more, without_last};

use crate::fault::FileFault;
use crate::kept::{Inner, KeptFile, PIECE, passed_of};
use crate::passed::{Passed, next_with};
use crate::rest::Rest;
use crate::skip::skip_source;
use chunk_grammar::{Chunk, Context};
use file_model::Next;
use piece_reader::{Held, PieceFault};
use rec_base::{Failed, Source};
use std::alloc::Global;

/// Gives the chunks of a file, which comes from a source in pieces of any size, and then how the
/// reading ended (XDF 1.0, "File structure" and "Chunk layout"; the ends are this project's own).
#[derive(Drop)]
pub struct FileReader<S: Source> {
    source: S,
    file: KeptFile,
    // what came of reading on behind the last chunk, once that was done
    skipped: Option<Rest>,
}

// Takes the first four bytes of a source, or all where there are fewer.
fn take_front<S: Source>(held: &mut Held, source: &mut S) -> Result<(), PieceFault>
    requires { held.old.bytes ≡ [] }
    ensures taken { OnOk result (Consumes (S.left source.old) (S.left source.new) held.new.bytes) }
    ensures size { OnOk result (length held.new.bytes ≤ 4) }
    ensures places { held.old.places ≤ held.new.places }
    ensures end { OnOk result (length held.new.bytes < 4 → IsAtEnd (S.left source.new)) }
    ensures failed { Blames (IsErrOf result PieceFault.Failed) (S.faults source.old) (S.faults source.new) }
    ensures left { Loses (S.left source.old) (S.left source.new) }
    ensures marked { S.mark source.new ≡ S.mark source.old }
{
    'pieces: loop {
        let count = held.bytes().len();
        if count >= 4 {
            return Ok(());
        }
        if held.read(source, 4 - count)? == 0 {
            return Ok(());
        }
    }
}

impl<S: Source + Drop> FileReader<S> {
    /// Takes the first four bytes, which are to be the magic. `byte_limit` is how many bytes of the file
    /// count, 4 to 2^40.
    ///
    /// `NotXdf` comes exactly where the first four bytes aren't the magic, or the input ends before
    /// the fourth; `ReadFault` only where a read failed. A refusal gives the source up.
    pub fn open(alloc: Global, source: S, byte_limit: u64) -> Result<FileReader<S>, FileFault>
        requires low { 4 ≤ byte_limit }
        requires high { byte_limit ≤ 2 ^ 40 }
        // just the magic was taken, and all else is to come
        ensures magic { IfOk result (λ r. Consumes (S.left source) (S.left r.source) magic) }
        ensures all { IfOk result (λ r. (more : List ℕ) (how : How) → (outlook r.file).coming more how ≡ file_counted (byte_limit - 4) more how) }
        ensures fresh { IfOk result (λ r. ((outlook r.file).is_over ≡ false) × (r.file.context ≡ []) × (r.file.place ≡ 4) × (r.file.last ≡ []) × (r.file.byte_limit ≡ byte_limit)) }
        ensures stands { IfOk result (λ r. StandsAt r.file r.file.reading) }
        ensures start { IfOk result (λ r. (r.file.ahead ≡ []) × (r.skipped ≡ None)) }
        ensures source { IfOk result (λ r. (S.mark r.source ≡ S.mark source) × (S.faults r.source ≡ S.faults source)) }
        ensures not_xdf { IsErrOf result FileFault.NotXdf → (last : S) × IsNotXdf (S.left source) (S.left last) }
        ensures read_fault { IsErrOf result FileFault.ReadFault → (last : S) × HasFailed S.left S.faults S.mark source last }
    {
        let mut source = source;
        let Ok(mut held) = Held::new(alloc, PIECE) else {
            return Err(FileFault::Memory);
        };
        match take_front(&mut held, &mut source) {
            Ok(()) => {}
            Err(PieceFault::Memory) => return Err(FileFault::Memory),
            Err(PieceFault::Failed) => return Err(FileFault::ReadFault),
        }
        if held.bytes() != b"XDF:".as_slice() {
            return Err(FileFault::NotXdf);
        }
        let file = KeptFile::behind_magic(alloc, held, byte_limit as usize);
        Ok(FileReader {
            source,
            file,
            skipped: None,
        })
    }
}

impl<S: Source> FileReader<S> {
    /// The next chunk with its place, or the end.
    ///
    /// The answers are determined by the bytes that were taken and by how the input ended: the whole
    /// chunks in order, and then `Bad` where no chunk stands whatever follows; `SizeLimit` where a
    /// byte past the limit was read and those before it hold no further chunk and no fault; `End`
    /// where the input ended behind a chunk, and `Torn` where it ended within one. `ReadFault` comes
    /// only where a read failed in the call that first answers it. After an end each call answers the
    /// same end and reads nothing. After `Memory` the answers go on as if that call hadn't been made.
    pub fn next(&mut self) -> Next
        ensures answer { Answered file_kind (outlook self.old.file) (outlook self.new.file) (S.left self.old.source) (S.left self.new.source) (got result) }
        ensures chunk { IsGiven self.old.file self.new.file result }
        ensures limit { self.new.file.byte_limit ≡ self.old.file.byte_limit }
        ensures stands { StandsAt self.new.file self.new.file.reading }
        ensures stays { IsTrue (outlook self.old.file).is_over → (self.new.source ≡ self.old.source) × (self.new.file ≡ without_last self.old.file) }
        ensures same_end { IsTrue (outlook self.old.file).is_over → IsSameEnd self.old.file.reading result }
        ensures cause { Blames (((outlook self.old.file).is_over ≡ false) × (result ≡ Next.ReadFault)) (S.faults self.old.source) (S.faults self.new.source) }
        ensures marked { S.mark self.new.source ≡ S.mark self.old.source }
        ensures left { Loses (S.left self.old.source) (S.left self.new.source) }
        // no byte is lost between the chunks, and an end tells what stands there
        ensures keeps { KeepsAll (S.left self.old.source) (S.left self.new.source) self.old.file self.new.file }
        ensures tells { (outlook self.old.file).is_over ≡ false → Tells self.new.file result }
        ensures stops { (outlook self.old.file).is_over ≡ false → Stops (S.left self.new.source) self.new.file result }
        ensures high { self.new.file.byte_limit ≤ 2 ^ 40 }
        ensures skipped { self.new.skipped ≡ self.old.skipped }
    {
        let (passed, value) = self.go_on(true);
        next_with(passed, value)
    }

    /// The same, with no value made of a chunk: it is judged as `next` judges it, and its bytes are those
    /// of `last_bytes`. The answers are those of `next`, with the value of the chunk left out; so a caller
    /// may mix both calls.
    pub fn pass(&mut self) -> Passed
        ensures answer { Answered file_kind (outlook self.old.file) (outlook self.new.file) (S.left self.old.source) (S.left self.new.source) (got (next_in self.old.file self.new.file result)) }
        ensures chunk { IsGiven self.old.file self.new.file (next_in self.old.file self.new.file result) }
        ensures limit { self.new.file.byte_limit ≡ self.old.file.byte_limit }
        ensures stands { StandsAt self.new.file self.new.file.reading }
        ensures stays { IsTrue (outlook self.old.file).is_over → (self.new.source ≡ self.old.source) × (self.new.file ≡ without_last self.old.file) }
        ensures same_end { IsTrue (outlook self.old.file).is_over → IsSameEnd self.old.file.reading (next_in self.old.file self.new.file result) }
        ensures cause { Blames (((outlook self.old.file).is_over ≡ false) × (result ≡ Passed.ReadFault)) (S.faults self.old.source) (S.faults self.new.source) }
        ensures marked { S.mark self.new.source ≡ S.mark self.old.source }
        ensures left { Loses (S.left self.old.source) (S.left self.new.source) }
        ensures keeps { KeepsAll (S.left self.old.source) (S.left self.new.source) self.old.file self.new.file }
        ensures tells { (outlook self.old.file).is_over ≡ false → Tells self.new.file (next_in self.old.file self.new.file result) }
        ensures stops { (outlook self.old.file).is_over ≡ false → Stops (S.left self.new.source) self.new.file (next_in self.old.file self.new.file result) }
        ensures high { self.new.file.byte_limit ≤ 2 ^ 40 }
        ensures skipped { self.new.skipped ≡ self.old.skipped }
    {
        self.go_on(false).0
    }

    // The answer of `pass`, and the chunk's value where it is wanted.
    fn go_on(&mut self, wanted: bool) -> (Passed, Option<Chunk>)
        ensures answer { Answered file_kind (outlook self.old.file) (outlook self.new.file) (S.left self.old.source) (S.left self.new.source) (got (next_in self.old.file self.new.file result.0)) }
        ensures chunk { IsGiven self.old.file self.new.file (next_in self.old.file self.new.file result.0) }
        ensures value { IsTrue wanted → HasValue (next_in self.old.file self.new.file result.0) result.1 }
        ensures limit { self.new.file.byte_limit ≡ self.old.file.byte_limit }
        ensures stands { StandsAt self.new.file self.new.file.reading }
        ensures stays { IsTrue (outlook self.old.file).is_over → (self.new.source ≡ self.old.source) × (self.new.file ≡ without_last self.old.file) }
        ensures same_end { IsTrue (outlook self.old.file).is_over → IsSameEnd self.old.file.reading (next_in self.old.file self.new.file result.0) }
        ensures cause { Blames (((outlook self.old.file).is_over ≡ false) × (result.0 ≡ Passed.ReadFault)) (S.faults self.old.source) (S.faults self.new.source) }
        ensures marked { S.mark self.new.source ≡ S.mark self.old.source }
        ensures left { Loses (S.left self.old.source) (S.left self.new.source) }
        ensures keeps { KeepsAll (S.left self.old.source) (S.left self.new.source) self.old.file self.new.file }
        ensures tells { (outlook self.old.file).is_over ≡ false → Tells self.new.file (next_in self.old.file self.new.file result.0) }
        ensures stops { (outlook self.old.file).is_over ≡ false → Stops (S.left self.new.source) self.new.file (next_in self.old.file self.new.file result.0) }
        ensures high { self.new.file.byte_limit ≤ 2 ^ 40 }
        ensures skipped { self.new.skipped ≡ self.old.skipped }
    {
        self.file.forget();
        match self.file.ended() {
            Some(end) => (passed_of(end), None),
            None => self.read_on(wanted),
        }
    }

    // The same where no end was answered.
    fn read_on(&mut self, wanted: bool) -> (Passed, Option<Chunk>)
        requires going { IsGoing self.old.file.reading }
        requires fresh { self.old.file.last ≡ [] }
        ensures keeps { KeepsAll (S.left self.old.source) (S.left self.new.source) self.old.file self.new.file }
        ensures tells { Tells self.new.file (next_in self.old.file self.new.file result.0) }
        ensures stops { Stops (S.left self.new.source) self.new.file (next_in self.old.file self.new.file result.0) }
        ensures skipped { self.new.skipped ≡ self.old.skipped }
        ensures answer { Answered file_kind (outlook self.old.file) (outlook self.new.file) (S.left self.old.source) (S.left self.new.source) (got (next_in self.old.file self.new.file result.0)) }
        ensures chunk { IsGiven self.old.file self.new.file (next_in self.old.file self.new.file result.0) }
        ensures value { IsTrue wanted → HasValue (next_in self.old.file self.new.file result.0) result.1 }
        ensures limit { self.new.file.byte_limit ≡ self.old.file.byte_limit }
        ensures stands { StandsAt self.new.file self.new.file.reading }
        ensures cause { Blames (result.0 ≡ Passed.ReadFault) (S.faults self.old.source) (S.faults self.new.source) }
        ensures marked { S.mark self.new.source ≡ S.mark self.old.source }
    {
        'pieces: loop {
            match self.file.step(wanted) {
                Inner::Answer(passed, value) => return (passed, value),
                Inner::Want => match self.file.take_piece(&mut self.source) {
                    Ok(0) => return (self.file.end_input(), None),
                    Ok(_) => {}
                    Err(PieceFault::Memory) => return (Passed::Memory, None),
                    Err(PieceFault::Failed) => return (self.file.fail(), None),
                },
            }
        }
    }

    /// Reads the input to its end, where `next` has answered `End`, `Torn` or `Bad`, and keeps nothing. It
    /// takes no memory, and reads no more than one byte past the limit. Behind `End` and `Torn` the input
    /// has ended, so there it reads nothing.
    ///
    /// `End` comes exactly where the input ended within the limit; its size is the number of all bytes of
    /// the input, the magic's among them. `SizeLimit` comes exactly where a byte past the limit was read,
    /// by this call or before. `ReadFault` comes only where a read failed in the call that first answers
    /// it. Each further call answers the same and reads nothing, and so does `next`.
    pub fn skip_rest(&mut self) -> Rest
        requires stopped { HasStopped (S.left self.old.source) self.old.file self.old.file.reading }
        ensures first { self.old.skipped ≡ None → IsSkipped (S.left self.old.source) (S.left self.new.source) (had_ended self.old.file.reading) (self.old.file.place + length self.old.file.ahead) self.old.file.byte_limit result }
        ensures cause { Blames ((self.old.skipped ≡ None) × (result ≡ Rest.ReadFault)) (S.faults self.old.source) (S.faults self.new.source) }
        ensures ended { IsTrue (had_ended self.old.file.reading) → self.new.source ≡ self.old.source }
        ensures again { (rest : RestValue) → self.old.skipped ≡ Some rest → (result ≡ rest) × (self.new.source ≡ self.old.source) }
        ensures skipped { self.new.skipped ≡ Some result }
        ensures file { self.new.file ≡ self.old.file }
        ensures stopped { HasStopped (S.left self.new.source) self.new.file self.new.file.reading }
        ensures marked { S.mark self.new.source ≡ S.mark self.old.source }
        ensures left { Loses (S.left self.old.source) (S.left self.new.source) }
        ensures one_past { LosesAtMost (self.old.file.byte_limit + 1 - (self.old.file.place + length self.old.file.ahead)) (S.left self.old.source) (S.left self.new.source) }
    {
        if let Some(rest) = self.skipped {
            return rest;
        }
        let (limit, taken) = self.file.counts();
        let rest = if self.file.had_ended() {
            Rest::End { size: taken }
        } else {
            skip_source(&mut self.source, taken, limit)
        };
        self.skipped = Some(rest);
        rest
    }

    /// As `next`, where no more is read: the input counts as ended behind the bytes that were taken.
    pub fn next_taken(&mut self) -> Next
        ensures source { self.new.source ≡ self.old.source }
        ensures all { self.old.file.ahead ≡ self.new.file.last ++ self.new.file.ahead }
        ensures chunk { IsGiven self.old.file self.new.file result }
        ensures limit { self.new.file.byte_limit ≡ self.old.file.byte_limit }
        ensures same_end { IsTrue (outlook self.old.file).is_over → IsSameEnd self.old.file.reading result }
        ensures tells { (outlook self.old.file).is_over ≡ false → Tells self.new.file result }
        ensures no_fault { (outlook self.old.file).is_over ≡ false → result ≡ Next.ReadFault → ⊥ }
        ensures high { self.new.file.byte_limit ≤ 2 ^ 40 }
        ensures skipped { self.new.skipped ≡ self.old.skipped }
    {
        let (passed, value) = self.go_on_taken(true);
        next_with(passed, value)
    }

    /// The same, with no value made of a chunk.
    pub fn pass_taken(&mut self) -> Passed
        ensures source { self.new.source ≡ self.old.source }
        ensures all { self.old.file.ahead ≡ self.new.file.last ++ self.new.file.ahead }
        ensures chunk { IsGiven self.old.file self.new.file (next_in self.old.file self.new.file result) }
        ensures limit { self.new.file.byte_limit ≡ self.old.file.byte_limit }
        ensures same_end { IsTrue (outlook self.old.file).is_over → IsSameEnd self.old.file.reading (next_in self.old.file self.new.file result) }
        ensures tells { (outlook self.old.file).is_over ≡ false → Tells self.new.file (next_in self.old.file self.new.file result) }
        ensures no_fault { (outlook self.old.file).is_over ≡ false → result ≡ Passed.ReadFault → ⊥ }
        ensures high { self.new.file.byte_limit ≤ 2 ^ 40 }
        ensures skipped { self.new.skipped ≡ self.old.skipped }
    {
        self.go_on_taken(false).0
    }

    // The answer of `pass_taken`, and the chunk's value where it is wanted.
    fn go_on_taken(&mut self, wanted: bool) -> (Passed, Option<Chunk>)
        ensures source { self.new.source ≡ self.old.source }
        ensures all { self.old.file.ahead ≡ self.new.file.last ++ self.new.file.ahead }
        ensures chunk { IsGiven self.old.file self.new.file (next_in self.old.file self.new.file result.0) }
        ensures value { IsTrue wanted → HasValue (next_in self.old.file self.new.file result.0) result.1 }
        ensures limit { self.new.file.byte_limit ≡ self.old.file.byte_limit }
        ensures same_end { IsTrue (outlook self.old.file).is_over → IsSameEnd self.old.file.reading (next_in self.old.file self.new.file result.0) }
        ensures tells { (outlook self.old.file).is_over ≡ false → Tells self.new.file (next_in self.old.file self.new.file result.0) }
        ensures no_fault { (outlook self.old.file).is_over ≡ false → result.0 ≡ Passed.ReadFault → ⊥ }
        ensures high { self.new.file.byte_limit ≤ 2 ^ 40 }
        ensures skipped { self.new.skipped ≡ self.old.skipped }
    {
        self.file.forget();
        if let Some(end) = self.file.ended() {
            return (passed_of(end), None);
        }
        match self.file.step(wanted) {
            Inner::Answer(passed, value) => (passed, value),
            Inner::Want => (self.file.end_input(), None),
        }
    }

    /// Where the next chunk begins, in bytes from the file's first one.
    pub fn place(&self) -> u64
        ensures { result ≡ self.now.file.place }
    {
        self.file.place()
    }

    /// The bytes from there on that were taken and count.
    pub fn counted(&self) -> &[u8]
        ensures { result.now ≡ take (self.now.file.byte_limit - self.now.file.place) self.now.file.ahead }
    {
        self.file.counted()
    }

    /// Whether a byte past those that count was taken.
    pub fn is_past_limit(&self) -> bool
        ensures past { IsTrue result → self.now.file.byte_limit < self.now.file.place + length self.now.file.ahead }
        ensures within { result ≡ false → self.now.file.place + length self.now.file.ahead ≤ self.now.file.byte_limit }
    {
        let (limit, taken) = self.file.counts();
        limit < taken
    }

    /// Goes past so many of the bytes that were taken and count, where the end was answered. They are
    /// whatever they are, and no chunk is given of them.
    pub fn leave(&mut self, count: usize)
        requires over { IsTrue (outlook self.old.file).is_over }
        requires fresh { self.old.file.last ≡ [] }
        requires within { count ≤ length self.old.file.ahead }
        requires counts { self.old.file.place + count ≤ self.old.file.byte_limit }
        ensures file { self.new.file ≡ without_front count self.old.file }
        ensures source { self.new.source ≡ self.old.source }
        ensures skipped { self.new.skipped ≡ self.old.skipped }
    {
        self.file.leave(count);
    }

    /// Takes one piece of the input behind a few bytes that were taken, where the end was answered; 0
    /// where the input has ended. It takes no memory, and reads no more than one byte past the limit.
    pub fn take_behind(&mut self) -> Result<usize, Failed>
        requires over { IsTrue (outlook self.old.file).is_over }
        requires fresh { self.old.file.last ≡ [] }
        requires few { length self.old.file.ahead < 16 }
        requires within { self.old.file.place + length self.old.file.ahead ≤ self.old.file.byte_limit }
        ensures gains { IfOk result (λ n. (bytes : List ℕ) × Consumes (S.left self.old.source) (S.left self.new.source) bytes × (length bytes ≡ n) × (self.new.file ≡ with_more self.old.file bytes)) }
        ensures end { IfOk result (λ n. n ≡ 0 → IsAtEnd (S.left self.new.source)) }
        ensures kept { OnErr result (self.new.file ≡ self.old.file) }
        ensures left { OnErr result (Keeps (S.left self.old.source) (S.left self.new.source)) }
        ensures failed { HasCause (S.faults self.old.source) (S.faults self.new.source) result }
        ensures marked { S.mark self.new.source ≡ S.mark self.old.source }
        ensures skipped { self.new.skipped ≡ self.old.skipped }
    {
        self.file.take_behind(&mut self.source)
    }

    /// Goes on at the place, whatever was answered before.
    pub fn resume(&mut self)
        ensures file { self.new.file ≡ resumed self.old.file }
        ensures source { self.new.source ≡ self.old.source }
        ensures skipped { self.new.skipped ≡ self.old.skipped }
    {
        self.file.resume();
    }

    /// The bytes of the chunk that the last call of `next` or `pass` gave. There are none where it gave no chunk,
    /// or where there was no call.
    pub fn last_bytes(&self) -> &[u8]
        ensures { result.now ≡ self.now.file.last }
    {
        self.file.last()
    }

    /// The streams whose headers were given, with their shapes.
    pub fn context(&self) -> &Context
        ensures { result.now ≡ self.now.file.context }
    {
        self.file.context()
    }

    /// How many bytes of the input are held: those of the last chunk and those that were taken behind
    /// it. They are no more than a chunk can have, whatever its length tells.
    pub fn held_bytes(&self) -> usize
        ensures held { result ≡ length self.now.file.last + length self.now.file.ahead }
        ensures bound { result ≤ 67_108_873 }
    {
        self.file.held_bytes()
    }

    /// Gives the source back. Bytes that were taken and not gone past are gone.
    pub fn into_source(self) -> S
        ensures { result ≡ self.source }
    {
        self.source
    }
}
