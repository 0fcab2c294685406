//! Says what a whole file holds.

ghost use Rattle.std.specs.Prelude.{◌≡◌, ◌≤◌, ◌⊎◌, ◌∷◌, ℕ, List, [], take, IsTrue, false, IfOk, OnOk, OnErr, IsErrOf, MatchOption, string_bytes};
ghost use Rattle.std.specs.Io.KnownBytes.{Appends, Consumes};
ghost use Rattle.rec_base.specs.Causes.{Blames, Rose};
ghost use Rattle.rec_base.specs.Known.{AppendsFront};
ghost use Rattle.reading_model.specs.Read.{IsRead};
ghost use Rattle.file_model.specs.declared.end.FileEnd.{FileEnd as FileEndValue};
ghost use Rattle.file_model.specs.Reader.{ChunkAt, file_kind};
ghost use Rattle.file_reader.specs.FileInlet.{outlook};
ghost use Rattle.report_model.specs.Lines.{chunk_lines};
ghost use Rattle.report_model.specs.Shown.{end_lines, show_lines, printed_lines, AreFirstLines};
ghost use Rattle.stream_report.specs.Ends.{is_read, show_end};

use crate::fault::SayFault;
use crate::reason::why_number;
use crate::say::{say_chunk, say_line};
use chunk_grammar::{Chunk, Context};
use file_reader::{FileEnd, FileReader, Next};
use rec_base::{Lines, Memory, Source};
use std::alloc::Global;

/// How the showing of a file ended. This project's own.
#[derive(Clone, Copy, Debug, PartialEq, Eq)]
pub enum ShowEnd {
    /// The whole file was shown.
    Clean,
    /// The whole chunks were shown, and the place of the torn one.
    Torn,
    /// The chunks up to a bad place were shown, and that place with its reason.
    Bad,
    /// The chunks before a read that failed were shown.
    ReadFault,
    /// The chunks within the limit of bytes were shown, and there are more bytes.
    SizeLimit,
    /// A line couldn't be said.
    PrintFault,
    /// There was no memory, and nothing else went wrong.
    Memory,
}

// The last line, where there is one.
fn end_line(alloc: Global, count: u64, end: FileEnd) -> Result<Option<String>, Memory>
    ensures { IfOk result (λ line. MatchOption line (end_lines count end ≡ []) (λ words. end_lines count end ≡ string_bytes words ∷ [])) }
{
    let line = match end {
        FileEnd::End { at } => format!(in alloc; "end {at} chunks {count}")?,
        FileEnd::Torn { at, left } => format!(in alloc; "torn {at} left {left}")?,
        FileEnd::Bad { at, why } => {
            let number = why_number(why);
            format!(in alloc; "bad {at} why {number}")?
        }
        FileEnd::ReadFault | FileEnd::SizeLimit => return Ok(None),
    };
    Ok(Some(line))
}

// Says the last line, where there is one.
fn say_end<L: Lines>(alloc: Global, lines: &mut L, count: u64, end: FileEnd) -> Result<(), SayFault>
    ensures said { OnOk result (Appends (L.printed lines.old) (L.printed lines.new) (printed_lines (end_lines count end))) }
    ensures print { IsErrOf result SayFault.Print → AppendsFront (L.printed lines.old) (L.printed lines.new) (printed_lines (end_lines count end))
        × Rose (L.print_faults lines.old) (L.print_faults lines.new) }
    ensures memory { IsErrOf result SayFault.Memory → L.printed lines.new ≡ L.printed lines.old }
    ensures none_else { OnErr result (IsErrOf result SayFault.Print ⊎ IsErrOf result SayFault.Memory) }
    ensures cause { Blames (IsErrOf result SayFault.Print) (L.print_faults lines.old) (L.print_faults lines.new) }
    ensures rest { L.rest lines.new ≡ L.rest lines.old }
{
    match end_line(alloc, count, end)? {
        Some(line) => say_line(lines, line.as_str()),
        None => Ok(()),
    }
}

fn show_end(end: FileEnd) -> ShowEnd
    ensures { result ≡ show_end end }
{
    match end {
        FileEnd::End { .. } => ShowEnd::Clean,
        FileEnd::Torn { .. } => ShowEnd::Torn,
        FileEnd::Bad { .. } => ShowEnd::Bad,
        FileEnd::ReadFault => ShowEnd::ReadFault,
        FileEnd::SizeLimit => ShowEnd::SizeLimit,
    }
}

// Says the last line, and tells how the showing ended.
fn finish<L: Lines>(alloc: Global, lines: &mut L, count: u64, end: FileEnd) -> ShowEnd
    ensures said { IsTrue (is_read result) → (result ≡ show_end end) × Appends (L.printed lines.old) (L.printed lines.new) (printed_lines (end_lines count end)) }
    ensures print { result ≡ ShowEnd.PrintFault → AppendsFront (L.printed lines.old) (L.printed lines.new) (printed_lines (end_lines count end))
        × Rose (L.print_faults lines.old) (L.print_faults lines.new) }
    ensures memory { result ≡ ShowEnd.Memory → L.printed lines.new ≡ L.printed lines.old }
    ensures cause { Blames (result ≡ ShowEnd.PrintFault) (L.print_faults lines.old) (L.print_faults lines.new) }
    ensures rest { L.rest lines.new ≡ L.rest lines.old }
{
    match say_end(alloc, lines, count, end) {
        Ok(()) => show_end(end),
        Err(SayFault::Print) => ShowEnd::PrintFault,
        Err(SayFault::Memory) => ShowEnd::Memory,
    }
}

// Says the lines of a chunk, and lets it go.
fn say_given<L: Lines>(
    alloc: Global,
    lines: &mut L,
    ctx: &Context,
    at: u64,
    chunk: Chunk,
) -> Result<(), SayFault>
    ensures said { OnOk result (Appends (L.printed lines.old) (L.printed lines.new) (printed_lines (chunk_lines ctx.now at chunk))) }
    ensures print { IsErrOf result SayFault.Print → AppendsFront (L.printed lines.old) (L.printed lines.new) (printed_lines (chunk_lines ctx.now at chunk))
        × Rose (L.print_faults lines.old) (L.print_faults lines.new) }
    ensures memory { IsErrOf result SayFault.Memory → (n : ℕ) × Appends (L.printed lines.old) (L.printed lines.new) (printed_lines (take n (chunk_lines ctx.now at chunk))) }
    ensures cause { Blames (IsErrOf result SayFault.Print) (L.print_faults lines.old) (L.print_faults lines.new) }
    ensures rest { L.rest lines.new ≡ L.rest lines.old }
{
    say_chunk(alloc, lines, ctx, at, &chunk)
}

/// Says what a file holds: the lines of each chunk, in order, and then a line that tells how the file
/// ends. What the lines are is this project's own.
///
/// The reader has given nothing yet. A chunk is read when the lines of the one before it were said,
/// and is let go when its own were. `Clean`, `Torn` and `Bad` come by the reader's end, and their
/// last line is `end SIZE chunks N`, `torn PLACE left N` or `bad PLACE why N`. Behind `ReadFault` and
/// `SizeLimit` there is no such line. `PrintFault` comes only where `say` failed: a front of the lines
/// was then said, which may end in the midst of one. `Memory` comes for want of memory alone: some of
/// the first lines were then said, each whole, and no others.
pub fn show_file<S: Source, L: Lines>(
    alloc: Global,
    reader: &mut FileReader<S>,
    lines: &mut L,
) -> ShowEnd
    requires fresh { ((outlook reader.old.file).is_over ≡ false) × (reader.old.file.context ≡ []) }
    // all lines of what the reader gave, up to its end
    ensures shown { IsTrue (is_read result) → (chunks : List ChunkAt) × (end : FileEndValue) × (result ≡ show_end end)
        × IsRead S.left S.faults S.mark file_kind (outlook reader.old.file).coming reader.old.source reader.new.source chunks end
        × Appends (L.printed lines.old) (L.printed lines.new) (printed_lines (show_lines (chunks, end))) }
    // a front of the first lines, whatever the file has behind the bytes that were taken; or a front of all lines
    ensures print { result ≡ ShowEnd.PrintFault → Rose (L.print_faults lines.old) (L.print_faults lines.new)
        × (((taken : List ℕ) × (said : List (List ℕ)) × Consumes (S.left reader.old.source) (S.left reader.new.source) taken
        × AreFirstLines (outlook reader.old.file).coming taken said × AppendsFront (L.printed lines.old) (L.printed lines.new) (printed_lines said))
        ⊎ ((chunks : List ChunkAt) × (end : FileEndValue)
        × IsRead S.left S.faults S.mark file_kind (outlook reader.old.file).coming reader.old.source reader.new.source chunks end
        × AppendsFront (L.printed lines.old) (L.printed lines.new) (printed_lines (show_lines (chunks, end))))) }
    // some of the first lines, each whole
    ensures memory { result ≡ ShowEnd.Memory → (taken : List ℕ) × (said : List (List ℕ)) × Consumes (S.left reader.old.source) (S.left reader.new.source) taken
        × AreFirstLines (outlook reader.old.file).coming taken said × Appends (L.printed lines.old) (L.printed lines.new) (printed_lines said) }
    ensures reads { Blames (result ≡ ShowEnd.ReadFault) (S.faults reader.old.source) (S.faults reader.new.source) }
    ensures cause { Blames (result ≡ ShowEnd.PrintFault) (L.print_faults lines.old) (L.print_faults lines.new) }
    ensures rest { L.rest lines.new ≡ L.rest lines.old }
{
    let mut count: u64 = 0;
    'chunks: loop {
        match reader.next() {
            Next::Chunk { at, chunk } => {
                match say_given(alloc, lines, reader.context(), at, chunk) {
                    Ok(()) => count += 1,
                    Err(SayFault::Print) => return ShowEnd::PrintFault,
                    Err(SayFault::Memory) => return ShowEnd::Memory,
                }
            }
            Next::End { at } => return finish(alloc, lines, count, FileEnd::End { at }),
            Next::Torn { at, left } => {
                return finish(alloc, lines, count, FileEnd::Torn { at, left });
            }
            Next::Bad { at, why } => return finish(alloc, lines, count, FileEnd::Bad { at, why }),
            Next::ReadFault => return ShowEnd::ReadFault,
            Next::SizeLimit => return ShowEnd::SizeLimit,
            Next::Memory => return ShowEnd::Memory,
        }
    }
}
