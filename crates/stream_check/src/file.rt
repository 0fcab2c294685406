//! Checks a whole file.

ghost use Rattle.std.specs.Prelude.{◌≡◌, ◌≤◌, ◌<◌, ◌+◌, ◌^◌, ◌⊎◌, ℕ, List, [], IsTrue, false, length};
ghost use Rattle.std.specs.Io.KnownBytes.{Appends, Consumes};
ghost use Rattle.rec_base.specs.Causes.{Blames, Rose};
ghost use Rattle.rec_base.specs.Known.{AppendsFront};
ghost use Rattle.reading_model.specs.Read.{IsRead};
ghost use Rattle.file_model.specs.declared.end.FileEnd.{FileEnd as FileEndValue};
ghost use Rattle.file_model.specs.Reader.{ChunkAt, file_kind};
ghost use Rattle.file_reader.specs.FileInlet.{outlook};
ghost use Rattle.report_model.specs.Check.{check_lines, AreFirstCheckLines};
ghost use Rattle.report_model.specs.Shown.{printed_lines};
ghost use Rattle.stream_check.specs.Ends.{check_end, end_by, is_checked, told_count, SaysSome};
ghost use Rattle.stream_check.specs.Telling.{last_lines, last_notes};

use crate::chunk::take_chunk;
use crate::last::say_last;
use crate::next::{Step, read_next};
use crate::survey::Survey;
use file_reader::{FileEnd, FileReader};
use rec_base::{Lines, Source};
use std::alloc::Global;
use stream_report::SayFault;

/// How the check of a file ended. This project's own.
#[derive(Clone, Copy, Debug, PartialEq, Eq)]
pub enum CheckEnd {
    /// The file was read to its end, to a torn chunk or to a bad place, and all lines were said. Each
    /// number stands still at 2^64 - 1.
    Done { chunks: u64, notes: u64 },
    /// The notes of the chunks before a read that failed were said.
    ReadFault,
    /// The notes of the chunks within the limit of bytes were said, and there are more bytes.
    SizeLimit,
    /// A line couldn't be said.
    PrintFault,
    /// There was no memory, and nothing else went wrong.
    Memory,
}

// How the check ends where all lines were said.
fn end_by(end: FileEnd, chunks: u64, notes: u128) -> CheckEnd
    ensures { result ≡ end_by end chunks notes }
{
    match end {
        FileEnd::End { .. } | FileEnd::Torn { .. } | FileEnd::Bad { .. } => CheckEnd::Done {
            chunks,
            notes: told_count(notes),
        },
        FileEnd::ReadFault => CheckEnd::ReadFault,
        FileEnd::SizeLimit => CheckEnd::SizeLimit,
    }
}

// A count, as it is told.
fn told_count(count: u128) -> u64
    ensures { result ≡ told_count count }
{
    if count < u64::MAX as u128 {
        count as u64
    } else {
        u64::MAX
    }
}

// Says what stands behind the notes of the chunks, and tells how the check ended.
fn finish<L: Lines>(
    alloc: Global,
    lines: &mut L,
    survey: Survey,
    chunks: u64,
    notes: u128,
    end: FileEnd,
) -> CheckEnd
    requires few { notes < 2 ^ 70 }
    ensures said { IsTrue (is_checked result) → (result ≡ end_by end chunks (notes + length (last_notes survey.ledger survey.streams.items chunks end)))
        × Appends (L.printed lines.old) (L.printed lines.new) (printed_lines (last_lines survey.ledger survey.streams.items chunks notes end)) }
    ensures print { result ≡ CheckEnd.PrintFault → AppendsFront (L.printed lines.old) (L.printed lines.new) (printed_lines (last_lines survey.ledger survey.streams.items chunks notes end))
        × Rose (L.print_faults lines.old) (L.print_faults lines.new) }
    ensures memory { result ≡ CheckEnd.Memory → SaysSome (L.printed lines.old) (L.printed lines.new) (last_lines survey.ledger survey.streams.items chunks notes end) }
    ensures cause { Blames (result ≡ CheckEnd.PrintFault) (L.print_faults lines.old) (L.print_faults lines.new) }
    ensures rest { L.rest lines.new ≡ L.rest lines.old }
{
    match say_last(
        alloc,
        lines,
        &survey.streams,
        survey.ledger,
        chunks,
        notes,
        end,
    ) {
        Ok(count) => end_by(end, chunks, count),
        Err(SayFault::Print) => CheckEnd::PrintFault,
        Err(SayFault::Memory) => CheckEnd::Memory,
    }
}

/// Says what is to be noted of a file, and how many chunks and notes there are. What the notes and
/// their lines are is this project's own.
///
/// The reader has given nothing yet. `Done` comes where the reading came to its end, behind a chunk,
/// within one or at a bad place; the last line is `chunks N notes N`. Behind `ReadFault` and
/// `SizeLimit` there is no such line, and no note of what a stream lacks. `PrintFault` comes only
/// where `say` failed: a front of the lines was then said, which may end in the midst of one. `Memory`
/// comes for want of memory alone: some of the first lines were then said, each whole, and no others.
pub fn check_file<S: Source, L: Lines>(
    alloc: Global,
    reader: &mut FileReader<S>,
    lines: &mut L,
) -> CheckEnd
    requires fresh { ((outlook reader.old.file).is_over ≡ false) × (reader.old.file.context ≡ []) }
    // all lines of what the reader gave, up to its end
    ensures checked { IsTrue (is_checked result) → (chunks : List ChunkAt) × (end : FileEndValue) × (result ≡ check_end (chunks, end))
        × IsRead S.left S.faults S.mark file_kind (outlook reader.old.file).coming reader.old.source reader.new.source chunks end
        × Appends (L.printed lines.old) (L.printed lines.new) (printed_lines (check_lines (chunks, end))) }
    // a front of the first lines, whatever the file has behind the bytes that were taken; or a front of all lines
    ensures print { result ≡ CheckEnd.PrintFault → Rose (L.print_faults lines.old) (L.print_faults lines.new)
        × (((taken : List ℕ) × (said : List (List ℕ)) × Consumes (S.left reader.old.source) (S.left reader.new.source) taken
        × AreFirstCheckLines (outlook reader.old.file).coming taken said × AppendsFront (L.printed lines.old) (L.printed lines.new) (printed_lines said))
        ⊎ ((chunks : List ChunkAt) × (end : FileEndValue)
        × IsRead S.left S.faults S.mark file_kind (outlook reader.old.file).coming reader.old.source reader.new.source chunks end
        × AppendsFront (L.printed lines.old) (L.printed lines.new) (printed_lines (check_lines (chunks, end))))) }
    // some of the first lines, each whole, whatever the file has behind the bytes that were taken; or some of the first of all lines
    ensures memory { result ≡ CheckEnd.Memory → ((taken : List ℕ) × (said : List (List ℕ)) × Consumes (S.left reader.old.source) (S.left reader.new.source) taken
        × AreFirstCheckLines (outlook reader.old.file).coming taken said × Appends (L.printed lines.old) (L.printed lines.new) (printed_lines said))
        ⊎ ((chunks : List ChunkAt) × (end : FileEndValue)
        × IsRead S.left S.faults S.mark file_kind (outlook reader.old.file).coming reader.old.source reader.new.source chunks end
        × SaysSome (L.printed lines.old) (L.printed lines.new) (check_lines (chunks, end))) }
    ensures reads { Blames (result ≡ CheckEnd.ReadFault) (S.faults reader.old.source) (S.faults reader.new.source) }
    ensures cause { Blames (result ≡ CheckEnd.PrintFault) (L.print_faults lines.old) (L.print_faults lines.new) }
    ensures rest { L.rest lines.new ≡ L.rest lines.old }
{
    let mut survey = Survey::new(alloc);
    let mut chunks: u64 = 0;
    let mut notes: u128 = 0;
    'chunks: loop {
        match read_next(reader) {
            Step::Chunk { at, chunk } => {
                match take_chunk(alloc, lines, &mut survey, chunks == 0, at, chunk) {
                    Ok(count) => {
                        chunks += 1;
                        notes += count as u128;
                    }
                    Err(SayFault::Print) => return CheckEnd::PrintFault,
                    Err(SayFault::Memory) => return CheckEnd::Memory,
                }
            }
            Step::End(FileEnd::ReadFault) => return CheckEnd::ReadFault,
            Step::End(end) => return finish(alloc, lines, survey, chunks, notes, end),
            Step::Memory => return CheckEnd::Memory,
        }
    }
}
