//! The check of a drill's file.

ghost use Rattle.std.specs.Prelude.{◌≡◌, ◌++◌, List, ℕ, length, IfOk};
ghost use Rattle.reading_model.specs.Outlook.{ended};
ghost use Rattle.chunk_grammar.specs.Chunk.{magic};
ghost use Rattle.report_model.specs.Notes.{check_notes};
ghost use Rattle.stream_check.specs.Ends.{told_count};
ghost use Rattle.file_call.specs.Files.{file_chunks};

use crate::open::BYTE_LIMIT;
use file_reader::FileReader;
use rec_base::{Blob, CountLines, Memory, NeverFails};
use std::alloc::Global;
use stream_check::{CheckEnd, check_file};

/// How many notes a check makes of a file that begins with the magic. Want of memory is told also
/// where the file is longer than counts.
pub(crate) fn notes_in(alloc: Global, bytes: &[u8]) -> Result<u64, Memory>
    requires { (rest : List ℕ) × (bytes.now ≡ magic ++ rest) }
    ensures { IfOk result (λ n. n ≡ told_count (length (check_notes (file_chunks bytes.now ended)))) }
{
    let source = NeverFails::new(Blob::from_bytes(alloc, bytes)?);
    let Ok(mut reader) = FileReader::open(alloc, source, BYTE_LIMIT) else {
        return Err(Memory);
    };
    let mut lines = CountLines::new();
    match check_file(alloc, &mut reader, &mut lines) {
        CheckEnd::Done { notes, .. } => Ok(notes),
        CheckEnd::ReadFault | CheckEnd::SizeLimit | CheckEnd::PrintFault | CheckEnd::Memory => {
            Err(Memory)
        }
    }
}
