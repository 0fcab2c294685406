//! Tables of notes, each with the condition under which it is made.

ghost use Rattle.std.specs.Prelude.{◌≡◌, ◌∷◌, []};
ghost use Rattle.report_model.specs.Notes.{end_notes, notes_in, tells_another};
ghost use Rattle.report_model.specs.Notes as notes;
ghost use Rattle.stream_check.specs.Telling.{table_with};

use crate::judge::{
    has_broken_document, has_broken_text, is_file_header, is_unknown, is_unversioned, stream_of,
};
use chunk_grammar::Chunk;
use file_reader::FileEnd;
use report_model::Note;

/// A note.
pub(crate) fn note(number: u8, id: Option<u32>, at: u64) -> Note
    ensures { result ≡ notes.note number id at }
{
    Note { number, id, at }
}

/// What is noted of a chunk, in the order in which it is said. The first row is of the file, and is
/// for its first chunk.
pub(crate) fn table_of(
    first: bool,
    at: u64,
    chunk: &Chunk,
    repeated: bool,
    bad: bool,
) -> [(bool, Note); 7]
    ensures { result ≡ table_with first at chunk.now repeated bad }
{
    let id = stream_of(chunk);
    [
        (first && !is_file_header(chunk), note(1, None, 4)),
        (is_unversioned(chunk), note(10, id, at)),
        (repeated, note(11, id, at)),
        (has_broken_document(chunk), note(5, id, at)),
        (has_broken_text(chunk), note(6, id, at)),
        (bad, note(12, id, at)),
        (is_unknown(chunk), note(9, id, at)),
    ]
}

/// What is noted of the end of a file.
pub(crate) fn end_row(end: FileEnd) -> (bool, Note)
    ensures { notes_in (result ∷ []) ≡ end_notes end }
{
    match end {
        FileEnd::Torn { at, .. } => (true, note(7, None, at)),
        FileEnd::Bad { at, .. } => (true, note(8, None, at)),
        FileEnd::End { at } => (false, note(7, None, at)),
        FileEnd::ReadFault | FileEnd::SizeLimit => (false, note(7, None, 0)),
    }
}

/// Whether a number is told, and is another than this.
pub(crate) fn differs(told: Option<u64>, count: u128) -> bool
    ensures { result ≡ tells_another told count }
{
    match told {
        Some(number) => number as u128 != count,
        None => false,
    }
}
