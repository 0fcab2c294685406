//! Takes a chunk into account, and says what is to be noted of it.

ghost use Rattle.std.specs.Prelude.{◌≡◌, ◌≤◌, ◌∷◌, ◌++◌, List, [], IfOk, OnOk, length, map, IsErrOf};
ghost use Rattle.rec_base.specs.Causes.{Blames};
ghost use Rattle.file_model.specs.Reader.{ChunkAt};
ghost use Rattle.report_model.specs.Check.{note_line};
ghost use Rattle.report_model.specs.Notes.{notes_in};
ghost use Rattle.stream_check.specs.Survey.{FitsIn, Knows, context_of};
ghost use Rattle.stream_check.specs.Telling.{Tells, table_behind};

use crate::say::say_notes;
use crate::survey::Survey;
use crate::table::table_of;
use chunk_grammar::Chunk;
use rec_base::Lines;
use std::alloc::Global;
use stream_report::SayFault;

/// Takes a chunk into account, says what is to be noted of it, and tells how many notes there are.
/// Then the chunk is let go.
pub(crate) fn take_chunk<L: Lines>(
    alloc: Global,
    lines: &mut L,
    survey: &mut Survey,
    first: bool,
    at: u64,
    chunk: Chunk,
) -> Result<u64, SayFault>
    ensures told { (items : List ChunkAt) → Knows items survey.old → FitsIn (context_of items) chunk → Tells result (L.printed lines.old) (L.printed lines.new) (L.print_faults lines.old) (L.print_faults lines.new) (map note_line (notes_in (table_behind first items at chunk))) }
    ensures count { (items : List ChunkAt) → Knows items survey.old → FitsIn (context_of items) chunk → IfOk result (λ n. n ≡ length (notes_in (table_behind first items at chunk))) }
    ensures knows { (items : List ChunkAt) → Knows items survey.old → FitsIn (context_of items) chunk → OnOk result (Knows (items ++ (at, chunk) ∷ []) survey.new) }
    ensures few { IfOk result (λ n. n ≤ 7) }
    ensures cause { Blames (IsErrOf result SayFault.Print) (L.print_faults lines.old) (L.print_faults lines.new) }
    ensures rest { L.rest lines.new ≡ L.rest lines.old }
{
    let repeated = survey.is_repeated(&chunk);
    let Ok(bad) = survey.take(at, &chunk) else {
        return Err(SayFault::Memory);
    };
    let table = table_of(first, at, &chunk, repeated, bad);
    say_notes(alloc, lines, &table)
}
