//! Says notes.

ghost use Rattle.std.specs.Prelude.{◌≡◌, ◌≤◌, ◌∷◌, [], IfOk, length, map, string_bytes, IsErrOf};
ghost use Rattle.rec_base.specs.Causes.{Blames};
ghost use Rattle.report_model.specs.Check.{note_line};
ghost use Rattle.report_model.specs.Notes.{notes_in};
ghost use Rattle.stream_check.specs.Telling.{Tells};

use rec_base::{Failed, Lines, Memory};
use report_model::Note;
use std::alloc::Global;
use stream_report::SayFault;

/// Says one line.
pub(crate) fn say_line<L: Lines>(lines: &mut L, line: &str) -> Result<(), SayFault>
    ensures told { Tells result (L.printed lines.old) (L.printed lines.new) (L.print_faults lines.old) (L.print_faults lines.new) (line.now ∷ []) }
    ensures cause { Blames (IsErrOf result SayFault.Print) (L.print_faults lines.old) (L.print_faults lines.new) }
    ensures rest { L.rest lines.new ≡ L.rest lines.old }
{
    match lines.say(line) {
        Ok(()) => Ok(()),
        Err(Failed) => Err(SayFault::Print),
    }
}

fn note_text(alloc: Global, note: &Note) -> Result<String, Memory>
    ensures { IfOk result (λ line. string_bytes line ≡ note_line note.now) }
{
    let number = note.number;
    let at = note.at;
    match note.id {
        Some(id) => Ok(format!(in alloc; "note {number} {id} {at}")?),
        None => Ok(format!(in alloc; "note {number} - {at}")?),
    }
}

// Says the line of a note.
fn say_note<L: Lines>(alloc: Global, lines: &mut L, note: &Note) -> Result<(), SayFault>
    ensures told { Tells result (L.printed lines.old) (L.printed lines.new) (L.print_faults lines.old) (L.print_faults lines.new) (note_line note.now ∷ []) }
    ensures cause { Blames (IsErrOf result SayFault.Print) (L.print_faults lines.old) (L.print_faults lines.new) }
    ensures rest { L.rest lines.new ≡ L.rest lines.old }
{
    match note_text(alloc, note) {
        Ok(line) => say_line(lines, line.as_str()),
        Err(Memory) => Err(SayFault::Memory),
    }
}

// Says the note of a row, where its condition holds, and tells how many notes were said.
fn say_row<L: Lines>(alloc: Global, lines: &mut L, row: &(bool, Note)) -> Result<u64, SayFault>
    ensures told { Tells result (L.printed lines.old) (L.printed lines.new) (L.print_faults lines.old) (L.print_faults lines.new) (map note_line (notes_in (row.now ∷ []))) }
    ensures count { IfOk result (λ n. n ≡ length (notes_in (row.now ∷ []))) }
    ensures few { IfOk result (λ n. n ≤ 1) }
    ensures cause { Blames (IsErrOf result SayFault.Print) (L.print_faults lines.old) (L.print_faults lines.new) }
    ensures rest { L.rest lines.new ≡ L.rest lines.old }
{
    if !row.0 {
        return Ok(0);
    }
    match say_note(alloc, lines, &row.1) {
        Ok(()) => Ok(1),
        Err(fault) => Err(fault),
    }
}

/// Says the notes of a table whose conditions hold, and tells how many there are.
pub(crate) fn say_notes<L: Lines>(
    alloc: Global,
    lines: &mut L,
    table: &[(bool, Note)],
) -> Result<u64, SayFault>
    ensures told { Tells result (L.printed lines.old) (L.printed lines.new) (L.print_faults lines.old) (L.print_faults lines.new) (map note_line (notes_in table.now)) }
    ensures count { IfOk result (λ n. n ≡ length (notes_in table.now)) }
    ensures few { IfOk result (λ n. n ≤ length table.now) }
    ensures cause { Blames (IsErrOf result SayFault.Print) (L.print_faults lines.old) (L.print_faults lines.new) }
    ensures rest { L.rest lines.new ≡ L.rest lines.old }
{
    let mut count: u64 = 0;
    for row in table {
        match say_row(alloc, lines, row) {
            Ok(n) => count += n,
            Err(fault) => return Err(fault),
        }
    }
    Ok(count)
}
