//! Says what stands behind the notes of the chunks.

ghost use Rattle.std.specs.Prelude.{◌≡◌, ◌≤◌, ◌<◌, ◌+◌, ◌*◌, ◌^◌, ◌++◌, ◌∷◌, ◌==◌, ◌&&◌, None, not, [], IfOk, length, map, if◌then◌else◌, IsErrOf};
ghost use Rattle.rec_base.specs.Causes.{Blames};
ghost use Rattle.report_model.specs.Check.{note_line, sum_lines};
ghost use Rattle.report_model.specs.Notes.{end_notes, notes_in};
ghost use Rattle.report_model.specs.Notes as notes;
ghost use Rattle.stream_check.specs.Telling.{Tells, kept_notes, kept_table, last_lines, last_notes};

use crate::kept::Kept;
use crate::say::{say_line, say_notes};
use crate::table::{differs, end_row, note};
use file_reader::FileEnd;
use rec_base::Lines;
use std::alloc::Global;
use stream_report::SayFault;

// Whether it isn't known what stands behind the last chunk.
fn is_stopped(end: FileEnd) -> bool
    ensures { result ≡ notes.is_stopped end }
{
    matches!(end, FileEnd::ReadFault | FileEnd::SizeLimit)
}

// Says what is noted of a stream, and tells how many notes there are.
fn say_stream<L: Lines>(
    alloc: Global,
    lines: &mut L,
    kept: &Kept,
    ledger: bool,
) -> Result<u64, SayFault>
    ensures told { Tells result (L.printed lines.old) (L.printed lines.new) (L.print_faults lines.old) (L.print_faults lines.new) (map note_line (notes_in (kept_table ledger kept.now))) }
    ensures count { IfOk result (λ n. n ≡ length (notes_in (kept_table ledger kept.now))) }
    ensures few { IfOk result (λ n. n ≤ 2) }
    ensures cause { Blames (IsErrOf result SayFault.Print) (L.print_faults lines.old) (L.print_faults lines.new) }
    ensures rest { L.rest lines.new ≡ L.rest lines.old }
{
    let id = Some(kept.id);
    match kept.footer {
        None => {
            let table = [(true, note(2, id, kept.at))];
            say_notes(alloc, lines, &table)
        }
        Some(footer) => {
            let table = [
                (
                    differs(footer.samples, kept.samples),
                    note(3, id, footer.at),
                ),
                (
                    ledger && kept.id != 0 && differs(footer.overruns, kept.lost),
                    note(4, id, footer.at),
                ),
            ];
            say_notes(alloc, lines, &table)
        }
    }
}

// Says what is noted of the streams, in order.
fn say_streams<L: Lines>(
    alloc: Global,
    lines: &mut L,
    streams: &[Kept],
    ledger: bool,
) -> Result<u128, SayFault>
    ensures told { Tells result (L.printed lines.old) (L.printed lines.new) (L.print_faults lines.old) (L.print_faults lines.new) (map note_line (kept_notes ledger streams.now)) }
    ensures count { IfOk result (λ n. n ≡ length (kept_notes ledger streams.now)) }
    ensures few { IfOk result (λ n. n < 2 ^ 66) }
    ensures cause { Blames (IsErrOf result SayFault.Print) (L.print_faults lines.old) (L.print_faults lines.new) }
    ensures rest { L.rest lines.new ≡ L.rest lines.old }
{
    let mut count: u128 = 0;
    for kept in streams {
        match say_stream(alloc, lines, kept, ledger) {
            Ok(n) => count += n as u128,
            Err(fault) => return Err(fault),
        }
    }
    Ok(count)
}

// The same where the whole file is known.
fn say_known<L: Lines>(
    alloc: Global,
    lines: &mut L,
    streams: &[Kept],
    ledger: bool,
    end: FileEnd,
) -> Result<u128, SayFault>
    ensures told { Tells result (L.printed lines.old) (L.printed lines.new) (L.print_faults lines.old) (L.print_faults lines.new) (map note_line (if notes.is_stopped end then [] else kept_notes ledger streams.now)) }
    ensures count { IfOk result (λ n. n ≡ length (if notes.is_stopped end then [] else kept_notes ledger streams.now)) }
    ensures few { IfOk result (λ n. n < 2 ^ 66) }
    ensures cause { Blames (IsErrOf result SayFault.Print) (L.print_faults lines.old) (L.print_faults lines.new) }
    ensures rest { L.rest lines.new ≡ L.rest lines.old }
{
    if is_stopped(end) {
        return Ok(0);
    }
    say_streams(alloc, lines, streams, ledger)
}

// Says what is noted of the file where it has no chunk, and of its end.
fn say_end<L: Lines>(
    alloc: Global,
    lines: &mut L,
    chunks: u64,
    end: FileEnd,
) -> Result<u64, SayFault>
    ensures told { Tells result (L.printed lines.old) (L.printed lines.new) (L.print_faults lines.old) (L.print_faults lines.new) (map note_line (notes_in ((chunks == 0 && not (notes.is_stopped end), notes.note 1 None 4) ∷ []) ++ end_notes end)) }
    ensures count { IfOk result (λ n. n ≡ length (notes_in ((chunks == 0 && not (notes.is_stopped end), notes.note 1 None 4) ∷ []) ++ end_notes end)) }
    ensures few { IfOk result (λ n. n ≤ 2) }
    ensures cause { Blames (IsErrOf result SayFault.Print) (L.print_faults lines.old) (L.print_faults lines.new) }
    ensures rest { L.rest lines.new ≡ L.rest lines.old }
{
    let table = [
        (chunks == 0 && !is_stopped(end), note(1, None, 4)),
        end_row(end),
    ];
    say_notes(alloc, lines, &table)
}

// Says the last line, where there is one.
fn say_sum<L: Lines>(
    alloc: Global,
    lines: &mut L,
    chunks: u64,
    count: u128,
    end: FileEnd,
) -> Result<(), SayFault>
    ensures told { Tells result (L.printed lines.old) (L.printed lines.new) (L.print_faults lines.old) (L.print_faults lines.new) (sum_lines chunks count end) }
    ensures cause { Blames (IsErrOf result SayFault.Print) (L.print_faults lines.old) (L.print_faults lines.new) }
    ensures rest { L.rest lines.new ≡ L.rest lines.old }
{
    if is_stopped(end) {
        return Ok(());
    }
    match format!(in alloc; "chunks {chunks} notes {count}") {
        Ok(line) => say_line(lines, line.as_str()),
        Err(_) => Err(SayFault::Memory),
    }
}

/// Says what stands behind the notes of the chunks, of which there are so many, and tells how many
/// notes there are in all.
pub(crate) fn say_last<L: Lines>(
    alloc: Global,
    lines: &mut L,
    streams: &[Kept],
    ledger: bool,
    chunks: u64,
    notes: u128,
    end: FileEnd,
) -> Result<u128, SayFault>
    requires few { notes < 2 ^ 70 }
    ensures told { Tells result (L.printed lines.old) (L.printed lines.new) (L.print_faults lines.old) (L.print_faults lines.new) (last_lines ledger streams.now chunks notes end) }
    ensures count { IfOk result (λ n. n ≡ notes + length (last_notes ledger streams.now chunks end)) }
    ensures cause { Blames (IsErrOf result SayFault.Print) (L.print_faults lines.old) (L.print_faults lines.new) }
    ensures rest { L.rest lines.new ≡ L.rest lines.old }
{
    let ends = match say_end(alloc, lines, chunks, end) {
        Ok(n) => n,
        Err(fault) => return Err(fault),
    };
    let known = match say_known(alloc, lines, streams, ledger, end) {
        Ok(n) => n,
        Err(fault) => return Err(fault),
    };
    let count = notes + ends as u128 + known;
    match say_sum(alloc, lines, chunks, count, end) {
        Ok(()) => Ok(count),
        Err(fault) => Err(fault),
    }
}
