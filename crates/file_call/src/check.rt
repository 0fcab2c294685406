//! `check`: what is to be noted of a file.

ghost use Rattle.std.specs.Prelude.{◌≡◌, ◌≤◌, ◌⊎◌, List, ℕ, IsTrue, IsErrOf, IfOk, [], codes};
ghost use Rattle.dock_calls.specs.Asking.{FailsAt, HasReadFault, IsCaused};
ghost use Rattle.rec_base.specs.Asked.{AsksAll, AsksFront};
ghost use Rattle.file_call.specs.Orders.{input_order};
ghost use Rattle.rec_base.specs.Causes.{Blames, Rose};
ghost use Rattle.std.specs.Io.KnownBytes.{Appends};
ghost use Rattle.rec_base.specs.Known.{AppendsFront};
ghost use Rattle.rec_base.specs.declared.name.Name.TheVariants.{File};
ghost use Rattle.file_model.specs.declared.end.FileEnd.{FileEnd};
ghost use Rattle.file_model.specs.declared.end.FileEnd.TheVariants.{ReadFault, SizeLimit};
ghost use Rattle.file_model.specs.Reader.{ChunkAt};
ghost use Rattle.report_model.specs.Check.{AreFirstCheckLines, check_lines};
ghost use Rattle.report_model.specs.Shown.{printed_lines};
ghost use Rattle.stream_check.specs.Ends.{SaysSome};
ghost use Rattle.dock_calls.specs.Said.{SaysFault, SaysBehind};
ghost use Rattle.file_call.specs.Files.{IsFileOf, IsFileFrom, IsOtherFile, IsToldOther};
ghost use Rattle.file_call.specs.Statuses.{check_status, checked_status, is_all_asked, is_all_said, is_check_status, is_checked};
ghost use Rattle.file_call.specs.Said.{SaysSomeBehind};

use crate::fault::{OpenFault, ReportFault};
use crate::open::open_file;
use dock_calls::say_fault;
use rec_base::{Dock, Lines, Sink, Source, Word};
use std::alloc::Global;
use stream_check::{CheckEnd, check_file};

/// What came of a check that was made to its end.
#[derive(Clone, Copy, Debug, PartialEq, Eq)]
pub(crate) enum Checked {
    /// Nothing is to be noted.
    Clean,
    /// There is a note.
    Noted,
}

// Says the notes of a file, and answers whether there are any.
fn check<D: Dock>(alloc: Global, name: &Word, dock: &mut D) -> Result<Checked, ReportFault>
    ensures checked { IfOk result (λ c. (chunks : List ChunkAt) × (end : FileEnd) × (checked_status c ≡ check_status (chunks, end))
        × IsFileOf D.Source.left D.Source.faults D.Source.mark (D.contents dock.old) name.now chunks end
        × Appends (D.printed dock.old) (D.printed dock.new) (printed_lines (check_lines (chunks, end)))) }
    ensures read { IsErrOf result ReportFault.Read → (chunks : List ChunkAt)
        × IsFileOf D.Source.left D.Source.faults D.Source.mark (D.contents dock.old) name.now chunks ReadFault
        × Appends (D.printed dock.old) (D.printed dock.new) (printed_lines (check_lines (chunks, ReadFault))) }
    ensures size_limit { IsErrOf result ReportFault.SizeLimit → (chunks : List ChunkAt)
        × IsFileOf D.Source.left D.Source.faults D.Source.mark (D.contents dock.old) name.now chunks SizeLimit
        × Appends (D.printed dock.old) (D.printed dock.new) (printed_lines (check_lines (chunks, SizeLimit))) }
    ensures not_xdf { IsErrOf result ReportFault.NotXdf → IsOtherFile D.Source.left (D.contents dock.old) name.now }
    ensures open { IsErrOf result ReportFault.Open → FailsAt (D.asked dock.old) (D.asked dock.new) (input_order name.now) (D.open_faults dock.old) (D.open_faults dock.new)
        ⊎ HasReadFault D.Source.left D.Source.faults D.Source.mark D.input_mark (D.contents dock.old) (D.marks dock.old) (File name.now) 0 }
    ensures say { IsErrOf result ReportFault.Say → Rose (D.print_faults dock.old) (D.print_faults dock.new)
        × (((lines : List (List ℕ)) × IsFileFrom AreFirstCheckLines D.Source.left (D.contents dock.old) name.now lines
        × AppendsFront (D.printed dock.old) (D.printed dock.new) (printed_lines lines))
        ⊎ ((chunks : List ChunkAt) × (end : FileEnd) × IsFileOf D.Source.left D.Source.faults D.Source.mark (D.contents dock.old) name.now chunks end
        × AppendsFront (D.printed dock.old) (D.printed dock.new) (printed_lines (check_lines (chunks, end))))) }
    ensures memory { IsErrOf result ReportFault.Memory → (D.printed dock.new ≡ D.printed dock.old)
        ⊎ ((lines : List (List ℕ)) × IsFileFrom AreFirstCheckLines D.Source.left (D.contents dock.old) name.now lines
        × Appends (D.printed dock.old) (D.printed dock.new) (printed_lines lines))
        ⊎ ((chunks : List ChunkAt) × (end : FileEnd) × IsFileOf D.Source.left D.Source.faults D.Source.mark (D.contents dock.old) name.now chunks end
        × SaysSome (D.printed dock.old) (D.printed dock.new) (check_lines (chunks, end))) }
    ensures none_said { IsErrOf result ReportFault.NotXdf ⊎ IsErrOf result ReportFault.Open
        → (D.printed dock.new ≡ D.printed dock.old) × (D.print_faults dock.new ≡ D.print_faults dock.old) }
    ensures read_cause { IsErrOf result ReportFault.Read → HasReadFault D.Source.left D.Source.faults D.Source.mark D.input_mark (D.contents dock.old) (D.marks dock.old) (File name.now) 0 }
    ensures asks { AsksFront (D.asked dock.old) (D.asked dock.new) (input_order name.now) }
    ensures asks_all { (IsErrOf result ReportFault.Memory → ⊥) → AsksAll (D.asked dock.old) (D.asked dock.new) (input_order name.now) }
    ensures opens { (IsErrOf result ReportFault.Open → ⊥) → D.open_faults dock.new ≡ D.open_faults dock.old }
    ensures says { Blames (IsErrOf result ReportFault.Say) (D.print_faults dock.old) (D.print_faults dock.new) }
    ensures target { D.target dock.new ≡ D.target dock.old }
    ensures held { D.held dock.new ≡ D.held dock.old }
    ensures write_faults { D.write_faults dock.new ≡ D.write_faults dock.old }
{
    let mut reader = match open_file(alloc, dock, name) {
        Ok(reader) => reader,
        Err(OpenFault::NotXdf) => return Err(ReportFault::NotXdf),
        Err(OpenFault::Open) => return Err(ReportFault::Open),
        Err(OpenFault::Memory) => return Err(ReportFault::Memory),
    };
    match check_file(alloc, &mut reader, dock) {
        CheckEnd::Done { notes: 0, .. } => Ok(Checked::Clean),
        CheckEnd::Done { .. } => Ok(Checked::Noted),
        CheckEnd::ReadFault => Err(ReportFault::Read),
        CheckEnd::SizeLimit => Err(ReportFault::SizeLimit),
        CheckEnd::PrintFault => Err(ReportFault::Say),
        CheckEnd::Memory => Err(ReportFault::Memory),
    }
}

/// Checks a file, and answers the status.
pub(crate) fn check_status<D: Dock>(alloc: Global, name: &Word, dock: &mut D) -> u8
    ensures statuses { IsTrue (is_check_status result) }
    ensures checked { IsTrue (is_checked result) → (chunks : List ChunkAt) × (end : FileEnd) × (result ≡ check_status (chunks, end))
        × IsFileOf D.Source.left D.Source.faults D.Source.mark (D.contents dock.old) name.now chunks end
        × Appends (D.printed dock.old) (D.printed dock.new) (printed_lines (check_lines (chunks, end))) }
    ensures not_xdf { result ≡ 3 → IsOtherFile D.Source.left (D.contents dock.old) name.now × IsToldOther (D.contents dock.old) name.now
        × SaysFault (D.printed dock.old) (D.printed dock.new) (D.print_faults dock.old) (D.print_faults dock.new) (codes "fault 3") }
    ensures open_fault { result ≡ 4 → ((FailsAt (D.asked dock.old) (D.asked dock.new) (input_order name.now) (D.open_faults dock.old) (D.open_faults dock.new)
        ⊎ HasReadFault D.Source.left D.Source.faults D.Source.mark D.input_mark (D.contents dock.old) (D.marks dock.old) (File name.now) 0)
        × SaysBehind (D.printed dock.old) (D.printed dock.new) (D.print_faults dock.old) (D.print_faults dock.new) [] (codes "fault 4"))
        ⊎ (HasReadFault D.Source.left D.Source.faults D.Source.mark D.input_mark (D.contents dock.old) (D.marks dock.old) (File name.now) 0
        × (chunks : List ChunkAt) × IsFileOf D.Source.left D.Source.faults D.Source.mark (D.contents dock.old) name.now chunks ReadFault
        × SaysBehind (D.printed dock.old) (D.printed dock.new) (D.print_faults dock.old) (D.print_faults dock.new) (check_lines (chunks, ReadFault)) (codes "fault 4")) }
    ensures size_limit { result ≡ 7 → (chunks : List ChunkAt) × IsFileOf D.Source.left D.Source.faults D.Source.mark (D.contents dock.old) name.now chunks SizeLimit
        × SaysBehind (D.printed dock.old) (D.printed dock.new) (D.print_faults dock.old) (D.print_faults dock.new) (check_lines (chunks, SizeLimit)) (codes "fault 7") }
    ensures say_fault { result ≡ 8 → Rose (D.print_faults dock.old) (D.print_faults dock.new)
        × (((lines : List (List ℕ)) × IsFileFrom AreFirstCheckLines D.Source.left (D.contents dock.old) name.now lines
        × AppendsFront (D.printed dock.old) (D.printed dock.new) (printed_lines lines))
        ⊎ ((chunks : List ChunkAt) × (end : FileEnd) × IsFileOf D.Source.left D.Source.faults D.Source.mark (D.contents dock.old) name.now chunks end
        × AppendsFront (D.printed dock.old) (D.printed dock.new) (printed_lines (check_lines (chunks, end))))) }
    ensures memory { result ≡ 9 → SaysBehind (D.printed dock.old) (D.printed dock.new) (D.print_faults dock.old) (D.print_faults dock.new) [] (codes "fault 9")
        ⊎ ((lines : List (List ℕ)) × IsFileFrom AreFirstCheckLines D.Source.left (D.contents dock.old) name.now lines
        × SaysBehind (D.printed dock.old) (D.printed dock.new) (D.print_faults dock.old) (D.print_faults dock.new) lines (codes "fault 9"))
        ⊎ ((chunks : List ChunkAt) × (end : FileEnd) × IsFileOf D.Source.left D.Source.faults D.Source.mark (D.contents dock.old) name.now chunks end
        × SaysSomeBehind (D.printed dock.old) (D.printed dock.new) (D.print_faults dock.old) (D.print_faults dock.new) (check_lines (chunks, end)) (codes "fault 9")) }
    ensures nothing_written { (D.target dock.new ≡ D.target dock.old) × (D.held dock.new ≡ D.held dock.old) }
    ensures caused { IsCaused (is_all_asked result) (is_all_said result) (input_order name.now) (D.asked dock.old) (D.asked dock.new) (D.open_faults dock.old) (D.open_faults dock.new)
        (D.write_faults dock.old) (D.write_faults dock.new) (D.print_faults dock.old) (D.print_faults dock.new) result }
{
    match check(alloc, name, dock) {
        Ok(Checked::Clean) => 0,
        Ok(Checked::Noted) => 1,
        Err(ReportFault::NotXdf) => {
            say_fault(dock, "fault 3");
            3
        }
        Err(ReportFault::Open) => {
            say_fault(dock, "fault 4");
            4
        }
        Err(ReportFault::Read) => {
            say_fault(dock, "fault 4");
            4
        }
        Err(ReportFault::SizeLimit) => {
            say_fault(dock, "fault 7");
            7
        }
        Err(ReportFault::Say) => 8,
        Err(ReportFault::Memory) => {
            say_fault(dock, "fault 9");
            9
        }
    }
}
