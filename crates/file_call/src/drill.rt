//! `drill`: a recording of feeds that are made by a rule, in memory, and its check.

ghost use Rattle.std.specs.Prelude.{◌≡◌, ◌≤◌, ◌⊎◌, ℕ, [], IsTrue, IsErr, IsErrOf, IfOk, OnOk, codes};
ghost use Rattle.dock_calls.specs.Asking.{IsCaused};
ghost use Rattle.rec_base.specs.Causes.{Blames, Rose};
ghost use Rattle.std.specs.Io.KnownBytes.{Appends};
ghost use Rattle.rec_base.specs.Known.{AppendsFront, printed_line};
ghost use Rattle.dock_calls.specs.Said.{SaysFault};
ghost use Rattle.file_call.specs.Drilled.{IsDrillCut, IsDrillSaid, IsDrilled, drill_line};
ghost use Rattle.file_call.specs.Statuses.{is_all_asked, is_all_said, is_drill_status};

use crate::fault::DrillFault;
use crate::noted::notes_in;
use crate::recorded::record_drill;
use dock_calls::{say_fault, say_line};
use rec_base::{Dock, Failed, Lines, MemSink, Memory, Sink, Source};
use std::alloc::Global;

/// The numbers of a drill.
#[derive(Clone, Copy, Debug, PartialEq, Eq)]
pub(crate) struct Drilled {
    pub(crate) bytes: u64,
    pub(crate) chunks: u64,
    pub(crate) kept: u64,
    pub(crate) lost: u64,
    pub(crate) notes: u64,
}

// Records the feeds and checks the file.
fn run_drill(alloc: Global, number: u64) -> Result<Drilled, Memory>
    requires some { 1 ≤ number }
    requires most { number ≤ 1_000_000 }
    ensures { IfOk result (λ d. IsDrilled number d.bytes d.chunks d.kept d.lost d.notes) }
{
    let mut sink = MemSink::new(alloc);
    let recorded = record_drill(alloc, number, &mut sink)?;
    let notes = notes_in(alloc, sink.held())?;
    Ok(Drilled {
        bytes: sink.held().len() as u64,
        chunks: recorded.chunks,
        kept: recorded.kept,
        lost: recorded.lost,
        notes,
    })
}

// Says the numbers.
fn say_drilled<D: Dock>(
    alloc: Global,
    number: u64,
    numbers: Drilled,
    dock: &mut D,
) -> Result<(), DrillFault>
    ensures ok { OnOk result (Appends (D.printed dock.old) (D.printed dock.new) (printed_line (drill_line number numbers.bytes numbers.chunks numbers.kept numbers.lost numbers.notes))) }
    ensures say { IsErrOf result DrillFault.Say → Rose (D.print_faults dock.old) (D.print_faults dock.new)
        × AppendsFront (D.printed dock.old) (D.printed dock.new) (printed_line (drill_line number numbers.bytes numbers.chunks numbers.kept numbers.lost numbers.notes)) }
    ensures memory { IsErrOf result DrillFault.Memory → (D.printed dock.new ≡ D.printed dock.old) × (D.print_faults dock.new ≡ D.print_faults dock.old) }
    ensures says { Blames (IsErrOf result DrillFault.Say) (D.print_faults dock.old) (D.print_faults dock.new) }
    ensures rest { D.Lines.rest dock.new ≡ D.Lines.rest dock.old }
{
    let Drilled {
        bytes,
        chunks,
        kept,
        lost,
        notes,
    } = numbers;
    let line = match format!(in alloc;
        "drill {number} bytes {bytes} chunks {chunks} kept {kept} lost {lost} notes {notes}"
    ) {
        Ok(line) => line,
        Err(_) => return Err(DrillFault::Memory),
    };
    match say_line(dock, line.as_str()) {
        Ok(()) => Ok(()),
        Err(Failed) => Err(DrillFault::Say),
    }
}

// Drills, and says the numbers.
fn drill<D: Dock>(alloc: Global, number: u64, dock: &mut D) -> Result<(), DrillFault>
    requires some { 1 ≤ number }
    requires most { number ≤ 1_000_000 }
    ensures drilled { OnOk result (IsDrillSaid number (D.printed dock.old) (D.printed dock.new)) }
    ensures say { IsErrOf result DrillFault.Say → Rose (D.print_faults dock.old) (D.print_faults dock.new) × IsDrillCut number (D.printed dock.old) (D.printed dock.new) }
    ensures memory { IsErrOf result DrillFault.Memory → (D.printed dock.new ≡ D.printed dock.old) × (D.print_faults dock.new ≡ D.print_faults dock.old) }
    ensures says { Blames (IsErrOf result DrillFault.Say) (D.print_faults dock.old) (D.print_faults dock.new) }
    ensures rest { D.Lines.rest dock.new ≡ D.Lines.rest dock.old }
{
    let numbers = match run_drill(alloc, number) {
        Ok(numbers) => numbers,
        Err(Memory) => return Err(DrillFault::Memory),
    };
    match say_drilled(alloc, number, numbers, dock) {
        Ok(()) => Ok(()),
        Err(fault) => Err(fault),
    }
}

/// Drills, and answers the status.
pub(crate) fn drill_status<D: Dock>(alloc: Global, number: u64, dock: &mut D) -> u8
    requires some { 1 ≤ number }
    requires most { number ≤ 1_000_000 }
    ensures statuses { IsTrue (is_drill_status result) }
    ensures drilled { result ≡ 0 → IsDrillSaid number (D.printed dock.old) (D.printed dock.new) }
    ensures say_fault { result ≡ 8 → Rose (D.print_faults dock.old) (D.print_faults dock.new) × IsDrillCut number (D.printed dock.old) (D.printed dock.new) }
    ensures memory { result ≡ 9 → SaysFault (D.printed dock.old) (D.printed dock.new) (D.print_faults dock.old) (D.print_faults dock.new) (codes "fault 9") }
    ensures nothing_written { (D.target dock.new ≡ D.target dock.old) × (D.held dock.new ≡ D.held dock.old) }
    ensures caused { IsCaused (is_all_asked result) (is_all_said result) [] (D.asked dock.old) (D.asked dock.new) (D.open_faults dock.old) (D.open_faults dock.new)
        (D.write_faults dock.old) (D.write_faults dock.new) (D.print_faults dock.old) (D.print_faults dock.new) result }
{
    match drill(alloc, number, dock) {
        Ok(()) => 0,
        Err(DrillFault::Say) => 8,
        Err(DrillFault::Memory) => {
            say_fault(dock, "fault 9");
            9
        }
    }
}
