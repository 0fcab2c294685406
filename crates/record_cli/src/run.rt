//! What the program does, on any dock.

ghost use Rattle.std.specs.Prelude.{◌≡◌, ◌≤◌, ◌||◌, ℕ, IsTrue, codes, false, not};
ghost use Rattle.dock_calls.specs.Said.{SaysFault};
ghost use Rattle.record_cli.specs.Answers.{IsAnswer, IsSettled};
ghost use Rattle.record_cli.specs.Shown.{Shown};
ghost use Rattle.record_cli.specs.Statuses.{is_written, last_status};
ghost use Rattle.record_cli.specs.Words.{starts_record};

use dock_calls::say_fault;
use file_call::file_main;
use real_dock::Settle;
use rec_base::{Dock, Lines, Sink, Source, Word};
use record_call::record_main;
use std::alloc::Global;
use std::rt::Clock;
use std::sync::Wait;
use std::thread::Threads;

/// Does what the words ask for, forces the output to the disk, puts the lines out, and answers the
/// status of the program.
///
/// It is the status of the command, but for two: where the file can't be forced to the disk, a status
/// that says that it is written becomes 5, with the line `fault 5`; where the lines aren't all taken, a
/// status that says that they were said becomes 8. The first weighs more. This project's own.
pub(crate) fn run<D: Settle, R: Threads + Wait + Clock + Sync>(
    rt: &R,
    alloc: Global,
    words: &[Word],
    dock: &mut D,
) -> u8
    ensures { (answered : Shown D.InputMark) × (status : ℕ)
        × IsAnswer D.Source.left D.Source.faults D.Source.mark D.input_mark (starts_record words.now) words.now
        (record { contents = D.contents dock.old; marks = D.marks dock.old; asked = D.asked dock.old; target = D.target dock.old; held = D.held dock.old; printed = D.printed dock.old; opens = D.open_faults dock.old; writes = D.write_faults dock.old; says = D.print_faults dock.old })
        answered status
        × IsSettled answered
        (record { contents = D.contents dock.new; marks = D.marks dock.new; asked = D.asked dock.new; target = D.target dock.new; held = D.held dock.new; printed = D.printed dock.new; opens = D.open_faults dock.new; writes = D.write_faults dock.new; says = D.print_faults dock.new })
        (D.is_forced dock.new) (D.out dock.new) status result }
{
    let status = answer(rt, alloc, words, dock);
    settle(status, dock)
}

// Does what the words ask for.
fn answer<D: Dock, R: Threads + Wait + Clock + Sync>(
    rt: &R,
    alloc: Global,
    words: &[Word],
    dock: &mut D,
) -> u8
    ensures { IsAnswer D.Source.left D.Source.faults D.Source.mark D.input_mark (starts_record words.now) words.now
        (record { contents = D.contents dock.old; marks = D.marks dock.old; asked = D.asked dock.old; target = D.target dock.old; held = D.held dock.old; printed = D.printed dock.old; opens = D.open_faults dock.old; writes = D.write_faults dock.old; says = D.print_faults dock.old })
        (record { contents = D.contents dock.new; marks = D.marks dock.new; asked = D.asked dock.new; target = D.target dock.new; held = D.held dock.new; printed = D.printed dock.new; opens = D.open_faults dock.new; writes = D.write_faults dock.new; says = D.print_faults dock.new })
        result }
{
    if is_record(words) {
        record_main(rt, alloc, words, dock)
    } else {
        file_main(alloc, words, dock)
    }
}

// Whether the first word is `record`, whose call may run as long as its feeds do.
fn is_record(words: &[Word]) -> bool
    ensures { result ≡ starts_record words.now }
{
    match words {
        [command, ..] => command.bytes() == b"record".as_slice(),
        [] => false,
    }
}

// Forces the output to the disk, puts out the lines that wait, and answers the status.
fn settle<D: Settle>(status: u8, dock: &mut D) -> u8
    ensures { IsSettled
        (record { contents = D.contents dock.old; marks = D.marks dock.old; asked = D.asked dock.old; target = D.target dock.old; held = D.held dock.old; printed = D.printed dock.old; opens = D.open_faults dock.old; writes = D.write_faults dock.old; says = D.print_faults dock.old })
        (record { contents = D.contents dock.new; marks = D.marks dock.new; asked = D.asked dock.new; target = D.target dock.new; held = D.held dock.new; printed = D.printed dock.new; opens = D.open_faults dock.new; writes = D.write_faults dock.new; says = D.print_faults dock.new })
        (D.is_forced dock.new) (D.out dock.new) status result }
{
    let forced = dock.force().is_ok();
    say_unforced(status, forced, dock);
    let told = dock.flush().is_ok();
    last_status(status, forced, told)
}

// Says that what is written may not be on the disk, where the status says that it is written.
fn say_unforced<D: Dock>(status: u8, forced: bool, dock: &mut D)
    ensures unspoken { IsTrue (forced || not (is_written status)) → dock.new ≡ dock.old }
    ensures spoken { forced ≡ false → IsTrue (is_written status) → SaysFault (D.printed dock.old) (D.printed dock.new) (D.print_faults dock.old) (D.print_faults dock.new) (codes "fault 5") }
    ensures later { D.print_faults dock.old ≤ D.print_faults dock.new }
    ensures rest { D.Lines.rest dock.new ≡ D.Lines.rest dock.old }
{
    if last_status(status, forced, true) != status {
        say_fault(dock, "fault 5");
    }
}

// The status, once the output is forced to the disk and all lines are out. A file that may not be on the
// disk counts as a write that failed, and weighs more than a line that is lost, which counts as one that
// couldn't be said.
fn last_status(status: u8, forced: bool, told: bool) -> u8
    ensures { result ≡ last_status forced told status }
{
    match status {
        0 | 1 | 8 if !forced => 5,
        0 | 1 | 6 if !told => 8,
        _ => status,
    }
}
