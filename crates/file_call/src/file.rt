//! The top call.

ghost use Rattle.std.specs.Prelude.{◌≡◌, ◌⊎◌, ◌↔◌, ◌++◌, [], List, ℕ, Bool, true, IsTrue, IsErr, Ok, Err, codes};
ghost use Rattle.dock_calls.specs.Asking.{FailsAt, HasReadFault, IsCaused};
ghost use Rattle.file_call.specs.Orders.{input_order, repair_order, file_order};
ghost use Rattle.rec_base.specs.Causes.{Rose};
ghost use Rattle.std.specs.Fmt.{decimal};
ghost use Rattle.std.specs.Io.KnownBytes.{Appends};
ghost use Rattle.rec_base.specs.Known.{AppendsFront, Becomes, printed_line};
ghost use Rattle.rec_base.specs.declared.name.Name.TheVariants.{File};
ghost use Rattle.file_model.specs.declared.end.FileEnd.{FileEnd};
ghost use Rattle.file_model.specs.declared.end.FileEnd.TheVariants.{ReadFault, SizeLimit};
ghost use Rattle.file_model.specs.Reader.{ChunkAt};
ghost use Rattle.plan_model.specs.Commands.{command_in, check_file, drill, repair_file, show_file};
ghost use Rattle.plan_model.specs.declared.top.Top.TheVariants.{File as for_files};
ghost use Rattle.report_model.specs.Check.{AreFirstCheckLines, check_lines};
ghost use Rattle.report_model.specs.Shown.{AreFirstLines, show_lines, printed_lines};
ghost use Rattle.dock_calls.specs.Said.{SaysFault, SaysBehind};
ghost use Rattle.file_call.specs.Drilled.{IsDrillCut, IsDrillSaid};
ghost use Rattle.file_call.specs.Files.{IsFileOf, IsFileFrom, IsOtherFile, IsToldOther};
ghost use Rattle.file_call.specs.Repaired.{CompletesRepair, is_repair_status, is_repaired, repaired_line, repaired_status};
ghost use Rattle.file_call.specs.Searched.{GoesOverDamage, IsCut, IsFailed, IsKept, IsLong};
ghost use Rattle.file_call.specs.Statuses.{check_status, file_status, is_all_asked, is_all_said, is_check_status, is_checked, is_drill_status, is_show_status, is_shown};
ghost use Rattle.file_call.specs.Said.{SaysSomeBehind};

use crate::check::check_status;
use crate::drill::drill_status;
use crate::repair::repair_status;
use crate::show::show_status;
use dock_calls::{say_fault, usage_line};
use plan_words::{Command, Top, read_words};
use rec_base::{Dock, Lines, Sink, Source, Word};
use std::alloc::Global;

/// Does what the words ask for, and answers the status of the program. It returns always.
///
/// - `show FILE` says what a file holds: each chunk in a line, each sample in a line below its chunk's,
///   and at the end how the file ends.
/// - `check FILE` says what is to be noted of a file: a line for each note, and how many there are.
/// - `repair IN OUT` writes the magic and the whole chunks at the front of a file into a new one, byte
///   for byte, and says how much of the file that is.
/// - `repair --search IN OUT` does the same, and writes the whole chunks behind damage too.
/// - `drill N` records three feeds that it makes, in memory, checks the file, and says the numbers.
///
/// A file is read from its front, one chunk at a time (XDF 1.0, "File structure"); its first 2^40 bytes
/// count. An output is created once its input was opened and begins as an XDF file does. The commands,
/// the lines and the statuses are this project's own:
///
/// - 0: a file was shown to its end; there is no note; nothing was left out; or the drill was done.
/// - 1: a file that was shown ends within a chunk; there is a note; or bytes were left out.
/// - 2: the words are no such command.
/// - 3: the file doesn't begin as an XDF file does.
/// - 4: a file can't be opened, read or created.
/// - 5: the output can't be written.
/// - 6: a file was shown up to a place at which no chunk stands, whatever follows.
/// - 7: the file is longer than counts.
/// - 8: a line can't be said. An output is complete then.
/// - 9: there is no memory.
///
/// Statuses 2, 3, 4, 5, 7 and 9 say one line of their own behind all others. Nothing is written but by
/// a repair, and by that nothing with status 2 or 3, nor where the input can't be opened or the output
/// can't be created; after a later fault the output has a front of the magic and of whole chunks of the
/// input. The clauses are told command by command.
pub fn file_main<D: Dock>(alloc: Global, words: &[Word], dock: &mut D) -> u8
    // ---- the dock: what was asked for, and which counts rose
    ensures caused { IsCaused (is_all_asked result) (is_all_said result) (file_order (command_in for_files words.now)) (D.asked dock.old) (D.asked dock.new) (D.open_faults dock.old) (D.open_faults dock.new)
        (D.write_faults dock.old) (D.write_faults dock.new) (D.print_faults dock.old) (D.print_faults dock.new) result }

    // ---- the words
    ensures usage { (result ≡ 2) ↔ IsErr (command_in for_files words.now) }
    ensures usage_line { (why : ℕ) → command_in for_files words.now ≡ Err why
        → SaysFault (D.printed dock.old) (D.printed dock.new) (D.print_faults dock.old) (D.print_faults dock.new) (codes "fault 2 usage " ++ decimal why) }
    ensures usage_writes_nothing { IsErr (command_in for_files words.now) → (D.target dock.new ≡ D.target dock.old) × (D.held dock.new ≡ D.held dock.old) }

    // ---- show
    ensures show_statuses { (name : List ℕ) → command_in for_files words.now ≡ Ok (show_file name)
        → IsTrue (is_show_status result) }
    ensures shown { (name : List ℕ) → command_in for_files words.now ≡ Ok (show_file name)
        → IsTrue (is_shown result) → (chunks : List ChunkAt) × (end : FileEnd) × (result ≡ file_status end)
        × IsFileOf D.Source.left D.Source.faults D.Source.mark (D.contents dock.old) name chunks end
        × Appends (D.printed dock.old) (D.printed dock.new) (printed_lines (show_lines (chunks, end))) }
    ensures show_not_xdf { (name : List ℕ) → command_in for_files words.now ≡ Ok (show_file name)
        → result ≡ 3 → IsOtherFile D.Source.left (D.contents dock.old) name × IsToldOther (D.contents dock.old) name
        × SaysFault (D.printed dock.old) (D.printed dock.new) (D.print_faults dock.old) (D.print_faults dock.new) (codes "fault 3") }
    ensures show_open_fault { (name : List ℕ) → command_in for_files words.now ≡ Ok (show_file name)
        → result ≡ 4 → ((FailsAt (D.asked dock.old) (D.asked dock.new) (input_order name) (D.open_faults dock.old) (D.open_faults dock.new)
        ⊎ HasReadFault D.Source.left D.Source.faults D.Source.mark D.input_mark (D.contents dock.old) (D.marks dock.old) (File name) 0)
        × SaysBehind (D.printed dock.old) (D.printed dock.new) (D.print_faults dock.old) (D.print_faults dock.new) [] (codes "fault 4"))
        ⊎ (HasReadFault D.Source.left D.Source.faults D.Source.mark D.input_mark (D.contents dock.old) (D.marks dock.old) (File name) 0
        × (chunks : List ChunkAt) × IsFileOf D.Source.left D.Source.faults D.Source.mark (D.contents dock.old) name chunks ReadFault
        × SaysBehind (D.printed dock.old) (D.printed dock.new) (D.print_faults dock.old) (D.print_faults dock.new) (show_lines (chunks, ReadFault)) (codes "fault 4")) }
    ensures show_size_limit { (name : List ℕ) → command_in for_files words.now ≡ Ok (show_file name)
        → result ≡ 7 → (chunks : List ChunkAt) × IsFileOf D.Source.left D.Source.faults D.Source.mark (D.contents dock.old) name chunks SizeLimit
        × SaysBehind (D.printed dock.old) (D.printed dock.new) (D.print_faults dock.old) (D.print_faults dock.new) (show_lines (chunks, SizeLimit)) (codes "fault 7") }
    ensures show_say_fault { (name : List ℕ) → command_in for_files words.now ≡ Ok (show_file name)
        → result ≡ 8 → Rose (D.print_faults dock.old) (D.print_faults dock.new)
        × (((lines : List (List ℕ)) × IsFileFrom AreFirstLines D.Source.left (D.contents dock.old) name lines
        × AppendsFront (D.printed dock.old) (D.printed dock.new) (printed_lines lines))
        ⊎ ((chunks : List ChunkAt) × (end : FileEnd) × IsFileOf D.Source.left D.Source.faults D.Source.mark (D.contents dock.old) name chunks end
        × AppendsFront (D.printed dock.old) (D.printed dock.new) (printed_lines (show_lines (chunks, end))))) }
    ensures show_memory { (name : List ℕ) → command_in for_files words.now ≡ Ok (show_file name)
        → result ≡ 9 → SaysBehind (D.printed dock.old) (D.printed dock.new) (D.print_faults dock.old) (D.print_faults dock.new) [] (codes "fault 9")
        ⊎ ((lines : List (List ℕ)) × IsFileFrom AreFirstLines D.Source.left (D.contents dock.old) name lines
        × SaysBehind (D.printed dock.old) (D.printed dock.new) (D.print_faults dock.old) (D.print_faults dock.new) lines (codes "fault 9")) }
    ensures show_writes_nothing { (name : List ℕ) → command_in for_files words.now ≡ Ok (show_file name)
        → (D.target dock.new ≡ D.target dock.old) × (D.held dock.new ≡ D.held dock.old) }

    // ---- check
    ensures check_statuses { (name : List ℕ) → command_in for_files words.now ≡ Ok (check_file name)
        → IsTrue (is_check_status result) }
    ensures checked { (name : List ℕ) → command_in for_files words.now ≡ Ok (check_file name)
        → IsTrue (is_checked result) → (chunks : List ChunkAt) × (end : FileEnd) × (result ≡ check_status (chunks, end))
        × IsFileOf D.Source.left D.Source.faults D.Source.mark (D.contents dock.old) name chunks end
        × Appends (D.printed dock.old) (D.printed dock.new) (printed_lines (check_lines (chunks, end))) }
    ensures check_not_xdf { (name : List ℕ) → command_in for_files words.now ≡ Ok (check_file name)
        → result ≡ 3 → IsOtherFile D.Source.left (D.contents dock.old) name × IsToldOther (D.contents dock.old) name
        × SaysFault (D.printed dock.old) (D.printed dock.new) (D.print_faults dock.old) (D.print_faults dock.new) (codes "fault 3") }
    ensures check_open_fault { (name : List ℕ) → command_in for_files words.now ≡ Ok (check_file name)
        → result ≡ 4 → ((FailsAt (D.asked dock.old) (D.asked dock.new) (input_order name) (D.open_faults dock.old) (D.open_faults dock.new)
        ⊎ HasReadFault D.Source.left D.Source.faults D.Source.mark D.input_mark (D.contents dock.old) (D.marks dock.old) (File name) 0)
        × SaysBehind (D.printed dock.old) (D.printed dock.new) (D.print_faults dock.old) (D.print_faults dock.new) [] (codes "fault 4"))
        ⊎ (HasReadFault D.Source.left D.Source.faults D.Source.mark D.input_mark (D.contents dock.old) (D.marks dock.old) (File name) 0
        × (chunks : List ChunkAt) × IsFileOf D.Source.left D.Source.faults D.Source.mark (D.contents dock.old) name chunks ReadFault
        × SaysBehind (D.printed dock.old) (D.printed dock.new) (D.print_faults dock.old) (D.print_faults dock.new) (check_lines (chunks, ReadFault)) (codes "fault 4")) }
    ensures check_size_limit { (name : List ℕ) → command_in for_files words.now ≡ Ok (check_file name)
        → result ≡ 7 → (chunks : List ChunkAt) × IsFileOf D.Source.left D.Source.faults D.Source.mark (D.contents dock.old) name chunks SizeLimit
        × SaysBehind (D.printed dock.old) (D.printed dock.new) (D.print_faults dock.old) (D.print_faults dock.new) (check_lines (chunks, SizeLimit)) (codes "fault 7") }
    ensures check_say_fault { (name : List ℕ) → command_in for_files words.now ≡ Ok (check_file name)
        → result ≡ 8 → Rose (D.print_faults dock.old) (D.print_faults dock.new)
        × (((lines : List (List ℕ)) × IsFileFrom AreFirstCheckLines D.Source.left (D.contents dock.old) name lines
        × AppendsFront (D.printed dock.old) (D.printed dock.new) (printed_lines lines))
        ⊎ ((chunks : List ChunkAt) × (end : FileEnd) × IsFileOf D.Source.left D.Source.faults D.Source.mark (D.contents dock.old) name chunks end
        × AppendsFront (D.printed dock.old) (D.printed dock.new) (printed_lines (check_lines (chunks, end))))) }
    ensures check_memory { (name : List ℕ) → command_in for_files words.now ≡ Ok (check_file name)
        → result ≡ 9 → SaysBehind (D.printed dock.old) (D.printed dock.new) (D.print_faults dock.old) (D.print_faults dock.new) [] (codes "fault 9")
        ⊎ ((lines : List (List ℕ)) × IsFileFrom AreFirstCheckLines D.Source.left (D.contents dock.old) name lines
        × SaysBehind (D.printed dock.old) (D.printed dock.new) (D.print_faults dock.old) (D.print_faults dock.new) lines (codes "fault 9"))
        ⊎ ((chunks : List ChunkAt) × (end : FileEnd) × IsFileOf D.Source.left D.Source.faults D.Source.mark (D.contents dock.old) name chunks end
        × SaysSomeBehind (D.printed dock.old) (D.printed dock.new) (D.print_faults dock.old) (D.print_faults dock.new) (check_lines (chunks, end)) (codes "fault 9")) }
    ensures check_writes_nothing { (name : List ℕ) → command_in for_files words.now ≡ Ok (check_file name)
        → (D.target dock.new ≡ D.target dock.old) × (D.held dock.new ≡ D.held dock.old) }

    // ---- repair
    ensures repair_statuses { (search : Bool) (from : List ℕ) (out : List ℕ) → command_in for_files words.now ≡ Ok (repair_file search from out)
        → IsTrue (is_repair_status result) }
    ensures repaired { (search : Bool) (from : List ℕ) (out : List ℕ) → command_in for_files words.now ≡ Ok (repair_file search from out)
        → IsTrue (is_repaired result) → (chunks : ℕ) × (bytes : ℕ) × (skipped : ℕ) × (result ≡ repaired_status skipped)
        × IsKept search D.Source.left (D.contents dock.old) from out (D.target dock.old) (D.target dock.new) (D.held dock.old) (D.held dock.new) chunks bytes skipped
        × Appends (D.printed dock.old) (D.printed dock.new) (printed_line (repaired_line chunks bytes skipped)) }
    ensures repair_not_xdf { (search : Bool) (from : List ℕ) (out : List ℕ) → command_in for_files words.now ≡ Ok (repair_file search from out)
        → result ≡ 3 → IsOtherFile D.Source.left (D.contents dock.old) from × IsToldOther (D.contents dock.old) from
        × (D.target dock.new ≡ D.target dock.old) × (D.held dock.new ≡ D.held dock.old)
        × SaysFault (D.printed dock.old) (D.printed dock.new) (D.print_faults dock.old) (D.print_faults dock.new) (codes "fault 3") }
    ensures repair_open_fault { (search : Bool) (from : List ℕ) (out : List ℕ) → command_in for_files words.now ≡ Ok (repair_file search from out)
        → result ≡ 4 → (((FailsAt (D.asked dock.old) (D.asked dock.new) (repair_order from out) (D.open_faults dock.old) (D.open_faults dock.new)
        ⊎ HasReadFault D.Source.left D.Source.faults D.Source.mark D.input_mark (D.contents dock.old) (D.marks dock.old) (File from) 0)
        × (D.target dock.new ≡ D.target dock.old) × (D.held dock.new ≡ D.held dock.old))
        ⊎ (HasReadFault D.Source.left D.Source.faults D.Source.mark D.input_mark (D.contents dock.old) (D.marks dock.old) (File from) 0
        × IsFailed search D.Source.left D.Source.faults D.Source.mark (D.contents dock.old) from out (D.target dock.old) (D.target dock.new) (D.held dock.old) (D.held dock.new)))
        × SaysFault (D.printed dock.old) (D.printed dock.new) (D.print_faults dock.old) (D.print_faults dock.new) (codes "fault 4") }
    ensures repair_write_fault { (search : Bool) (from : List ℕ) (out : List ℕ) → command_in for_files words.now ≡ Ok (repair_file search from out)
        → result ≡ 5 → ((created : D)
        × Becomes (D.target dock.old) (D.target created) out × (D.write_faults created ≡ D.write_faults dock.old) × Rose (D.write_faults created) (D.write_faults dock.new)
        × IsCut search D.Source.left (D.contents dock.old) from out (D.target dock.old) (D.target dock.new) (D.held dock.old) (D.held dock.new))
        × SaysFault (D.printed dock.old) (D.printed dock.new) (D.print_faults dock.old) (D.print_faults dock.new) (codes "fault 5") }
    ensures repair_size_limit { (search : Bool) (from : List ℕ) (out : List ℕ) → command_in for_files words.now ≡ Ok (repair_file search from out)
        → result ≡ 7
        → IsLong search D.Source.left (D.contents dock.old) from out (D.target dock.old) (D.target dock.new) (D.held dock.old) (D.held dock.new)
        × SaysFault (D.printed dock.old) (D.printed dock.new) (D.print_faults dock.old) (D.print_faults dock.new) (codes "fault 7") }
    ensures repair_say_fault { (search : Bool) (from : List ℕ) (out : List ℕ) → command_in for_files words.now ≡ Ok (repair_file search from out)
        → result ≡ 8 → Rose (D.print_faults dock.old) (D.print_faults dock.new) × (chunks : ℕ) × (bytes : ℕ) × (skipped : ℕ)
        × IsKept search D.Source.left (D.contents dock.old) from out (D.target dock.old) (D.target dock.new) (D.held dock.old) (D.held dock.new) chunks bytes skipped
        × AppendsFront (D.printed dock.old) (D.printed dock.new) (printed_line (repaired_line chunks bytes skipped)) }
    ensures repair_memory { (search : Bool) (from : List ℕ) (out : List ℕ) → command_in for_files words.now ≡ Ok (repair_file search from out)
        → result ≡ 9 → (((D.target dock.new ≡ D.target dock.old) × (D.held dock.new ≡ D.held dock.old))
        ⊎ IsCut search D.Source.left (D.contents dock.old) from out (D.target dock.old) (D.target dock.new) (D.held dock.old) (D.held dock.new))
        × SaysFault (D.printed dock.old) (D.printed dock.new) (D.print_faults dock.old) (D.print_faults dock.new) (codes "fault 9") }
    ensures search_goes_over_damage { (from : List ℕ) (out : List ℕ) → command_in for_files words.now ≡ Ok (repair_file true from out)
        → IsTrue (is_repaired result) → GoesOverDamage (D.contents dock.old) from out (D.target dock.old) (D.target dock.new) (D.held dock.old) (D.held dock.new) (D.printed dock.old) (D.printed dock.new) result }
    ensures repair_completes { (search : Bool) (from : List ℕ) (out : List ℕ) → command_in for_files words.now ≡ Ok (repair_file search from out)
        → CompletesRepair D.Source.left D.Source.faults D.Source.mark D.input_mark (D.contents dock.old) (D.marks dock.old) from (D.open_faults dock.old) (D.open_faults dock.new)
        (D.write_faults dock.old) (D.write_faults dock.new) (D.print_faults dock.old) (D.print_faults dock.new) result }

    // ---- drill
    ensures drill_statuses { (number : ℕ) → command_in for_files words.now ≡ Ok (drill number)
        → IsTrue (is_drill_status result) }
    ensures drilled { (number : ℕ) → command_in for_files words.now ≡ Ok (drill number)
        → result ≡ 0 → IsDrillSaid number (D.printed dock.old) (D.printed dock.new) }
    ensures drill_say_fault { (number : ℕ) → command_in for_files words.now ≡ Ok (drill number)
        → result ≡ 8 → Rose (D.print_faults dock.old) (D.print_faults dock.new) × IsDrillCut number (D.printed dock.old) (D.printed dock.new) }
    ensures drill_memory { (number : ℕ) → command_in for_files words.now ≡ Ok (drill number)
        → result ≡ 9 → SaysFault (D.printed dock.old) (D.printed dock.new) (D.print_faults dock.old) (D.print_faults dock.new) (codes "fault 9") }
    ensures drill_writes_nothing { (number : ℕ) → command_in for_files words.now ≡ Ok (drill number)
        → (D.target dock.new ≡ D.target dock.old) × (D.held dock.new ≡ D.held dock.old) }
{
    let command = match read_words(Top::File, words) {
        Ok(command) => command,
        Err(usage) => {
            say_fault(dock, usage_line(usage.why));
            return 2;
        }
    };
    match command {
        Command::Show(name) => show_status(alloc, name, dock),
        Command::Check(name) => check_status(alloc, name, dock),
        Command::Repair { search, from, to } => repair_status(alloc, search, from, to, dock),
        Command::Drill(number) => drill_status(alloc, number, dock),
        Command::Record { .. } => unreachable!(),
    }
}
