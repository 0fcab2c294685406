//! The top call.

ghost use Rattle.std.specs.Prelude.{◌≡◌, ◌≤◌, ◌⊎◌, ◌↔◌, ℕ, List, map, false, IfOk, IsErr, IsErrOf, IsTrue, Err};
ghost use Rattle.dock_calls.specs.Asking.{FailsAt, IsCaused};
ghost use Rattle.rec_base.specs.Asked.{AsksAll, AsksFront};
ghost use Rattle.rec_base.specs.declared.asked.Asked.{Asked};
ghost use Rattle.record_call.specs.Orders.{IsOrder, IsWholeOrder};
ghost use Rattle.rec_base.specs.Causes.{Blames, Rose};
ghost use Rattle.std.specs.List.{list_all};
ghost use Rattle.std.specs.Io.KnownBytes.{Appends};
ghost use Rattle.rec_base.specs.Known.{AppendsFront};
ghost use Rattle.chunk_grammar.specs.declared.chunk.Chunk.{Chunk as ChunkValue};
ghost use Rattle.plan_model.specs.declared.top.Top.TheVariants.{Record as top_record};
ghost use Rattle.plan_model.specs.Commands.{command_in};
ghost use Rattle.report_model.specs.Shown.{printed_lines};
ghost use Rattle.dock_calls.specs.Said.{SaysFault, is_usage};
ghost use Rattle.run_model.specs.Run.{Fed};
ghost use Rattle.record_call.specs.Completed.{CompletesRecord};
ghost use Rattle.record_call.specs.Ends.{is_complete, record_status};
ghost use Rattle.record_call.specs.Lines.{usage_text, plan_text, document_text, cost_text};
ghost use Rattle.record_call.specs.Plans.{IsRefused, HasFailedPlan};
ghost use Rattle.record_call.specs.Recorded.{IsFileOf, IsCreated, IsCutFile, IsTooMuch, HasNoDocument, HasTexts, HasUnreadDocument, lines_of};
ghost use Rattle.record_call.specs.Statuses.{is_all_asked, is_status, is_recorded, is_without_file, has_plain_line, plain_text};

use crate::end::are_complete;
use crate::fault::RecordFault;
use crate::file::write_file;
use crate::lines::{cost_line, document_line, make_lines, plan_line};
use crate::say::say_lines;
use dock_calls::{say_fault, usage_line};
use rec_base::{Dock, Failed, Lines, Sink, Source, Word};
use std::alloc::Global;
use std::rt::Clock;
use std::sync::Wait;
use std::thread::Threads;

// Records, says the lines, and answers whether all feeds came to their end, or to the number of
// samples that was asked for.
fn record<D: Dock, R: Threads + Wait + Clock + Sync>(
    rt: &R,
    alloc: Global,
    words: &[Word],
    dock: &mut D,
) -> Result<bool, RecordFault>
    ensures recorded { IfOk result (λ complete. (fed : List (Fed D.Source)) × (chunks : List ChunkValue)
        × IsFileOf D.Source.left D.Source.faults D.Source.mark (D.contents dock.old) words.now (D.target dock.old) (D.target dock.new) (D.held dock.old) (D.held dock.new) fed chunks
        × (complete ≡ list_all is_complete (map (λ x. x.end) fed))
        × Appends (D.printed dock.old) (D.printed dock.new) (printed_lines (lines_of fed chunks))) }
    ensures usage { (why : ℕ) → IsErrOf result (RecordFault.Usage why) → command_in top_record words.now ≡ Err why }
    ensures known { (why : ℕ) → IsErrOf result (RecordFault.Usage why) → IsTrue (is_usage why) }
    ensures used { IsErr (command_in top_record words.now) → (why : ℕ) × IsErrOf result (RecordFault.Usage why) }
    ensures refused { (line why : ℕ) → IsErrOf result (RecordFault.Plan line why) → IsRefused (D.contents dock.old) words.now line why }
    ensures none { (id : ℕ) → IsErrOf result (RecordFault.Document id) → HasNoDocument (D.contents dock.old) words.now id }
    ensures cost { (cost : ℕ) → IsErrOf result (RecordFault.Cost cost) → IsTooMuch (D.contents dock.old) words.now cost }
    ensures failed { IsErrOf result RecordFault.Open → ((order : List Asked) × IsOrder (D.contents dock.old) words.now order × FailsAt (D.asked dock.old) (D.asked dock.new) order (D.open_faults dock.old) (D.open_faults dock.new))
        ⊎ HasFailedPlan D.Source.left D.Source.faults D.Source.mark D.input_mark (D.contents dock.old) (D.marks dock.old) words.now
        ⊎ HasUnreadDocument D.Source.left D.Source.faults D.Source.mark D.input_mark (D.contents dock.old) (D.marks dock.old) words.now }
    ensures not_written { IsErrOf result RecordFault.Write → (c : IsCutFile (D.contents dock.old) words.now (D.target dock.old) (D.target dock.new) (D.held dock.old) (D.held dock.new))
        × (created : D) × IsCreated (D.target dock.old) (D.target created) (D.held dock.old) (D.held created) c.out
        × Rose (D.write_faults created) (D.write_faults dock.new) }
    ensures not_said { IsErrOf result RecordFault.Say → Rose (D.print_faults dock.old) (D.print_faults dock.new)
        × (fed : List (Fed D.Source)) × (chunks : List ChunkValue)
        × IsFileOf D.Source.left D.Source.faults D.Source.mark (D.contents dock.old) words.now (D.target dock.old) (D.target dock.new) (D.held dock.old) (D.held dock.new) fed chunks
        × AppendsFront (D.printed dock.old) (D.printed dock.new) (printed_lines (lines_of fed chunks)) }
    ensures memory { IsErrOf result RecordFault.Memory → ((D.target dock.new ≡ D.target dock.old) × (D.held dock.new ≡ D.held dock.old))
        ⊎ IsCutFile (D.contents dock.old) words.now (D.target dock.old) (D.target dock.new) (D.held dock.old) (D.held dock.new) }
    ensures numbers { IsErrOf result RecordFault.Memory → ((D.target dock.new ≡ D.target dock.old) × (D.held dock.new ≡ D.held dock.old))
        ⊎ HasTexts (D.contents dock.old) words.now
        ⊎ ((fed : List (Fed D.Source)) × (chunks : List ChunkValue)
        × IsFileOf D.Source.left D.Source.faults D.Source.mark (D.contents dock.old) words.now (D.target dock.old) (D.target dock.new) (D.held dock.old) (D.held dock.new) fed chunks) }
    ensures asks { (order : List Asked) × IsOrder (D.contents dock.old) words.now order × AsksFront (D.asked dock.old) (D.asked dock.new) order }
    ensures asks_all { (IsErr result → IsErrOf result RecordFault.Write ⊎ IsErrOf result RecordFault.Say) → (order : List Asked) × IsWholeOrder (D.contents dock.old) words.now order × AsksAll (D.asked dock.old) (D.asked dock.new) order }
    ensures quiet { (IsErrOf result RecordFault.Open → ⊥) → D.open_faults dock.new ≡ D.open_faults dock.old }
    ensures writes { Blames (IsErrOf result RecordFault.Write) (D.write_faults dock.old) (D.write_faults dock.new) }
    ensures says { Blames (IsErrOf result RecordFault.Say) (D.print_faults dock.old) (D.print_faults dock.new) }
    ensures no_file { IsErr result → IsErrOf result RecordFault.Write ⊎ IsErrOf result RecordFault.Memory ⊎ IsErrOf result RecordFault.Say
        ⊎ ((D.target dock.new ≡ D.target dock.old) × (D.held dock.new ≡ D.held dock.old)) }
    ensures none_said { IsErr result → IsErrOf result RecordFault.Say
        ⊎ ((D.printed dock.new ≡ D.printed dock.old) × (D.print_faults dock.new ≡ D.print_faults dock.old)) }
{
    let written = write_file(rt, alloc, words, dock)?;
    let lines = make_lines(alloc, &written)?;
    match say_lines(dock, &lines) {
        Ok(()) => Ok(are_complete(&written.reports)),
        Err(Failed) => Err(RecordFault::Say),
    }
}

/// Records the feeds of a plan into a new file, says what became of each, and answers the status of
/// the program.
///
/// The words are `record PLAN OUT`. The plan is a text of this project's own form; it names for each
/// feed a header document, and a captured feed or an outlet, and the output is the XDF 1.0 file to
/// write. An outlet is opened as a peer that is sent the request for the stream with the plan's uid, of
/// the shape that the document tells; its reply must tell that uid, if it tells one. The first refusal
/// decides, in this order: the words; opening and reading the plan; the plan; for each feed in order its header document, opened, read, and its shape found; what the
/// rings cost; opening the feeds in order; the memory of the run; creating the output; the run; the
/// lines. An input is the text at its place among the inputs of its name, in the order in which they
/// are opened.
///
/// The statuses are this project's own:
///
/// - 0: the file was written, all lines were said, and each feed came to its end, or to its limit.
/// - 1: the same, but some feed ended otherwise; its line says how, and where. A read of a feed that
///   fails is such an end.
/// - 2: the words aren't such a command. `fault 2 usage N`.
/// - 3: the plan is refused: `fault 3 line N why N` with the first line that is, and the reason.
/// - 4: an input can't be opened, the plan or a header document can't be read, or the output can't be
///   created. `fault 4`.
/// - 5: the output can't be written. What is in it is part of a recording: the beginning of its magic,
///   or whole chunks and at most a torn one behind them, which hold the first samples of each feed
///   without those that their ledger names. By threads each inlet stops before its next sample.
///   `fault 5`.
/// - 6: a header document tells no shape, or has more than 1,048,576 bytes: `fault 6 feed ID` with the
///   first feed whose document is such.
/// - 7: the rings cost more than 1,073,741,824 bytes: `fault 7 asked N`.
/// - 8: the file was written, and its lines can't be said.
/// - 9: there is no memory, also for a fault's line. `fault 9`. The output is then as it was, or has
///   part of a recording, as with 5; where no feed has texts it is as it was, or whole.
///
/// With 2, 3, 4, 6 and 7 the output is as it was. A fault's line that can't be said changes no
/// status.
pub fn record_main<D: Dock, R: Threads + Wait + Clock + Sync>(
    rt: &R,
    alloc: Global,
    words: &[Word],
    dock: &mut D,
) -> u8
    ensures statuses { IsTrue (is_status result) }

    // What was asked for is a front of the order above, as far as what was read tells it; and which counts rose.
    ensures caused { (order : List Asked) × IsOrder (D.contents dock.old) words.now order
        × IsCaused false (is_recorded result) order (D.asked dock.old) (D.asked dock.new) (D.open_faults dock.old) (D.open_faults dock.new)
        (D.write_faults dock.old) (D.write_faults dock.new) (D.print_faults dock.old) (D.print_faults dock.new) result }
    ensures all_asked { IsTrue (is_all_asked result) → (order : List Asked) × IsWholeOrder (D.contents dock.old) words.now order × AsksAll (D.asked dock.old) (D.asked dock.new) order }

    // The file is exactly the feeds' samples without those that its ledger names, as many as the rings counted. How the feeds ended decides
    // between 0 and 1.
    ensures recorded { IsTrue (is_recorded result) → (fed : List (Fed D.Source)) × (chunks : List ChunkValue)
        × IsFileOf D.Source.left D.Source.faults D.Source.mark (D.contents dock.old) words.now (D.target dock.old) (D.target dock.new) (D.held dock.old) (D.held dock.new) fed chunks
        × (result ≡ record_status (map (λ x. x.end) fed))
        × Appends (D.printed dock.old) (D.printed dock.new) (printed_lines (lines_of fed chunks)) }

    ensures used { IsErr (command_in top_record words.now) → result ≡ 2 }
    ensures usage { result ≡ 2 → (why : ℕ) × (command_in top_record words.now ≡ Err why)
        × SaysFault (D.printed dock.old) (D.printed dock.new) (D.print_faults dock.old) (D.print_faults dock.new) (usage_text why) }

    ensures refused { result ≡ 3 → (line : ℕ) × (why : ℕ) × IsRefused (D.contents dock.old) words.now line why
        × SaysFault (D.printed dock.old) (D.printed dock.new) (D.print_faults dock.old) (D.print_faults dock.new) (plan_text line why) }

    // an opening or the creation failed, or a read of the plan or of a header document
    ensures open_fault { result ≡ 4 → ((order : List Asked) × IsOrder (D.contents dock.old) words.now order × FailsAt (D.asked dock.old) (D.asked dock.new) order (D.open_faults dock.old) (D.open_faults dock.new))
        ⊎ HasFailedPlan D.Source.left D.Source.faults D.Source.mark D.input_mark (D.contents dock.old) (D.marks dock.old) words.now
        ⊎ HasUnreadDocument D.Source.left D.Source.faults D.Source.mark D.input_mark (D.contents dock.old) (D.marks dock.old) words.now }

    // a write failed after the output was created, and what a recording of the feeds holds that was stopped somewhere is in it
    ensures write_fault { result ≡ 5 → (c : IsCutFile (D.contents dock.old) words.now (D.target dock.old) (D.target dock.new) (D.held dock.old) (D.held dock.new))
        × (created : D) × IsCreated (D.target dock.old) (D.target created) (D.held dock.old) (D.held created) c.out
        × Rose (D.write_faults created) (D.write_faults dock.new) }

    ensures no_document { result ≡ 6 → (id : ℕ) × HasNoDocument (D.contents dock.old) words.now id
        × SaysFault (D.printed dock.old) (D.printed dock.new) (D.print_faults dock.old) (D.print_faults dock.new) (document_text id) }

    ensures cost { result ≡ 7 → (asked : ℕ) × IsTooMuch (D.contents dock.old) words.now asked
        × SaysFault (D.printed dock.old) (D.printed dock.new) (D.print_faults dock.old) (D.print_faults dock.new) (cost_text asked) }

    // the whole file was written, and a front of its lines was said
    ensures say_fault { result ≡ 8 → Rose (D.print_faults dock.old) (D.print_faults dock.new)
        × (fed : List (Fed D.Source)) × (chunks : List ChunkValue)
        × IsFileOf D.Source.left D.Source.faults D.Source.mark (D.contents dock.old) words.now (D.target dock.old) (D.target dock.new) (D.held dock.old) (D.held dock.new) fed chunks
        × AppendsFront (D.printed dock.old) (D.printed dock.new) (printed_lines (lines_of fed chunks)) }

    // no output was created, or such a part is in it, which may be all of it
    ensures memory { result ≡ 9 → ((D.target dock.new ≡ D.target dock.old) × (D.held dock.new ≡ D.held dock.old))
        ⊎ IsCutFile (D.contents dock.old) words.now (D.target dock.old) (D.target dock.new) (D.held dock.old) (D.held dock.new) }

    // with numbers alone no output was created, or the whole file was written, of whose lines none was said
    ensures numbers { result ≡ 9 → ((D.target dock.new ≡ D.target dock.old) × (D.held dock.new ≡ D.held dock.old))
        ⊎ HasTexts (D.contents dock.old) words.now
        ⊎ ((fed : List (Fed D.Source)) × (chunks : List ChunkValue)
        × IsFileOf D.Source.left D.Source.faults D.Source.mark (D.contents dock.old) words.now (D.target dock.old) (D.target dock.new) (D.held dock.old) (D.held dock.new) fed chunks) }

    // where the plan and its documents are good, and nothing of the outside failed, the recording is done, or there was no memory
    ensures completes { CompletesRecord D.Source.left D.Source.faults D.Source.mark D.input_mark (D.contents dock.old) (D.marks dock.old) words.now (D.open_faults dock.old) (D.open_faults dock.new)
        (D.write_faults dock.old) (D.write_faults dock.new) (D.print_faults dock.old) (D.print_faults dock.new) result }

    ensures no_file { IsTrue (is_without_file result) → (D.target dock.new ≡ D.target dock.old) × (D.held dock.new ≡ D.held dock.old) }

    // the line of a fault that has no number, in full unless a line failed
    ensures fault_line { IsTrue (has_plain_line result) →
        SaysFault (D.printed dock.old) (D.printed dock.new) (D.print_faults dock.old) (D.print_faults dock.new) (plain_text result) }
{
    match record(rt, alloc, words, dock) {
        Ok(true) => 0,
        Ok(false) => 1,
        Err(RecordFault::Usage(why)) => {
            say_fault(dock, usage_line(why));
            2
        }
        Err(RecordFault::Plan { line, why }) => match plan_line(alloc, line, why) {
            Ok(text) => {
                say_fault(dock, text.as_str());
                3
            }
            Err(_) => {
                say_fault(dock, "fault 9");
                9
            }
        },
        Err(RecordFault::Open) => {
            say_fault(dock, "fault 4");
            4
        }
        Err(RecordFault::Write) => {
            say_fault(dock, "fault 5");
            5
        }
        Err(RecordFault::Document(id)) => match document_line(alloc, id) {
            Ok(text) => {
                say_fault(dock, text.as_str());
                6
            }
            Err(_) => {
                say_fault(dock, "fault 9");
                9
            }
        },
        Err(RecordFault::Cost(cost)) => match cost_line(alloc, cost) {
            Ok(text) => {
                say_fault(dock, text.as_str());
                7
            }
            Err(_) => {
                say_fault(dock, "fault 9");
                9
            }
        },
        Err(RecordFault::Say) => 8,
        Err(RecordFault::Memory) => {
            say_fault(dock, "fault 9");
            9
        }
    }
}
