//! The file of a recording, from the words to its last byte.

ghost use Rattle.std.specs.Prelude.{◌≡◌, List, ◌≤◌, ◌⊎◌, ℕ, IfOk, IsErr, IsErrOf, IsTrue, Err};
ghost use Rattle.dock_calls.specs.Asking.{FailsAt};
ghost use Rattle.rec_base.specs.Asked.{AsksAll, AsksFront};
ghost use Rattle.rec_base.specs.declared.asked.Asked.{Asked};
ghost use Rattle.record_call.specs.Orders.{IsOrder, IsWholeOrder};
ghost use Rattle.rec_base.specs.Causes.{Blames, Rose};
ghost use Rattle.plan_model.specs.declared.top.Top.TheVariants.{Record as top_record};
ghost use Rattle.plan_model.specs.Commands.{command_in};
ghost use Rattle.dock_calls.specs.Said.{is_usage};
ghost use Rattle.record_call.specs.Plans.{IsRefused, HasFailedPlan};
ghost use Rattle.record_call.specs.Recorded.{IsFileWritten, IsCreated, IsCutFile, IsTooMuch, HasNoDocument, HasTexts, HasUnreadDocument};

use crate::fault::RecordFault;
use crate::ready::{Ready, make_ready};
use crate::run::{Written, record_feeds};
use rec_base::{Dock, Lines, Sink, Source, Word};
use std::alloc::Global;
use std::rt::Clock;
use std::sync::Wait;
use std::thread::Threads;

/// Records what the words ask for. Nothing is said.
pub(crate) fn write_file<D: Dock, R: Threads + Wait + Clock + Sync>(
    rt: &R,
    alloc: Global,
    words: &[Word],
    dock: &mut D,
) -> Result<Written, RecordFault>
    ensures written { IfOk result (λ w. IsFileWritten D.Source.left D.Source.faults D.Source.mark (D.contents dock.old) words.now
        (D.target dock.old) (D.target dock.new) (D.held dock.old) (D.held dock.new) w.reports w.bytes w.chunks) }
    ensures usage { (why : ℕ) → IsErrOf result (RecordFault.Usage why) → command_in top_record words.now ≡ Err why }
    ensures known { (why : ℕ) → IsErrOf result (RecordFault.Usage why) → IsTrue (is_usage why) }
    ensures used { IsErr (command_in top_record words.now) → (why : ℕ) × IsErrOf result (RecordFault.Usage why) }
    ensures refused { (line why : ℕ) → IsErrOf result (RecordFault.Plan line why) → IsRefused (D.contents dock.old) words.now line why }
    ensures none { (id : ℕ) → IsErrOf result (RecordFault.Document id) → HasNoDocument (D.contents dock.old) words.now id }
    ensures cost { (cost : ℕ) → IsErrOf result (RecordFault.Cost cost) → IsTooMuch (D.contents dock.old) words.now cost }
    ensures failed { IsErrOf result RecordFault.Open → ((order : List Asked) × IsOrder (D.contents dock.old) words.now order × FailsAt (D.asked dock.old) (D.asked dock.new) order (D.open_faults dock.old) (D.open_faults dock.new))
        ⊎ HasFailedPlan D.Source.left D.Source.faults D.Source.mark D.input_mark (D.contents dock.old) (D.marks dock.old) words.now
        ⊎ HasUnreadDocument D.Source.left D.Source.faults D.Source.mark D.input_mark (D.contents dock.old) (D.marks dock.old) words.now }
    ensures not_written { IsErrOf result RecordFault.Write → (c : IsCutFile (D.contents dock.old) words.now (D.target dock.old) (D.target dock.new) (D.held dock.old) (D.held dock.new))
        × (created : D) × IsCreated (D.target dock.old) (D.target created) (D.held dock.old) (D.held created) c.out
        × Rose (D.write_faults created) (D.write_faults dock.new) }
    ensures memory { IsErrOf result RecordFault.Memory → ((D.target dock.new ≡ D.target dock.old) × (D.held dock.new ≡ D.held dock.old))
        ⊎ IsCutFile (D.contents dock.old) words.now (D.target dock.old) (D.target dock.new) (D.held dock.old) (D.held dock.new) }
    ensures numbers { IsErrOf result RecordFault.Memory → ((D.target dock.new ≡ D.target dock.old) × (D.held dock.new ≡ D.held dock.old))
        ⊎ HasTexts (D.contents dock.old) words.now }
    ensures no_file { IsErr result → IsErrOf result RecordFault.Write ⊎ IsErrOf result RecordFault.Memory
        ⊎ ((D.target dock.new ≡ D.target dock.old) × (D.held dock.new ≡ D.held dock.old)) }
    ensures asks { (order : List Asked) × IsOrder (D.contents dock.old) words.now order × AsksFront (D.asked dock.old) (D.asked dock.new) order }
    ensures asks_all { (IsErr result → IsErrOf result RecordFault.Write) → (order : List Asked) × IsWholeOrder (D.contents dock.old) words.now order × AsksAll (D.asked dock.old) (D.asked dock.new) order }
    ensures quiet { (IsErrOf result RecordFault.Open → ⊥) → D.open_faults dock.new ≡ D.open_faults dock.old }
    ensures writes { Blames (IsErrOf result RecordFault.Write) (D.write_faults dock.old) (D.write_faults dock.new) }
    ensures no_say { IsErrOf result RecordFault.Say → ⊥ }
    ensures printed { D.printed dock.new ≡ D.printed dock.old }
    ensures print_faults { D.print_faults dock.new ≡ D.print_faults dock.old }
{
    let Ready {
        out,
        settings,
        streams,
        feeds,
    } = make_ready(alloc, words, dock)?;
    record_feeds(rt, alloc, dock, out, settings, streams, feeds)
}
