//! What the words ask for: the plan with the header documents of its feeds.

ghost use Rattle.std.specs.Prelude.{◌≡◌, ◌≤◌, ◌⊎◌, ◌∷◌, [], ℕ, List, IfOk, IsErr, IsErrOf, Ok};
ghost use Rattle.dock_calls.specs.Asking.{FailsAt};
ghost use Rattle.rec_base.specs.Asked.{AsksAll, AsksFront};
ghost use Rattle.rec_base.specs.declared.asked.Asked.{Asked};
ghost use Rattle.record_call.specs.Orders.{document_order, IsOrder};
ghost use Rattle.rec_base.specs.declared.name.Name.{Name as NameValue};
ghost use Rattle.dock_calls.specs.Places.{IsAfter};
ghost use Rattle.plan_model.specs.declared.top.Top.TheVariants.{Record as top_record};
ghost use Rattle.plan_model.specs.Commands.{command_in, record_plan};
ghost use Rattle.plan_model.specs.Sound.{IsPlan};
ghost use Rattle.record_call.specs.Feeds.{document_name, names_of};
ghost use Rattle.record_call.specs.Plans.{IsRefused, HasFailedPlan};
ghost use Rattle.record_call.specs.Recorded.{IsAsked, IsTooMuch, HasNoDocument, HasUnreadDocument};

use crate::cost::check_cost;
use crate::document::open_streams;
use crate::fault::RecordFault;
use crate::plan::open_plan;
use plan_words::Plan;
use rec_base::{Dock, Lines, Sink, Source, Word};
use record_run::StreamDoc;
use std::alloc::Global;

/// A plan, and the streams of its feeds.
#[derive(Debug, Drop)]
pub(crate) struct Wanted {
    pub(crate) plan: Plan,
    pub(crate) streams: Vec<StreamDoc>,
}

/// Opens and reads the plan and the header documents, and looks what the rings cost. Nothing is
/// created, written or said.
pub(crate) fn read_asked<D: Dock>(
    alloc: Global,
    words: &[Word],
    dock: &mut D,
    path: &Word,
    out: &Word,
) -> Result<Wanted, RecordFault>
    requires command { command_in top_record words.now ≡ Ok (record_plan path.now out.now) }
    ensures asked { IfOk result (λ asked. (a : IsAsked (D.contents dock.old) words.now out.now asked.plan asked.streams.items) × (a.has.path ≡ path.now)) }
    ensures after { IfOk result (λ asked. IsAfter (D.contents dock.old) (D.contents dock.new) (NameValue.File path.now ∷ names_of document_name asked.plan.feeds)) }
    ensures sound { IfOk result (λ asked. IsPlan out.now asked.plan) }
    ensures refused { (line why : ℕ) → IsErrOf result (RecordFault.Plan line why) → IsRefused (D.contents dock.old) words.now line why }
    ensures none { (id : ℕ) → IsErrOf result (RecordFault.Document id) → HasNoDocument (D.contents dock.old) words.now id }
    ensures cost { (cost : ℕ) → IsErrOf result (RecordFault.Cost cost) → IsTooMuch (D.contents dock.old) words.now cost }
    ensures failed { IsErrOf result RecordFault.Open → ((order : List Asked) × IsOrder (D.contents dock.old) words.now order × FailsAt (D.asked dock.old) (D.asked dock.new) order (D.open_faults dock.old) (D.open_faults dock.new))
        ⊎ HasFailedPlan D.Source.left D.Source.faults D.Source.mark D.input_mark (D.contents dock.old) (D.marks dock.old) words.now
        ⊎ HasUnreadDocument D.Source.left D.Source.faults D.Source.mark D.input_mark (D.contents dock.old) (D.marks dock.old) words.now }
    ensures none_else { IsErr result → IsErrOf result RecordFault.Open ⊎ IsErrOf result RecordFault.Memory
        ⊎ ((line : ℕ) × (why : ℕ) × IsErrOf result (RecordFault.Plan line why)) ⊎ ((id : ℕ) × IsErrOf result (RecordFault.Document id))
        ⊎ ((cost : ℕ) × IsErrOf result (RecordFault.Cost cost)) }
    ensures asks { (order : List Asked) × IsOrder (D.contents dock.old) words.now order × AsksFront (D.asked dock.old) (D.asked dock.new) order }
    ensures asks_all { IfOk result (λ asked. AsksAll (D.asked dock.old) (D.asked dock.new) (document_order path.now asked.plan)) }
    ensures quiet { (IsErrOf result RecordFault.Open → ⊥) → D.open_faults dock.new ≡ D.open_faults dock.old }
    ensures write_faults { D.write_faults dock.new ≡ D.write_faults dock.old }
    ensures target { D.target dock.new ≡ D.target dock.old }
    ensures held { D.held dock.new ≡ D.held dock.old }
    ensures printed { D.printed dock.new ≡ D.printed dock.old }
    ensures print_faults { D.print_faults dock.new ≡ D.print_faults dock.old }
{
    let plan = open_plan(alloc, dock, path, out)?;
    let streams = open_streams(alloc, dock, &plan.feeds)?;
    check_cost(alloc, plan.ring, &streams)?;
    Ok(Wanted { plan, streams })
}
