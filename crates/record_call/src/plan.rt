//! The plan of a recording.

ghost use Rattle.std.specs.Prelude.{◌≡◌, ◌≤◌, ◌⊎◌, List, ℕ, [], IfOk, IsErr, IsErrOf, Ok, Err, Some, OnOk, ◌∷◌};
ghost use Rattle.dock_calls.specs.Asking.{FailsAt, HasReadFault};
ghost use Rattle.rec_base.specs.Asked.{AsksAll, AsksFront};
ghost use Rattle.record_call.specs.Orders.{plan_order};
ghost use Rattle.record_call.specs.Feeds.{AreMarksLeft};
ghost use Rattle.rec_base.specs.Contents.{Opens, IsInput};
ghost use Rattle.rec_base.specs.declared.name.Name.{Name as NameValue};
ghost use Rattle.plan_model.specs.Plan.{plan_in};
ghost use Rattle.plan_model.specs.Sound.{IsPlan};

use crate::fault::RecordFault;
use dock_calls::{InputFault, read_input};
use plan_words::{Plan, PlanError, read_plan};
use rec_base::{Dock, Lines, Sink, Source, Word};
use std::alloc::Global;

// The most bytes of a plan.
const PLAN_LIMIT: u64 = 1_048_576;

// The number of the reason why a plan is refused that has more.
const TOO_LONG: u8 = 10;

// The plan of a text.
fn plan_of(alloc: Global, text: &[u8], out: &Word) -> Result<Plan, RecordFault>
    ensures plan { IfOk result (λ plan. plan_in text.now out.now ≡ Ok plan) }
    ensures sound { IfOk result (λ plan. IsPlan out.now plan) }
    ensures refused { (line why : ℕ) → IsErrOf result (RecordFault.Plan line why) → plan_in text.now out.now ≡ Err (line, why) }
    ensures none_else { IsErr result → IsErrOf result RecordFault.Memory ⊎ ((line : ℕ) × (why : ℕ) × IsErrOf result (RecordFault.Plan line why)) }
{
    match read_plan(alloc, text, out) {
        Ok(plan) => Ok(plan),
        Err(PlanError::Fault { line, why }) => Err(RecordFault::Plan { line, why }),
        Err(PlanError::Memory) => Err(RecordFault::Memory),
    }
}

/// Opens and reads the plan at this path. A text that is too long is refused like any other.
pub(crate) fn open_plan<D: Dock>(
    alloc: Global,
    dock: &mut D,
    path: &Word,
    out: &Word,
) -> Result<Plan, RecordFault>
    ensures plan { IfOk result (λ plan. (text : List ℕ) × Opens (D.contents dock.old) (D.contents dock.new) (NameValue.File path.now) (Some text) × (plan_in text out.now ≡ Ok plan)) }
    ensures sound { IfOk result (λ plan. IsPlan out.now plan) }
    ensures refused { (line why : ℕ) → IsErrOf result (RecordFault.Plan line why) → (text : List ℕ) × IsInput (D.contents dock.old) (NameValue.File path.now) 0 text
        × (plan_in text out.now ≡ Err (line, why)) }
    ensures failed { IsErrOf result RecordFault.Open → FailsAt (D.asked dock.old) (D.asked dock.new) (plan_order path.now) (D.open_faults dock.old) (D.open_faults dock.new)
        ⊎ HasReadFault D.Source.left D.Source.faults D.Source.mark D.input_mark (D.contents dock.old) (D.marks dock.old) (NameValue.File path.now) 0 }
    ensures none_else { IsErr result → IsErrOf result RecordFault.Open ⊎ IsErrOf result RecordFault.Memory ⊎ ((line : ℕ) × (why : ℕ) × IsErrOf result (RecordFault.Plan line why)) }
    ensures marks { OnOk result (AreMarksLeft (D.marks dock.old) (D.marks dock.new) (NameValue.File path.now ∷ [])) }
    ensures asks { AsksFront (D.asked dock.old) (D.asked dock.new) (plan_order path.now) }
    ensures asks_all { OnOk result (AsksAll (D.asked dock.old) (D.asked dock.new) (plan_order path.now)) }
    ensures quiet { (IsErrOf result RecordFault.Open → ⊥) → D.open_faults dock.new ≡ D.open_faults dock.old }
    ensures write_faults { D.write_faults dock.new ≡ D.write_faults dock.old }
    ensures target { D.target dock.new ≡ D.target dock.old }
    ensures held { D.held dock.new ≡ D.held dock.old }
    ensures printed { D.printed dock.new ≡ D.printed dock.old }
    ensures print_faults { D.print_faults dock.new ≡ D.print_faults dock.old }
{
    match read_input(alloc, dock, path, PLAN_LIMIT) {
        Ok(text) => plan_of(alloc, text.bytes(), out),
        Err(InputFault::TooLong) => Err(RecordFault::Plan {
            line: 0,
            why: TOO_LONG,
        }),
        Err(InputFault::Open) => Err(RecordFault::Open),
        Err(InputFault::Memory) => Err(RecordFault::Memory),
    }
}
