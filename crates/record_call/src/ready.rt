//! A recording that is ready to be run: all its inputs are open.

ghost use Rattle.std.specs.Prelude.{◌≡◌, List, ◌≤◌, ◌⊎◌, ℕ, IfOk, IsErr, IsErrOf, Err, IsTrue};
ghost use Rattle.dock_calls.specs.Asking.{FailsAt};
ghost use Rattle.rec_base.specs.Asked.{AsksAll, AsksFront};
ghost use Rattle.rec_base.specs.declared.asked.Asked.{Asked};
ghost use Rattle.record_call.specs.Orders.{IsOrder, IsInputOrder};
ghost use Rattle.plan_model.specs.declared.top.Top.TheVariants.{Record as top_record};
ghost use Rattle.plan_model.specs.Commands.{command_in};
ghost use Rattle.dock_calls.specs.Said.{is_usage};
ghost use Rattle.record_call.specs.Plans.{IsRefused, HasFailedPlan};
ghost use Rattle.record_call.specs.Recorded.{IsReady, IsTooMuch, HasNoDocument, HasUnreadDocument};

use crate::ask::{Wanted, read_asked};
use crate::fault::RecordFault;
use crate::feed::open_feeds;
use crate::run::Settings;
use crate::words::read_names;
use rec_base::{Dock, Lines, Sink, Source, Word};
use record_run::{FeedSource, StreamDoc};
use std::alloc::Global;

/// What the words ask for: where to, how, which streams, and the sources of the feeds.
#[derive(Drop)]
pub(crate) struct Ready<'w, S> {
    pub(crate) out: &'w Word,
    pub(crate) settings: Settings,
    pub(crate) streams: Vec<StreamDoc>,
    pub(crate) feeds: Vec<FeedSource<S>>,
}

/// Reads the words, the plan and the header documents, and opens the feeds. Nothing is created,
/// written or said.
pub(crate) fn make_ready<'w, D: Dock>(
    alloc: Global,
    words: &'w [Word],
    dock: &mut D,
) -> Result<Ready<'w, D::Source>, RecordFault>
    ensures ready { IfOk result (λ r. IsReady D.Source.left (D.contents dock.old) words.now r.out.now r.settings.mode r.settings.ring r.settings.batch r.streams.items r.feeds.items) }
    ensures usage { (why : ℕ) → IsErrOf result (RecordFault.Usage why) → command_in top_record words.now ≡ Err why }
    ensures known { (why : ℕ) → IsErrOf result (RecordFault.Usage why) → IsTrue (is_usage why) }
    ensures used { IsErr (command_in top_record words.now) → (why : ℕ) × IsErrOf result (RecordFault.Usage why) }
    ensures refused { (line why : ℕ) → IsErrOf result (RecordFault.Plan line why) → IsRefused (D.contents dock.old) words.now line why }
    ensures none { (id : ℕ) → IsErrOf result (RecordFault.Document id) → HasNoDocument (D.contents dock.old) words.now id }
    ensures cost { (cost : ℕ) → IsErrOf result (RecordFault.Cost cost) → IsTooMuch (D.contents dock.old) words.now cost }
    ensures failed { IsErrOf result RecordFault.Open → ((order : List Asked) × IsOrder (D.contents dock.old) words.now order × FailsAt (D.asked dock.old) (D.asked dock.new) order (D.open_faults dock.old) (D.open_faults dock.new))
        ⊎ HasFailedPlan D.Source.left D.Source.faults D.Source.mark D.input_mark (D.contents dock.old) (D.marks dock.old) words.now
        ⊎ HasUnreadDocument D.Source.left D.Source.faults D.Source.mark D.input_mark (D.contents dock.old) (D.marks dock.old) words.now }
    ensures no_write { IsErrOf result RecordFault.Write → ⊥ }
    ensures no_say { IsErrOf result RecordFault.Say → ⊥ }
    ensures asks { (order : List Asked) × IsOrder (D.contents dock.old) words.now order × AsksFront (D.asked dock.old) (D.asked dock.new) order }
    ensures asks_all { IfOk result (λ r. (inputs : List Asked) × IsInputOrder (D.contents dock.old) words.now r.out.now inputs × AsksAll (D.asked dock.old) (D.asked dock.new) inputs) }
    ensures quiet { (IsErrOf result RecordFault.Open → ⊥) → D.open_faults dock.new ≡ D.open_faults dock.old }
    ensures write_faults { D.write_faults dock.new ≡ D.write_faults dock.old }
    ensures target { D.target dock.new ≡ D.target dock.old }
    ensures held { D.held dock.new ≡ D.held dock.old }
    ensures printed { D.printed dock.new ≡ D.printed dock.old }
    ensures print_faults { D.print_faults dock.new ≡ D.print_faults dock.old }
{
    let (path, out) = match read_names(words) {
        Ok(names) => names,
        Err(usage) => return Err(RecordFault::Usage(usage.why)),
    };
    let Wanted { plan, streams } = read_asked(alloc, words, dock, path, out)?;
    let feeds = open_feeds(alloc, dock, &plan.feeds, &streams)?;
    let settings = Settings {
        mode: plan.mode,
        ring: plan.ring,
        batch: plan.batch,
    };
    Ok(Ready {
        out,
        settings,
        streams,
        feeds,
    })
}
