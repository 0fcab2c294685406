//! The plan of a text.

ghost use Rattle.std.specs.Prelude.{◌≡◌, ◌≤◌, [], length, IfOk, Ok, Err};
ghost use Rattle.plan_model.specs.Text.{said_lines};
ghost use Rattle.plan_model.specs.Plan.{why_number, text_limit, plan_in};
ghost use Rattle.plan_model.specs.Sound.{IsPlan};
ghost use Rattle.plan_words.specs.Drafts.{drafted, draft_of, stepped};
ghost use Rattle.plan_words.specs.Tells.{Steps, TellsDraft, IfFault};

use crate::draft::Draft;
use crate::fault::LineFault;
use crate::reason::why_number;
use crate::text::{first_line, is_skipped};
use plan_model::{Plan, PlanWhy};
use rec_base::Word;
use std::alloc::Global;
use thiserror::Error;

const MOST_BYTES: usize = 1_048_576;

/// Why there is no plan.
#[derive(Clone, Copy, Debug, PartialEq, Eq, Error)]
pub enum PlanError {
    /// The first line that is refused, counted from 1, and the number of the reason. What is told of
    /// the whole text is told of line 0.
    #[error("line {line} is refused for the reason {why}")]
    Fault { line: u64, why: u8 },
    /// Want of memory, and nothing else.
    #[error("out of memory")]
    Memory,
}

fn refused(line: u64, why: PlanWhy) -> PlanError
    ensures { result ≡ PlanError.Fault line (why_number why) }
{
    PlanError::Fault {
        line,
        why: why_number(why),
    }
}

// Adds what a line says, if it says something.
#[tactic(auto, unfolding(crate::specs::Drafts::stepped))]
fn take_step(
    alloc: Global,
    draft: &mut Draft,
    out: &Word,
    number: u64,
    line: &[u8],
) -> Result<(), PlanError>
    ensures { Steps result draft.new (stepped out.now draft.old number line.now) }
{
    if is_skipped(line) {
        return Ok(());
    }
    match draft.take_line(alloc, out, line) {
        Ok(()) => Ok(()),
        Err(LineFault::Refused(why)) => Err(refused(number, why)),
        Err(LineFault::Memory) => Err(PlanError::Memory),
    }
}

// What all lines say.
fn read_lines(alloc: Global, text: &[u8], out: &Word) -> Result<Draft, PlanError>
    requires { length text.now ≤ text_limit }
    ensures { TellsDraft result (drafted out.now (draft_of []) (said_lines text.now)) }
{
    let mut draft = Draft::new(alloc);
    let mut rest = text;
    let mut number = 0;
    while !rest.is_empty() {
        let (line, behind) = first_line(rest);
        number += 1;
        take_step(alloc, &mut draft, out, number, line)?;
        rest = behind;
    }
    Ok(draft)
}

/// The plan of a text, beside an output of this name, or the first refusal. All of it is this
/// project's own.
///
/// Lines end with a line feed, which the last may lack; one carriage return before the line feed or
/// at the text's end is dropped. Words are separated by spaces. Lines without a word, and lines that
/// begin with `#`, are passed over but counted, from 1 on. The others are
///
/// ```text
/// ring N
/// batch N
/// mode threads | mode turns
/// feed ID doc PATH file PATH [limit N]
/// feed ID doc PATH tcp HOST PORT UID [limit N]
/// ```
///
/// in any order. A number is 1 to 13 decimal digits: `ring` 1 to 1,048,576, and 4096 where it isn't
/// there; `batch` 1 to 65,536, and 512 where it isn't there; an id and a port 1 to 65,535; a limit 1
/// to 1,099,511,627,776. The mode is threads where it isn't there.
///
/// The first refused line decides, and of it the first of these reasons ([`PlanWhy`], with its
/// number):
///
/// 1. `NotText` (8): it isn't UTF-8, or has a byte below 32 or 127.
/// 2. `UnknownWord` (1): it begins with another word.
/// 3. `WrongCount` (2): it hasn't two words, or as a feed has fewer than six.
/// 4. `BadKind` (5): there is no such mode; or the feed has no `doc`, or neither `file` nor `tcp`.
/// 5. `WrongCount` (2): the feed hasn't as many words as its form, with or without a limit.
/// 6. `BadKind` (5): the last word but one of a feed with a limit isn't `limit`.
/// 7. `BadNumber` (3): a number has another form, or is out of its range.
/// 8. `Repeated` (4): a second `ring`, `batch` or `mode`, or an id that was used before.
/// 9. `TooManyFeeds` (6): it is the 65th feed.
/// 10. `OutputNamed` (9): the document's path or the feed's is the output's name, byte for byte.
///
/// Of line 0 are told: `TooLong` (10), before anything else, where the text has more than 1,048,576
/// bytes; `NoFeed` (7) where no line is refused and none is a feed. `Memory` comes for want of
/// memory alone.
///
/// So a plan has 1 to 64 feeds with different ids, all its numbers are in their ranges, and none of
/// its paths is the output's name (`sound`).
pub fn read_plan(alloc: Global, text: &[u8], out: &Word) -> Result<Plan, PlanError>
    ensures plan { IfOk result (λ plan. plan_in text.now out.now ≡ Ok plan) }
    ensures sound { IfOk result (λ plan. IsPlan out.now plan) }
    ensures fault { IfFault result (λ line why. plan_in text.now out.now ≡ Err (line, why)) }
{
    if text.len() > MOST_BYTES {
        return Err(refused(0, PlanWhy::TooLong));
    }
    let draft = read_lines(alloc, text, out)?;
    if draft.feeds.len() == 0 {
        return Err(refused(0, PlanWhy::NoFeed));
    }
    Ok(draft.finish())
}
