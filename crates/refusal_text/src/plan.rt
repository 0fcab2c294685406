//! Why a plan is refused.

use crate::numbers::plan_numbers;
use crate::refusal::Refusal;
use crate::shown::shown;
use std::alloc::{AllocError, Global};

// What belongs at a line that is refused for this reason.
fn plan_reason(why: u64) -> &'static str {
    match why {
        1 =>
            "a line begins with ring, batch, mode or feed; a note has its # as the very first character",
        2 => {
            "a line has as many words as its form: `ring N`, `batch N`, `mode threads` or `mode turns`, `feed ID doc DOC file FEED` or `feed ID doc DOC tcp HOST PORT UID`, and `limit N` behind these two; a path with blanks can't be named"
        }
        3 => {
            "a number there has another form, or isn't in its range: ring and batch are 1 to 1048576, an ID and a PORT 1 to 65535, a limit 1 or more"
        }
        4 => "a setting, and the id of a feed, stands in one line only",
        5 => "another word belongs there: `doc`, `file`, `tcp`, `limit`, `threads` or `turns`",
        6 => "a plan has at most 64 feeds",
        7 => "a plan has at least one line `feed`",
        8 => "a line is UTF-8 without control characters; words have blanks between them, not tabs",
        9 => "it names the output as an input",
        10 => "a plan has at most 1048576 bytes",
        _ => "it isn't understood",
    }
}

/// Which line of the plan is refused, its words, and what belongs there.
pub(crate) fn plan_text(alloc: Global, refusal: &Refusal<'_>) -> Result<String, AllocError> {
    let plan = shown(alloc, refusal.words.get(1).unwrap_or(&"the plan"))?;
    let Some((line, why)) = plan_numbers(refusal.line) else {
        return format!(in alloc; "{plan}: isn't a plan");
    };
    let reason = plan_reason(why);
    if line == 0 {
        return format!(in alloc; "{plan}: {reason}");
    }
    match refusal.plan_line {
        Some(text) => {
            let text = shown(alloc, text)?;
            format!(in alloc; "{plan}, line {line}, `{text}`: {reason}")
        }
        None => format!(in alloc; "{plan}, line {line}: {reason}"),
    }
}
