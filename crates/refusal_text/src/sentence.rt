//! The sentence.

ghost use Rattle.std.specs.Prelude.{◌≡◌, IsTrue, ◌||◌, ◌==◌, None};

use crate::causes::trouble_text;
use crate::commands::{left_behind, status_text};
use crate::plan::plan_text;
use crate::refusal::Refusal;
use crate::usage::usage_text;
use std::alloc::{AllocError, Global};

// The cause, as far as it is known, and what a status leaves behind.
fn caused_text(alloc: Global, refusal: &Refusal<'_>) -> Result<String, AllocError> {
    let command = *refusal.words.first().unwrap_or(&"");
    let mut text = match (refusal.status, &refusal.trouble) {
        (4 | 5 | 8, Some(trouble)) => trouble_text(alloc, trouble)?,
        _ => status_text(alloc, refusal)?,
    };
    let left = left_behind(command, refusal.status);
    if !left.is_empty() {
        text.push_str("; ")?;
        text.push_str(left)?;
    }
    Ok(text)
}

// The sentence of a status from 2 on.
fn refused_text(alloc: Global, refusal: &Refusal<'_>) -> Result<String, AllocError> {
    match (refusal.words.first(), refusal.status) {
        (_, 2) => usage_text(alloc, refusal),
        (Some(&"record"), 3) => plan_text(alloc, refusal),
        _ => caused_text(alloc, refusal),
    }
}

/// The sentence for how a command ended, without a line feed at its end: of which file and why, as far as
/// that is known. None where there is nothing to say: with status 0 and 1, unless there was trouble; and
/// where there is no memory for it. With status 2 the usage of all commands stands below it.
pub fn refusal_text(alloc: Global, refusal: &Refusal<'_>) -> Option<String>
    ensures silent { IsTrue (refusal.now.status == 0 || refusal.now.status == 1) → refusal.now.trouble ≡ None → result ≡ None }
{
    match (refusal.status, &refusal.trouble) {
        (0 | 1, None) => None,
        (0 | 1, Some(trouble)) => trouble_text(alloc, trouble).ok(),
        _ => refused_text(alloc, refusal).ok(),
    }
}
