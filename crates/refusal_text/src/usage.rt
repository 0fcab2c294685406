//! Words that are no command.

use crate::numbers::number_behind;
use crate::refusal::Refusal;
use crate::shown::shown;
use std::alloc::{AllocError, Global};

/// The usage of all commands.
pub(crate) const USAGE: &str =
    "usage: record_cli record PLAN OUT            records the feeds of a plan into a new file\n       record_cli show FILE                  says what an XDF file holds\n       record_cli check FILE                 says what is to be noted of it\n       record_cli repair [--search] IN OUT   writes the whole chunks of a file into a new one\n       record_cli drill N                    records three feeds in memory, to try the machine";

// What belongs behind a command.
fn words_behind(command: &str) -> &'static str {
    match command {
        "record" => "PLAN and OUT",
        "repair" => "IN and OUT, or --search IN OUT",
        "drill" => "a number",
        _ => "FILE",
    }
}

// Which usage the words broke.
fn broken_usage(alloc: Global, refusal: &Refusal<'_>) -> Result<String, AllocError> {
    let first = shown(alloc, refusal.words.first().unwrap_or(&""))?;
    let last = shown(alloc, refusal.words.last().unwrap_or(&""))?;
    match number_behind(refusal.line, "fault 2 usage ") {
        Some(1) => format!(in alloc; "there is no command"),
        Some(2) => format!(in alloc; "{first}: is no command"),
        Some(3) => {
            let wanted = words_behind(&first);
            let count = refusal.words.len().saturating_sub(1);
            format!(in alloc; "{first}: takes {wanted}; words behind it: {count}")
        }
        Some(4) => format!(in alloc; "{last}: is no number from 1 to 1000000"),
        Some(5) => format!(in alloc; "{last}: is the input, and can't be the output too"),
        Some(_) => format!(in alloc; "the words are no command"),
        None => format!(in alloc; "a word isn't UTF-8: rename the file"),
    }
}

/// Which usage the words broke, and then the usage of all commands.
pub(crate) fn usage_text(alloc: Global, refusal: &Refusal<'_>) -> Result<String, AllocError> {
    let mut text = broken_usage(alloc, refusal)?;
    text.push('\n')?;
    text.push_str(USAGE)?;
    Ok(text)
}
