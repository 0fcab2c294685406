//! What a status of a command says beside its cause.

use crate::numbers::{number_behind, place_numbers};
use crate::places::place_reason;
use crate::refusal::Refusal;
use crate::shown::shown;
use std::alloc::{AllocError, Global};

/// What became of the output, or of what was said, where a status leaves something behind; empty where it
/// doesn't.
pub(crate) fn left_behind(command: &str, status: u8) -> &'static str {
    match (command, status) {
        ("record", 5) =>
            "what was written stays: `check` says how far it goes, `repair` makes a file of it",
        ("repair", 5) => "what was written of it is no whole repair: make room, and repair again",
        ("record" | "repair", 8) =>
            "the file is written and on the disk, but not all lines were said",
        ("show" | "check" | "drill", 8) => "not all lines were said",
        ("record", 9) => "if the output was begun, it has a part of the recording: `check` tells",
        ("repair", 9) => "if the output was begun, it is no whole repair",
        ("show" | "check", 9) => "the lines that were said are right",
        ("drill", 9) => "a smaller number takes less",
        _ => "",
    }
}

/// What a status says by itself, of the words and of its line.
pub(crate) fn status_text(alloc: Global, refusal: &Refusal<'_>) -> Result<String, AllocError> {
    let command = *refusal.words.first().unwrap_or(&"");
    let search = command == "repair" && refusal.words.len() > 3;
    let place = if search { 2 } else { 1 };
    let input = shown(alloc, refusal.words.get(place).unwrap_or(&"the input"))?;
    match (command, refusal.status) {
        (_, 3) => format!(in alloc; "{input}: doesn't begin with XDF:, so it is no XDF file"),
        (_, 4) => format!(in alloc; "a file can't be opened, read or made"),
        (_, 5) => format!(in alloc; "the output can't be written"),
        ("record", 6) => match number_behind(refusal.line, "fault 6 feed ") {
            Some(id) => format!(in alloc;
                "{input}, feed {id}: its header document tells no channel count from 1 to 4096, or no known format, or has more than 1048576 bytes"
            ),
            None => format!(in alloc; "{input}: a header document tells no shape"),
        },
        (_, 6) => match place_numbers(refusal.line) {
            Some((at, why)) => {
                let reason = place_reason(why);
                format!(in alloc;
                    "{input}: damaged at byte {at}: {reason}; what stands before is good, and `repair --search` finds what is good behind"
                )
            }
            None => format!(in alloc; "{input}: is damaged"),
        },
        ("record", 7) => match number_behind(refusal.line, "fault 7 asked ") {
            Some(asked) => format!(in alloc;
                "{input}: its rings would take {asked} bytes, and may take 1073741824: make `ring` smaller"
            ),
            None => format!(in alloc;
                "{input}: its rings would take too much: make `ring` smaller"
            ),
        },
        (_, 7) => format!(in alloc;
            "{input}: is longer than 1099511627776 bytes; those within count"
        ),
        (_, 8) => format!(in alloc; "standard output doesn't take the lines"),
        (_, 9) => format!(in alloc; "there isn't enough memory"),
        (_, status) => format!(in alloc; "ended with status {status}"),
    }
}
