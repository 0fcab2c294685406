//! Texts from outside, as they may stand on a terminal.

use std::alloc::{AllocError, Global};

// The most characters that are shown of a text.
const LONGEST: usize = 200;

/// A text with a `?` for each control character, so that no name can write over the terminal; a long one
/// is cut, and an empty one named as such.
pub(crate) fn shown(alloc: Global, text: &str) -> Result<String, AllocError> {
    if text.is_empty() {
        return "(an empty word)".to_string(alloc);
    }
    let mut shown = String::new(alloc);
    let mut room = LONGEST;
    for c in text.chars() {
        if room == 0 {
            shown.push_str("...")?;
            break;
        }
        room -= 1;
        shown.push(if c.is_control() { '?' } else { c })?;
    }
    Ok(shown)
}
