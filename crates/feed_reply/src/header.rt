//! A header line: its name and its value.

ghost use Rattle.std.specs.Prelude.{◌≡◌, ◌≤◌, ◌-◌, length};
ghost use Rattle.std.specs.List.{prefix_len, suffix_len};
ghost use Rattle.std.specs.Option.{option_copied};
ghost use Rattle.reply_model.specs.Header.{is_blank, trimmed, length_before, name_in, value_in, value_of};

// A space or a tab.
fn blank(byte: u8) -> bool
    ensures { result ≡ is_blank byte }
{
    byte == b' ' || byte == b'\t'
}

// How many blanks stand at the front.
fn blanks(text: &[u8]) -> usize
    ensures count { result ≡ prefix_len is_blank text.now }
    ensures within { result ≤ length text.now }
{
    for (i, byte) in text.iter().enumerate() {
        if !blank(*byte) {
            return i;
        }
    }
    text.len()
}

// Where the blanks at the end begin.
fn text_end(text: &[u8]) -> usize
    ensures end { result ≡ length text.now - suffix_len is_blank text.now }
    ensures within { result ≤ length text.now }
{
    let mut end = 0;
    for (i, byte) in text.iter().enumerate() {
        if !blank(*byte) {
            end = i + 1;
        }
    }
    end
}

// A text without blanks at the front and at the end.
fn trim(text: &[u8]) -> &[u8]
    ensures { result.now ≡ trimmed text.now }
{
    let text = &text[blanks(text)..];
    &text[..text_end(text)]
}

// How many bytes stand before the first such byte, or in all.
fn before(wanted: u8, text: &[u8]) -> usize
    ensures count { result ≡ length_before wanted text.now }
    ensures within { result ≤ length text.now }
{
    for (i, byte) in text.iter().enumerate() {
        if *byte == wanted {
            return i;
        }
    }
    text.len()
}

/// The value of a line that has a name.
#[tactic(auto, unfolding(reply_model::specs::Header::value_of))]
pub(crate) fn read_value<'a>(name: &[u8], text: &'a [u8]) -> Option<&'a [u8]>
    ensures { option_copied result ≡ value_of name.now text.now }
{
    let colon = before(b':', text);
    if colon == text.len() || !trim(&text[..colon]).eq_ignore_ascii_case(name) {
        return None;
    }
    let text = &text[colon + 1..];
    Some(trim(&text[..before(b';', text)]))
}
