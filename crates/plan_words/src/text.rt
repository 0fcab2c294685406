//! The lines of a text, and which of them say something.

ghost use Rattle.std.specs.Prelude.{◌≡◌, ◌==◌, ◌||◌, ◌<◌, ◌≤◌, length, nat_lt};
ghost use Rattle.std.specs.List.{before_first, after_first, position_or_len, list_all, list_any};
ghost use Rattle.plan_model.specs.Text.{without_return, is_skipped};
ghost use Rattle.plan_words.specs.Drafts.{IsText};

// How many bytes stand before the first line feed, or in all.
fn line_len(text: &[u8]) -> usize
    ensures len { result ≡ position_or_len (λ b. b == 10) text.now }
    ensures within { result ≤ length text.now }
{
    for (i, byte) in text.iter().enumerate() {
        if *byte == b'\n' {
            return i;
        }
    }
    text.len()
}

// What stands before the first line feed, and what stands behind it.
fn split_line(text: &[u8]) -> (&[u8], &[u8])
    ensures line { result.0.now ≡ before_first (λ b. b == 10) text.now }
    ensures behind { result.1.now ≡ after_first (λ b. b == 10) text.now }
{
    let n = line_len(text);
    if n < text.len() {
        (&text[..n], &text[n + 1..])
    } else {
        (text, b"")
    }
}

#[tactic(auto, unfolding(plan_model::specs::Text::without_return))]
fn trim_return(line: &[u8]) -> &[u8]
    ensures { result.now ≡ without_return line.now }
{
    if line.ends_with(b"\r") {
        &line[..line.len() - 1]
    } else {
        line
    }
}

/// The first line of a text, without its end, and what stands behind it.
pub(crate) fn first_line(text: &[u8]) -> (&[u8], &[u8])
    requires { 0 < length text.now }
    ensures line { result.0.now ≡ without_return (before_first (λ b. b == 10) text.now) }
    ensures behind { result.1.now ≡ after_first (λ b. b == 10) text.now }
    ensures shorter { length result.1.now < length text.now }
{
    let (line, behind) = split_line(text);
    (trim_return(line), behind)
}

fn is_spaces(line: &[u8]) -> bool
    ensures { result ≡ list_all (λ b. b == 32) line.now }
{
    line.iter().all(|byte| *byte == b' ')
}

/// Whether a line says nothing.
#[tactic(auto, unfolding(plan_model::specs::Text::is_skipped))]
pub(crate) fn is_skipped(line: &[u8]) -> bool
    ensures { result ≡ is_skipped line.now }
{
    line.starts_with(b"#") || is_spaces(line)
}

fn has_control(line: &[u8]) -> bool
    ensures { result ≡ list_any (λ b. nat_lt b 32 || b == 127) line.now }
{
    line.iter().any(|byte| *byte < 32 || *byte == 127)
}

/// A line as text, if it is some without control bytes.
pub(crate) fn read_text(line: &[u8]) -> Option<&str>
    ensures { IsText line.now result }
{
    if has_control(line) {
        return None;
    }
    match str::from_utf8(line) {
        Ok(text) => Some(text),
        Err(_) => None,
    }
}
