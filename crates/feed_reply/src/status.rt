//! The status line.

ghost use Rattle.std.specs.Prelude.{◌≡◌, ◌≤◌, length, take};
ghost use Rattle.std.specs.Str.Parse.{digits_value, AllDigits};
ghost use Rattle.reply_model.specs.Header.{behind, number_front, reason_phrase, accepts, accepts_status, digits_front};
ghost use Rattle.feed_reply.specs.Views.{Reads};

use reply_model::ReplyWhy;

// What stands behind a text at the front.
fn read_front<'a>(front: &[u8], text: &'a [u8]) -> Result<&'a [u8], ReplyWhy>
    ensures { Reads (λ x. x.now) result (behind front.now text.now) }
{
    if text.starts_with(front) {
        Ok(&text[front.len()..])
    } else {
        Err(ReplyWhy::Malformed)
    }
}

// How many decimal digits stand at the front.
fn digits(text: &[u8]) -> usize
    ensures count { result ≡ length (digits_front text.now) }
    ensures digits { AllDigits 10 (take result text.now) }
    ensures within { result ≤ length text.now }
{
    for (i, byte) in text.iter().enumerate() {
        if !byte.is_ascii_digit() {
            return i;
        }
    }
    text.len()
}

// The number that digits write, the highest first. Nine digits can't pass a `u32`.
fn number_of(digits: &[u8]) -> u32
    requires few { length digits.now ≤ 9 }
    requires digits { AllDigits 10 digits.now }
    ensures { result ≡ digits_value 10 digits.now }
{
    let mut n = 0;
    for digit in digits {
        n = n * 10 + (*digit - b'0') as u32;
    }
    n
}

// A number of 1 to 9 digits at the front, and what stands behind it.
fn read_number(text: &[u8]) -> Result<(u32, &[u8]), ReplyWhy>
    ensures { Reads (λ x. (x.0, x.1.now)) result (number_front text.now) }
{
    let n = digits(text);
    if n == 0 || n > 9 {
        return Err(ReplyWhy::Malformed);
    }
    Ok((number_of(&text[..n]), &text[n..]))
}

// The end of the line, or a space and any bytes.
fn read_phrase(text: &[u8]) -> Result<(), ReplyWhy>
    ensures { result ≡ reason_phrase text.now }
{
    match text {
        [] | [b' ', ..] => Ok(()),
        [_, ..] => Err(ReplyWhy::Malformed),
    }
}

// Versions and codes that are accepted.
fn judge_status(version: u32, code: u32) -> Result<(), ReplyWhy>
    ensures { result ≡ accepts version code }
{
    if version / 100 > 1 {
        Err(ReplyWhy::VersionTooNew)
    } else if code == 404 {
        Err(ReplyWhy::NotFound)
    } else if code >= 400 {
        Err(ReplyWhy::PeerError(code))
    } else if code >= 300 {
        Err(ReplyWhy::Redirect(code))
    } else {
        Ok(())
    }
}

/// Whether a status line is accepted.
#[tactic(auto, unfolding(reply_model::specs::Header::accepts_status))]
pub(crate) fn read_status(text: &[u8]) -> Result<(), ReplyWhy>
    ensures { result ≡ accepts_status text.now }
{
    let text = read_front(b"LSL/", text)?;
    let (version, text) = read_number(text)?;
    let text = read_front(b" ", text)?;
    let (code, text) = read_number(text)?;
    read_phrase(text)?;
    judge_status(version, code)
}
