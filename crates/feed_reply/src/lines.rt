//! Lines.

ghost use Rattle.std.specs.Prelude.{◌≡◌, take, drop};
ghost use Rattle.reply_model.specs.Lines.{lines_in};
ghost use Rattle.feed_reply.specs.Views.{IsFirstLine, with_front};

/// The length of the first line without its end, where it is complete, and no line end begins at so
/// many bytes of its front.
pub(crate) fn line_length_from(seen: usize, bytes: &[u8]) -> Option<usize>
    requires { lines_in bytes.now ≡ with_front (take seen bytes.now) (lines_in (drop seen bytes.now)) }
    ensures { IsFirstLine bytes.now result }
{
    for i in seen..bytes.len() {
        if bytes[i..].starts_with(b"\r\n") {
            return Some(i);
        }
    }
    None
}

/// The length of the first line without its end, where it is complete.
pub(crate) fn line_length(bytes: &[u8]) -> Option<usize>
    ensures { IsFirstLine bytes.now result }
{
    line_length_from(0, bytes)
}
