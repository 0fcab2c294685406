//! Numbers.

ghost use Rattle.std.specs.Prelude.{◌≡◌, ◌≤◌, IfSome};
ghost use Rattle.std.specs.List.{list_all};
ghost use Rattle.std.specs.Char.{is_ascii_digit};
ghost use Rattle.plan_words.specs.Read.{IsNumber};

fn is_digits(text: &str) -> bool
    ensures { result ≡ list_all is_ascii_digit text.now }
{
    text.bytes().all(|byte| byte.is_ascii_digit())
}

/// The number that a word writes, from 1 up to the most that it may be.
pub(crate) fn read_number(text: &str, most: u64) -> Option<u64>
    ensures value { IsNumber most text.now result }
    ensures within { IfSome result (λ n. n ≤ most) }
{
    if text.len() > 13 || !is_digits(text) {
        return None;
    }
    match text.parse::<u64>() {
        Ok(n) if n > 0 && n <= most => Some(n),
        _ => None,
    }
}
