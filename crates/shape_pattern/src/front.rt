// What stands behind a pattern, and the digits at a front.

ghost use Rattle.std.specs.Prelude.{◌≡◌, ◌≤◌, length, take};
ghost use Rattle.std.specs.Option.{option_copied};
ghost use Rattle.std.specs.Str.Parse.{digits_value, AllDigits};
ghost use Rattle.xdf_model.specs.Shape.{behind_first, digits_front};

use memchr::memmem;

/// What stands behind the first occurrence of a pattern in a document, or `None` where it doesn't
/// occur. In an empty document nothing does, not even the empty pattern.
pub fn behind<'a>(pattern: &[u8], doc: &'a [u8]) -> Option<&'a [u8]>
    ensures { option_copied result ≡ behind_first pattern.now doc.now }
{
    if doc.is_empty() {
        return None;
    }
    match memmem::find(doc, pattern) {
        Some(i) => Some(&doc[i + pattern.len()..]),
        None => None,
    }
}

// How many decimal digits stand at the front.
pub(crate) fn digits(text: &[u8]) -> usize
    ensures count { result ≡ length (digits_front text.now) }
    ensures digits { AllDigits 10 (take result text.now) }
    ensures within { result ≤ length text.now }
{
    for (i, byte) in text.iter().enumerate() {
        if !byte.is_ascii_digit() {
            return i;
        }
    }
    text.len()
}

// The number that digits write, the highest first. Twenty digits can't pass a `u128`.
pub(crate) fn value_of(digits: &[u8]) -> u128
    requires few { length digits.now ≤ 20 }
    requires digits { AllDigits 10 digits.now }
    ensures { result ≡ digits_value 10 digits.now }
{
    let mut n = 0;
    for digit in digits {
        n = n * 10 + (*digit - b'0') as u128;
    }
    n
}
