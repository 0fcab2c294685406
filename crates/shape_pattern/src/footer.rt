ghost use Rattle.std.specs.Prelude.{◌≡◌};
ghost use Rattle.shape_pattern.specs.Number.{number_front, number_in, opening, closing};

use crate::front::{behind, digits, value_of};

/// An element of a footer document that holds a number.
#[derive(Clone, Copy, Debug, PartialEq, Eq)]
pub enum Element {
    /// `<sample_count>`, of XDF 1.0, "StreamFooter chunk": how many samples the file holds.
    SampleCount,
    /// `<overruns>`, this project's own: how many samples were lost.
    Overruns,
}

fn opening_of(element: Element) -> &'static [u8]
    ensures { result.now ≡ opening element }
{
    match element {
        Element::SampleCount => b"<sample_count>",
        Element::Overruns => b"<overruns>",
    }
}

fn closing_of(element: Element) -> &'static [u8]
    ensures { result.now ≡ closing element }
{
    match element {
        Element::SampleCount => b"</sample_count>",
        Element::Overruns => b"</overruns>",
    }
}

/// The number that a document tells in an element. The pattern is this project's own, as that of
/// [`find_shape`](crate::find_shape).
///
/// The number is what stands directly behind the first occurrence of the element's opening: 1 to 20
/// decimal digits, the highest first, and directly behind them the element's closing. It is below
/// 2^64; zeros in front are allowed within the twenty digits. It is `None` where there is no opening,
/// or where no such number stands behind the first one, whatever comes later.
pub fn find_number(doc: &[u8], element: Element) -> Option<u64>
    ensures { result ≡ number_in element doc.now }
{
    let text = behind(opening_of(element), doc)?;
    read_number(closing_of(element), text)
}

// The number at the front, closed at once.
fn read_number(closing: &[u8], text: &[u8]) -> Option<u64>
    ensures { result ≡ number_front closing.now text.now }
{
    let n = digits(text);
    if n == 0 || n > 20 || !text[n..].starts_with(closing) {
        return None;
    }
    let value = value_of(&text[..n]);
    if value > u64::MAX as u128 {
        return None;
    }
    Some(value as u64)
}
