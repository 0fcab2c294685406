ghost use Rattle.std.specs.Prelude.{◌≡◌};
ghost use Rattle.xdf_model.specs.Shape.{count_in, format_among, all_formats, shape_in};

use crate::front::{behind, digits, value_of};
use xdf_model::{Format, NoShape, Shape};

/// The shape that the header document of a stream tells, or the first reason why it tells none. The
/// pattern is this project's own, over the document of XDF 1.0, "StreamHeader chunk".
///
/// - The count is what stands directly behind the first `<channel_count>`: 1 to 5 decimal digits, the
///   highest first, and directly behind them `</channel_count>`. It is the number of channels, 1 to
///   4096; zeros in front are allowed within the five digits.
/// - The format is what stands directly behind the first `<channel_format>` of the whole document, be
///   it before or behind the count: one of the seven names, and directly behind it
///   `</channel_format>`.
///
/// Only the first occurrence of each counts, so a right one behind a wrong one doesn't help. All other
/// bytes may be anything. The reasons are tried in this order: `NoCount` where there is no
/// `<channel_count>`, `BadCount` where no such number stands behind it, `NoFormat` where there is no
/// `<channel_format>`, and `BadFormat` where no such name stands behind it.
#[tactic(auto, unfolding(xdf_model::specs::Shape::shape_in))]
pub fn find_shape(doc: &[u8]) -> Result<Shape, NoShape>
    ensures { result ≡ shape_in doc.now }
{
    let Some(at_count) = behind(b"<channel_count>", doc) else {
        return Err(NoShape::NoCount);
    };
    let Some(count) = read_count(at_count) else {
        return Err(NoShape::BadCount);
    };
    let Some(at_format) = behind(b"<channel_format>", doc) else {
        return Err(NoShape::NoFormat);
    };
    let Some(format) = read_format(at_format) else {
        return Err(NoShape::BadFormat);
    };
    Ok(Shape { count, format })
}

// The channel count at the front, closed at once.
fn read_count(text: &[u8]) -> Option<u16>
    ensures { result ≡ count_in text.now }
{
    let n = digits(text);
    if n == 0 || n > 5 || !text[n..].starts_with(b"</channel_count>") {
        return None;
    }
    let count = value_of(&text[..n]);
    if count == 0 || count > 4096 {
        return None;
    }
    Some(count as u16)
}

// The format whose name stands at the front, closed at once.
fn read_format(text: &[u8]) -> Option<Format>
    ensures { result ≡ format_among all_formats text.now }
{
    if text.starts_with(b"float32</channel_format>") {
        Some(Format::Float32)
    } else if text.starts_with(b"double64</channel_format>") {
        Some(Format::Double64)
    } else if text.starts_with(b"string</channel_format>") {
        Some(Format::Text)
    } else if text.starts_with(b"int32</channel_format>") {
        Some(Format::Int32)
    } else if text.starts_with(b"int16</channel_format>") {
        Some(Format::Int16)
    } else if text.starts_with(b"int8</channel_format>") {
        Some(Format::Int8)
    } else if text.starts_with(b"int64</channel_format>") {
        Some(Format::Int64)
    } else {
        None
    }
}
