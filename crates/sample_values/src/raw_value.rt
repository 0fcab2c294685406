//! A value at the front of bytes.

ghost use Rattle.std.specs.Prelude.{◌≡◌, ◌<◌, ◌≤◌, length, IsTrue};
ghost use Rattle.byteorder.specs.Endian.{little_number};
ghost use Rattle.xdf_model.specs.Sample.{text, size_of, text_at, value_at};
ghost use Rattle.sample_values.specs.Sizes.{is_number_size};
ghost use Rattle.sample_values.specs.View.{seen_value};
ghost use Rattle.sample_values.specs.Rest.{Finds};

use crate::fault::WalkFault;
use crate::size::size_of_format;
use crate::value::ValueView;
use crate::walk::read_length;
use byteorder::{ByteOrder, LittleEndian};
use xdf_model::Format;

// The number at the front of some bytes.
#[inline(always)]
pub(crate) fn number_of(size: u8, bytes: &[u8]) -> u64
    requires size { IsTrue (is_number_size size) }
    requires room { size ≤ length bytes.now }
    ensures { result ≡ little_number size bytes.now }
{
    match size {
        1 => bytes[0] as u64,
        2 => LittleEndian::read_u16(bytes) as u64,
        4 => LittleEndian::read_u32(bytes) as u64,
        _ => LittleEndian::read_u64(bytes),
    }
}

// The same of a text whose length has any width.
fn read_long_text(bytes: &[u8]) -> Result<(&[u8], &[u8]), WalkFault>
    ensures { Finds (λ x. (text x.0.now, x.1.now)) result (text_at bytes.now) }
{
    let (len, rest) = read_length(bytes)?;
    if (rest.len() as u64) < len {
        return Err(WalkFault::Outside);
    }
    let len = len as usize;
    Ok((&rest[..len], &rest[len..]))
}

// A text, and the bytes behind it. Most lengths have the width 1.
#[inline(always)]
fn read_text(bytes: &[u8]) -> Result<(&[u8], &[u8]), WalkFault>
    ensures { Finds (λ x. (text x.0.now, x.1.now)) result (text_at bytes.now) }
{
    if bytes.len() >= 2 && bytes[0] == 1 {
        let end = 2 + bytes[1] as usize;
        if end <= bytes.len() {
            return Ok((&bytes[2..end], &bytes[end..]));
        }
    }
    read_long_text(bytes)
}

// A number of a size, and the bytes behind it.
#[inline(always)]
fn read_number(size: u8, bytes: &[u8]) -> Result<(ValueView<'_>, &[u8]), WalkFault>
    requires size { IsTrue (is_number_size size) }
    requires some { 0 < size }
    ensures { Finds (λ x. (seen_value x.0, x.1.now)) result (value_at size bytes.now) }
{
    if bytes.len() < size as usize {
        return Err(WalkFault::Outside);
    }
    Ok((
        ValueView::Number(number_of(size, bytes)),
        &bytes[size as usize..],
    ))
}

/// A value of a format, and the bytes behind it, or the first fault.
#[inline(always)]
pub(crate) fn read_value(format: Format, bytes: &[u8]) -> Result<(ValueView<'_>, &[u8]), WalkFault>
    ensures { Finds (λ x. (seen_value x.0, x.1.now)) result (value_at (size_of format) bytes.now) }
{
    if format == Format::Text {
        let (text, rest) = read_text(bytes)?;
        return Ok((ValueView::Text(text), rest));
    }
    read_number(size_of_format(format), bytes)
}
