//! A sample as the bytes that it has in a file.

ghost use Rattle.std.specs.Prelude.{◌≡◌, ◌≤◌, ◌<◌, length, Ok, [], Some, IfSome, slice_get, IsTrue};
ghost use Rattle.std.specs.Option.{option_copied};
ghost use Rattle.xdf_model.specs.Reading.{many_at};
ghost use Rattle.xdf_model.specs.Sample.{number, sample_at, size_of, value_at, FitsShape, least_sample_text};
ghost use Rattle.sample_values.specs.Sizes.{is_number_size};
ghost use Rattle.sample_values.specs.View.{bits_in, text_in};
ghost use Rattle.sample_values.specs.Raw.{found_in, listed, IsAll};
ghost use Rattle.sample_values.specs.Rest.{whole_sample_at, Finds};

use crate::fault::WalkFault;
use crate::raw_value::number_of;
use crate::size::size_of_format;
use crate::value::{ValueView, ValueWalk};
use crate::walk::{behind_sample, read_stamp};
use std::marker::Model;
use xdf_model::{Shape, Stamp};

/// A sample that stands elsewhere, as its bytes.
#[derive(Debug, Drop)]
pub(crate) struct RawView<'a> {
    shape: Shape,
    bytes: &'a [u8],
}

impl<'a> Model for RawView<'a> {
    ghost use Rattle.xdf_model.specs.Sample.{Sample as SampleValue, sample_at};
    ghost use Rattle.sample_values.specs.Raw.{found_in, IsAll};

    ghost Value = { SampleValue };

    ghost view = { λ v. found_in (sample_at v.shape v.bytes.now) };

    ghost invariant = { λ v. IsAll (sample_at v.shape v.bytes.now) };
}

impl<'a> RawView<'a> {
    pub(crate) fn of(shape: Shape, bytes: &'a [u8]) -> RawView<'a>
        requires { IsAll (sample_at shape bytes.now) }
        ensures { result ≡ found_in (sample_at shape bytes.now) }
    {
        RawView { shape, bytes }
    }
}

/// The sample at the front of some bytes, and the bytes behind it, or the first fault.
#[inline(always)]
pub(crate) fn cut_sample<'a>(
    shape: &Shape,
    bytes: &'a [u8],
) -> Result<(RawView<'a>, &'a [u8]), WalkFault>
    ensures { Finds (λ x. (x.0, x.1.now)) result (whole_sample_at shape.now bytes.now) }
{
    match behind_sample(shape, bytes) {
        Ok(rest) => {
            let own = &bytes[..bytes.len() - rest.len()];
            Ok((RawView::of(*shape, own), rest))
        }
        Err(fault) => Err(fault),
    }
}

// The stamp of a sample that takes all the bytes, and the bytes of its values.
fn parts_of<'a>(shape: &Shape, bytes: &'a [u8]) -> (Stamp, &'a [u8])
    requires { IsAll (sample_at shape.now bytes.now) }
    ensures stamp { result.0 ≡ (found_in (sample_at shape.now bytes.now)).stamp }
    ensures values { many_at (value_at (size_of shape.now.format)) shape.now.count result.1.now ≡ Ok ((found_in (sample_at shape.now bytes.now)).values, []) }
{
    match read_stamp(bytes) {
        Ok(parts) => parts,
        Err(_) => unreachable!(),
    }
}

// The number of a channel among values of numbers.
fn number_among(size: u8, count: u16, values: &[u8], i: usize) -> u64
    requires size { IsTrue (is_number_size size) }
    requires all { IsAll (many_at (value_at size) count values.now) }
    requires within { i < count }
    requires some { 0 < size }
    ensures { slice_get (listed (many_at (value_at size) count values.now)) i ≡ Some (number result) }
{
    number_of(size, &values[i * size as usize..])
}

// The same of a sample of some shape that takes all the bytes; no number where it has texts.
fn bits_of(shape: &Shape, bytes: &[u8], i: usize) -> Option<u64>
    requires { IsAll (sample_at shape.now bytes.now) }
    ensures { result ≡ bits_in (slice_get (found_in (sample_at shape.now bytes.now)).values i) }
{
    let size = size_of_format(shape.format);
    if size == 0 || i >= shape.count as usize {
        return None;
    }
    let (_, values) = parts_of(shape, bytes);
    Some(number_among(size, shape.count, values, i))
}

// The values of a sample that takes all the bytes.
fn values_among<'a>(shape: &Shape, bytes: &'a [u8]) -> ValueWalk<'a>
    requires { IsAll (sample_at shape.now bytes.now) }
    ensures { result ≡ (found_in (sample_at shape.now bytes.now)).values }
{
    let (_, values) = parts_of(shape, bytes);
    ValueWalk::raw(shape.format, shape.count as usize, values)
}

// The text at a place of some values, where a text stands there.
pub(crate) fn text_among(values: ValueWalk<'_>, i: usize) -> Option<&[u8]>
    ensures { option_copied result ≡ text_in (slice_get values.entry i) }
{
    let mut rest = values;
    for _ in 0..i {
        if rest.next().is_none() {
            return None;
        }
    }
    match rest.next() {
        Some(ValueView::Text(text)) => Some(text),
        _ => None,
    }
}

fn is_same(own: &Shape, shape: &Shape) -> bool
    ensures { IsTrue result → own.now ≡ shape.now }
{
    *own == *shape
}

// Whether a sample that takes all the bytes has a shape: it has, where it is the one that it is read by.
fn shape_is(own: &Shape, shape: &Shape, bytes: &[u8]) -> bool
    requires { IsAll (sample_at own.now bytes.now) }
    ensures { IsTrue result → FitsShape shape.now (found_in (sample_at own.now bytes.now)) }
{
    is_same(own, shape)
}

// The least text of a sample that takes all the bytes, where it is surely these bytes.
fn least_among<'a>(own: &Shape, shape: &Shape, bytes: &'a [u8]) -> Option<&'a [u8]>
    requires { IsAll (sample_at own.now bytes.now) }
    ensures { IfSome result (λ text. text.now ≡ least_sample_text shape.now (found_in (sample_at own.now bytes.now))) }
{
    if size_of_format(own.format) > 0 && is_same(own, shape) {
        return Some(bytes);
    }
    None
}

impl<'a> RawView<'a> {
    /// The time stamp: the pattern of an IEEE 754 double in seconds, or none.
    pub(crate) fn stamp(&self) -> Stamp
        ensures { result ≡ self.now.stamp }
    {
        parts_of(&self.shape, self.bytes).0
    }

    /// How many values there are.
    pub(crate) fn len(&self) -> usize
        ensures { result ≡ length self.now.values }
    {
        self.shape.count as usize
    }

    /// The pattern of the number of a channel, counted from 0, where a number stands there.
    pub(crate) fn bits_at(&self, i: usize) -> Option<u64>
        ensures { result ≡ bits_in (slice_get self.now.values i) }
    {
        bits_of(&self.shape, self.bytes, i)
    }

    pub(crate) fn text_at(&self, i: usize) -> Option<&'a [u8]>
        ensures { option_copied result ≡ text_in (slice_get self.now.values i) }
    {
        text_among(self.values(), i)
    }

    pub(crate) fn values(&self) -> ValueWalk<'a>
        ensures { result ≡ self.now.values }
    {
        values_among(&self.shape, self.bytes)
    }

    pub(crate) fn has_shape(&self, shape: &Shape) -> bool
        ensures { IsTrue result → FitsShape shape.now self.now }
    {
        shape_is(&self.shape, shape, self.bytes)
    }

    pub(crate) fn least_bytes(&self, shape: &Shape) -> Option<&'a [u8]>
        ensures { IfSome result (λ bytes. bytes.now ≡ least_sample_text shape.now self.now) }
    {
        least_among(&self.shape, shape, self.bytes)
    }
}
