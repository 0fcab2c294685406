ghost use Rattle.std.specs.Prelude.{◌≡◌, ◌+◌, ◌^◌, ◌↔◌, IsTrue};
ghost use Rattle.std.specs.List.{AllByRecursion};
ghost use Rattle.xdf_model.specs.Sample.{FitsValue, FitsShape, FitsStamp, size_of};
ghost use Rattle.sample_values.specs.View.{seen_value};

use crate::sample::Sample;
use crate::size::size_of_format;
use crate::value::{ValueView, ValueWalk};
use crate::view::SampleView;
use xdf_model::{Format, Shape, Stamp};

fn largest_of_format(format: Format) -> u64
    ensures { result + 1 ≡ 256 ^ size_of format }
{
    match format {
        Format::Text => 0,
        Format::Int8 => u8::MAX as u64,
        Format::Int16 => u16::MAX as u64,
        Format::Float32 | Format::Int32 => u32::MAX as u64,
        Format::Double64 | Format::Int64 => u64::MAX,
    }
}

fn value_fits(size: u8, largest: u64, value: ValueView<'_>) -> bool
    requires { largest + 1 ≡ 256 ^ size }
    ensures { IsTrue result ↔ FitsValue size (seen_value value.entry) }
{
    match value {
        ValueView::Number(bits) => size > 0 && bits <= largest,
        ValueView::Text(_) => size == 0,
    }
}

fn values_fit(size: u8, largest: u64, values: ValueWalk<'_>) -> bool
    requires { largest + 1 ≡ 256 ^ size }
    ensures { IsTrue result ↔ AllByRecursion (FitsValue size) values.entry }
{
    let mut rest = values;
    while let Some(value) = rest.next() {
        if !value_fits(size, largest, value) {
            return false;
        }
    }
    true
}

pub(crate) fn stamp_fits(stamp: Stamp) -> bool
    ensures always { IsTrue result }
    ensures fits { FitsStamp stamp }
{
    match stamp {
        Stamp::None => true,
        Stamp::Bits(_) => true,
    }
}

/// Whether a sample is one of this shape: as many values as channels, all of them texts where the
/// format is `string`, and else all of them numbers that the format's bytes hold (XDF 1.0,
/// "Samples chunk").
pub fn sample_fits(shape: &Shape, sample: &Sample) -> bool
    ensures { IsTrue result ↔ FitsShape shape.now sample.now }
{
    view_fits(shape, &sample.view())
}

// Each value is looked at.
fn each_fits(shape: &Shape, view: &SampleView<'_>) -> bool
    ensures { IsTrue result ↔ FitsShape shape.now view.now }
{
    stamp_fits(view.stamp())
        && view.len() == shape.count as usize
        && values_fit(
            size_of_format(shape.format),
            largest_of_format(shape.format),
            view.values(),
        )
}

/// Whether a borrowed sample is one of this shape, as [`sample_fits`] tells. Of one that stands as
/// bytes of this very shape, or is a sample of so many texts alone, no value is looked at.
pub fn view_fits(shape: &Shape, view: &SampleView<'_>) -> bool
    ensures { IsTrue result ↔ FitsShape shape.now view.now }
{
    view.has_shape(shape) || each_fits(shape, view)
}
