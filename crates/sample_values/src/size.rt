ghost use Rattle.std.specs.Prelude.{◌≡◌, ◌<◌, ◌^◌, length};
ghost use Rattle.std.specs.List.{flat_map, AllByRecursion};
ghost use Rattle.xdf_model.specs.Sample.{FitsValue, FitsShape, size_of, stamp_text, least_value_text, least_sample_text};
ghost use Rattle.sample_values.specs.View.{seen_value};

use crate::sample::Sample;
use crate::value::{ValueView, ValueWalk};
use crate::view::SampleView;
use xdf_lengths::num_size;
use xdf_model::{Format, Shape, Stamp};

/// How many bytes a number of a format takes, and 0 for texts, whose length is their own (XDF 1.0,
/// "Samples chunk").
pub fn size_of_format(format: Format) -> u8
    ensures { result ≡ size_of format }
{
    match format {
        Format::Float32 => 4,
        Format::Double64 => 8,
        Format::Text => 0,
        Format::Int32 => 4,
        Format::Int16 => 2,
        Format::Int8 => 1,
        Format::Int64 => 8,
    }
}

fn stamp_size(stamp: Stamp) -> u64
    ensures { result ≡ length (stamp_text stamp) }
{
    match stamp {
        Stamp::None => 1,
        Stamp::Bits(_) => 9,
    }
}

fn text_size(value: ValueView<'_>) -> u64
    requires fits { FitsValue 0 (seen_value value) }
    requires room { length (least_value_text 0 (seen_value value)) < 2 ^ 64 }
    ensures { result ≡ length (least_value_text 0 (seen_value value.entry)) }
{
    match value {
        ValueView::Number(_) => 0,
        ValueView::Text(text) => {
            let len = text.len() as u64;
            1 + num_size(len) as u64 + len
        }
    }
}

fn texts_size(values: ValueWalk<'_>) -> u64
    requires fits { AllByRecursion (FitsValue 0) values }
    requires room { length (flat_map (least_value_text 0) values) < 2 ^ 64 }
    ensures { result ≡ length (flat_map (least_value_text 0) values.entry) }
{
    let mut rest = values;
    let mut size = 0u64;
    while let Some(value) = rest.next() {
        size += text_size(value);
    }
    size
}

fn values_size(size: u8, view: &SampleView<'_>) -> u64
    requires fits { AllByRecursion (FitsValue size) view.now.values }
    requires room { length (flat_map (least_value_text size) view.now.values) < 2 ^ 64 }
    ensures { result ≡ length (flat_map (least_value_text size) view.now.values) }
{
    if size == 0 {
        match view.least_texts() {
            Some(bytes) => bytes.len() as u64,
            None => texts_size(view.values()),
        }
    } else {
        view.len() as u64 * size as u64
    }
}

/// How many bytes [`put_sample`](crate::put_sample) appends: without a look at each value
/// where all are numbers, or texts that were pushed.
pub fn sample_size(shape: &Shape, sample: &Sample) -> u64
    requires fits { FitsShape shape.now sample.now }
    requires room { length (least_sample_text shape.now sample.now) < 2 ^ 64 }
    ensures { result ≡ length (least_sample_text shape.now sample.now) }
{
    view_size(shape, &sample.view())
}

/// How many bytes [`put_view`](crate::put_view) appends.
pub fn view_size(shape: &Shape, view: &SampleView<'_>) -> u64
    requires fits { FitsShape shape.now view.now }
    requires room { length (least_sample_text shape.now view.now) < 2 ^ 64 }
    ensures { result ≡ length (least_sample_text shape.now view.now) }
{
    stamp_size(view.stamp()) + values_size(size_of_format(shape.format), view)
}
