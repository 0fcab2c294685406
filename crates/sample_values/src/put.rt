ghost use Rattle.std.specs.Prelude.{◌≡◌, ◌≤◌, ◌++◌, OnOk, OnErr};
ghost use Rattle.std.specs.List.{flat_map, AllByRecursion};
ghost use Rattle.xdf_model.specs.Sample.{FitsValue, FitsShape, size_of, stamp_text, least_value_text, least_sample_text};
ghost use Rattle.sample_values.specs.View.{seen_value, KeepsFront};

use crate::sample::Sample;
use crate::size::size_of_format;
use crate::texts::append_text;
use crate::value::{ValueView, ValueWalk};
use crate::view::SampleView;
use byteorder::{ByteOrder, LittleEndian};
use rec_base::Memory;
use std::alloc::AllocError;
use xdf_lengths::put_fixed;
use xdf_model::{Shape, Stamp};

fn put_stamp(stamp: Stamp, out: &mut Vec<u8>) -> Result<(), AllocError>
    ensures ok { OnOk result (out.new.items ≡ out.old.items ++ stamp_text stamp) }
    ensures kept { OnErr result (KeepsFront out.old.items out.new.items) }
{
    match stamp {
        Stamp::None => out.push(0)?,
        Stamp::Bits(bits) => {
            let mut text = [8u8; 9];
            LittleEndian::write_uint(&mut text[1..], bits, 8);
            out.extend_from_slice(&text)?;
        }
    }
    Ok(())
}

fn put_value(size: u8, value: ValueView<'_>, out: &mut Vec<u8>) -> Result<(), AllocError>
    requires size { size ≤ 8 }
    requires fits { FitsValue size (seen_value value) }
    ensures ok { OnOk result (out.new.items ≡ out.old.items ++ least_value_text size (seen_value value.entry)) }
    ensures kept { OnErr result (KeepsFront out.old.items out.new.items) }
{
    match value {
        ValueView::Number(n) => put_fixed(size, n, out)?,
        ValueView::Text(bytes) => append_text(bytes, out)?,
    }
    Ok(())
}

fn put_values(size: u8, values: ValueWalk<'_>, out: &mut Vec<u8>) -> Result<(), AllocError>
    requires size { size ≤ 8 }
    requires fits { AllByRecursion (FitsValue size) values }
    ensures ok { OnOk result (out.new.items ≡ out.old.items ++ flat_map (least_value_text size) values.entry) }
    ensures kept { OnErr result (KeepsFront out.old.items out.new.items) }
{
    let mut rest = values;
    while let Some(value) = rest.next() {
        put_value(size, value, out)?;
    }
    Ok(())
}

// The same of all values of a sample, where texts that are kept as they stand in a file are copied.
fn put_all(size: u8, view: &SampleView<'_>, out: &mut Vec<u8>) -> Result<(), AllocError>
    requires size { size ≤ 8 }
    requires fits { AllByRecursion (FitsValue size) view.now.values }
    ensures ok { OnOk result (out.new.items ≡ out.old.items ++ flat_map (least_value_text size) view.now.values) }
    ensures kept { OnErr result (KeepsFront out.old.items out.new.items) }
{
    if size == 0 {
        if let Some(bytes) = view.least_texts() {
            out.extend_from_slice(bytes)?;
            return Ok(());
        }
    }
    put_values(size, view.values(), out)
}

fn put_each(shape: &Shape, view: &SampleView<'_>, out: &mut Vec<u8>) -> Result<(), AllocError>
    requires { FitsShape shape.now view.now }
    ensures ok { OnOk result (out.new.items ≡ out.old.items ++ least_sample_text shape.now view.now) }
    ensures kept { OnErr result (KeepsFront out.old.items out.new.items) }
{
    put_stamp(view.stamp(), out)?;
    put_all(size_of_format(shape.format), view, out)
}

// The same, where a sample of numbers that stands as bytes of this very shape is copied as it lies.
fn put_parts(shape: &Shape, view: &SampleView<'_>, out: &mut Vec<u8>) -> Result<(), AllocError>
    requires { FitsShape shape.now view.now }
    ensures ok { OnOk result (out.new.items ≡ out.old.items ++ least_sample_text shape.now view.now) }
    ensures kept { OnErr result (KeepsFront out.old.items out.new.items) }
{
    match view.least_bytes(shape) {
        Some(bytes) => {
            out.extend_from_slice(bytes)?;
            Ok(())
        }
        None => put_each(shape, view, out),
    }
}

/// Appends the bytes of a sample to `out`: the byte 0, or the byte 8 and the stamp in 8 bytes; then
/// each number in the bytes of its format, and each text behind its length in the least width. All
/// numbers have their lowest byte first (XDF 1.0, "Samples chunk").
///
/// `Memory` comes for want of memory alone, and leaves what `out` holds as it was, also where it grew
/// before.
pub fn put_sample(shape: &Shape, sample: &Sample, out: &mut Vec<u8>) -> Result<(), Memory>
    requires { FitsShape shape.now sample.now }
    ensures ok { OnOk result (out.new.items ≡ out.old.items ++ least_sample_text shape.now sample.now) }
    ensures memory { OnErr result (out.new.items ≡ out.old.items) }
{
    put_view(shape, &sample.view(), out)
}

/// Appends the bytes of a borrowed sample to `out`, as [`put_sample`] does.
pub fn put_view(shape: &Shape, view: &SampleView<'_>, out: &mut Vec<u8>) -> Result<(), Memory>
    requires { FitsShape shape.now view.now }
    ensures ok { OnOk result (out.new.items ≡ out.old.items ++ least_sample_text shape.now view.now) }
    ensures memory { OnErr result (out.new.items ≡ out.old.items) }
{
    let start = out.len();
    let put = put_parts(shape, view, out);
    if put.is_err() {
        out.truncate(start);
        return Err(Memory);
    }
    Ok(())
}
