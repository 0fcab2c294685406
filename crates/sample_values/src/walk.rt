//! Walks over samples where they lie.

ghost use Rattle.std.specs.Prelude.{◌≡◌, ◌≤◌, ◌<◌, ◌-◌, ◌*◌, ◌^◌, ℕ, suc, length};
ghost use Rattle.xdf_model.specs.declared.types.Why.TheVariants.{SamplesShort};
ghost use Rattle.xdf_model.specs.Reading.{length_at, many_at, told};
ghost use Rattle.xdf_model.specs.Sample.{size_of, value_at, sample_at, samples_at, stamp_at, text_at};
ghost use Rattle.sample_values.specs.Rest.{rest_of, whole_sample_at, stamp_width, Finds, Leaves};

use crate::fault::{WalkFault, wrong};
use crate::size::size_of_format;
use byteorder::{ByteOrder, LittleEndian};
use xdf_lengths::{NumRead, read_num};
use xdf_model::{Shape, Stamp, Why};

// How many bytes a stamp takes with its first byte, or 0 where that is none.
fn stamp_width(tag: u8) -> usize
    ensures { result ≡ stamp_width tag }
{
    match tag {
        0 => 1,
        8 => 9,
        _ => 0,
    }
}

// The bytes behind a sample of numbers, which take so many bytes together.
fn behind_numbers<'a>(shape: &Shape, width: usize, bytes: &'a [u8]) -> Result<&'a [u8], WalkFault>
    requires numbers { 0 < size_of shape.now.format }
    requires width { width ≡ shape.now.count * size_of shape.now.format }
    requires small { width < 2 ^ 20 }
    ensures { Leaves (λ r. r.now) result (rest_of (whole_sample_at shape.now bytes.now)) }
{
    let [tag, ..] = bytes else {
        return Err(wrong(bytes.len(), Why::SamplesShort));
    };
    let front = stamp_width(*tag);
    if front == 0 {
        return Err(wrong(bytes.len(), Why::BadStampWidth));
    }
    if bytes.len() < front + width {
        return Err(wrong(bytes.len(), Why::SamplesShort));
    }
    Ok(&bytes[front + width..])
}

// Goes past samples of numbers that have no stamp, as many as stand at the front, at most so many; and
// counts them. A processor guesses that the next byte is 0 too, so it doesn't wait for each.
fn pass_plain<'a>(shape: &Shape, width: usize, count: u64, bytes: &'a [u8]) -> (u64, &'a [u8])
    requires numbers { 0 < size_of shape.now.format }
    requires width { width ≡ shape.now.count * size_of shape.now.format }
    requires small { width < 2 ^ 20 }
    ensures few { result.0 ≤ count }
    ensures same { rest_of (many_at (whole_sample_at shape.now) count bytes.now) ≡ rest_of (many_at (whole_sample_at shape.now) (count - result.0) result.1.now) }
{
    let mut rest = bytes;
    for i in 0..count {
        if rest.len() <= width || rest[0] != 0 {
            return (i, rest);
        }
        rest = &rest[1 + width..];
    }
    (count, rest)
}

fn walk_numbers<'a>(
    shape: &Shape,
    width: usize,
    count: u64,
    bytes: &'a [u8],
) -> Result<&'a [u8], WalkFault>
    requires numbers { 0 < size_of shape.now.format }
    requires width { width ≡ shape.now.count * size_of shape.now.format }
    requires small { width < 2 ^ 20 }
    ensures { Leaves (λ r. r.now) result (rest_of (samples_at shape.now count bytes.now)) }
{
    let mut rest = bytes;
    let mut left = count;
    while left > 0 {
        let (plain, behind) = pass_plain(shape, width, left, rest);
        left -= plain;
        rest = behind;
        if left > 0 {
            rest = behind_numbers(shape, width, rest)?;
            left -= 1;
        }
    }
    Ok(rest)
}

// The bytes behind a stamp.
fn behind_stamp(bytes: &[u8]) -> Result<&[u8], WalkFault>
    ensures { Leaves (λ r. r.now) result (rest_of (stamp_at bytes.now)) }
{
    let [tag, ..] = bytes else {
        return Err(WalkFault::Outside);
    };
    let front = stamp_width(*tag);
    if front == 0 {
        return Err(wrong(bytes.len(), Why::BadStampWidth));
    }
    if bytes.len() < front {
        return Err(WalkFault::Outside);
    }
    Ok(&bytes[front..])
}

/// A stamp, and the bytes behind it.
#[tactic(auto, unfolding(xdf_model::specs::Sample::stamp_at, xdf_model::specs::Reading::number_at, xdf_model::specs::Reading::front_at))]
pub(crate) fn read_stamp(bytes: &[u8]) -> Result<(Stamp, &[u8]), WalkFault>
    ensures { Finds (λ x. (x.0, x.1.now)) result (stamp_at bytes.now) }
{
    match bytes {
        [] => Err(WalkFault::Outside),
        [0, rest @ ..] => Ok((Stamp::None, rest)),
        [8, rest @ ..] => {
            if rest.len() < 8 {
                return Err(WalkFault::Outside);
            }
            let (front, after) = rest.split_at(8);
            Ok((Stamp::Bits(LittleEndian::read_u64(front)), after))
        }
        [_, ..] => Err(wrong(bytes.len(), Why::BadStampWidth)),
    }
}

/// A length, and the bytes behind it.
#[tactic(auto, unfolding(xdf_model::specs::Reading::length_at))]
pub(crate) fn read_length(bytes: &[u8]) -> Result<(u64, &[u8]), WalkFault>
    ensures { Finds (λ x. (x.0, x.1.now)) result (length_at bytes.now) }
{
    match read_num(bytes) {
        NumRead::Read { value, used } => Ok((value, &bytes[used..])),
        NumRead::Short => Err(WalkFault::Outside),
        NumRead::BadWidth(_) => Err(wrong(bytes.len(), Why::BadWidth)),
    }
}

// The bytes behind a text whose length has any width.
fn behind_long_text(bytes: &[u8]) -> Result<&[u8], WalkFault>
    ensures { Leaves (λ r. r.now) result (rest_of (text_at bytes.now)) }
{
    let (len, rest) = read_length(bytes)?;
    if (rest.len() as u64) < len {
        return Err(WalkFault::Outside);
    }
    Ok(&rest[len as usize..])
}

// The bytes behind a text. Most lengths have the width 1.
fn behind_text(bytes: &[u8]) -> Result<&[u8], WalkFault>
    ensures { Leaves (λ r. r.now) result (rest_of (text_at bytes.now)) }
{
    if bytes.len() >= 2 && bytes[0] == 1 {
        let end = 2 + bytes[1] as usize;
        if end <= bytes.len() {
            return Ok(&bytes[end..]);
        }
    }
    behind_long_text(bytes)
}

// The bytes behind so many texts.
fn behind_texts(count: u16, bytes: &[u8]) -> Result<&[u8], WalkFault>
    ensures { Leaves (λ r. r.now) result (rest_of (many_at text_at count bytes.now)) }
{
    let mut rest = bytes;
    for _ in 0..count {
        rest = behind_text(rest)?;
    }
    Ok(rest)
}

// The bytes behind a sample of texts.
fn behind_text_sample<'a>(shape: &Shape, bytes: &'a [u8]) -> Result<&'a [u8], WalkFault>
    requires texts { size_of shape.now.format ≡ 0 }
    ensures { Leaves (λ r. r.now) result (rest_of (sample_at shape.now bytes.now)) }
{
    let rest = behind_stamp(bytes)?;
    behind_texts(shape.count, rest)
}

// The same, where a sample that passes the end is told at its first byte.
fn behind_whole<'a>(shape: &Shape, bytes: &'a [u8]) -> Result<&'a [u8], WalkFault>
    requires texts { size_of shape.now.format ≡ 0 }
    ensures { Leaves (λ r. r.now) result (rest_of (whole_sample_at shape.now bytes.now)) }
{
    match behind_text_sample(shape, bytes) {
        Err(WalkFault::Outside) => Err(wrong(bytes.len(), Why::SamplesShort)),
        other => other,
    }
}

fn walk_texts<'a>(shape: &Shape, count: u64, bytes: &'a [u8]) -> Result<&'a [u8], WalkFault>
    requires texts { size_of shape.now.format ≡ 0 }
    ensures { Leaves (λ r. r.now) result (rest_of (samples_at shape.now count bytes.now)) }
{
    let mut rest = bytes;
    for _ in 0..count {
        rest = behind_whole(shape, rest)?;
    }
    Ok(rest)
}

/// The bytes behind one sample, or the first fault.
pub(crate) fn behind_sample<'a>(shape: &Shape, bytes: &'a [u8]) -> Result<&'a [u8], WalkFault>
    ensures { Leaves (λ r. r.now) result (rest_of (whole_sample_at shape.now bytes.now)) }
{
    let size = size_of_format(shape.format);
    if size == 0 {
        return behind_whole(shape, bytes);
    }
    behind_numbers(shape, shape.count as usize * size as usize, bytes)
}

/// The bytes behind so many samples of a shape, or the first fault. Each byte is looked at once at
/// most, numbers are passed by, and no memory is taken. Numbers have their lowest byte first (XDF 1.0,
/// "Samples chunk").
///
/// By rules that are this project's own, `Wrong` tells a sample that passes the end of the bytes at
/// its first byte (`Why::SamplesShort`), a first byte that is neither 0 nor 8
/// (`Why::BadStampWidth`), and a text's width byte that is none of 1, 4 and 8 (`Why::BadWidth`).
pub fn walk_samples<'a>(shape: &Shape, count: u64, bytes: &'a [u8]) -> Result<&'a [u8], WalkFault>
    ensures { Leaves (λ r. r.now) result (rest_of (samples_at shape.now count bytes.now)) }
{
    let size = size_of_format(shape.format);
    if size == 0 {
        return walk_texts(shape, count, bytes);
    }
    walk_numbers(shape, shape.count as usize * size as usize, count, bytes)
}
