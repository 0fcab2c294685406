//! Appends the bytes of a sample.

ghost use Rattle.std.specs.Prelude.{◌≡◌, ◌≤◌, ◌<◌, ◌^◌, ◌++◌, ◌∷◌, OnOk};
ghost use Rattle.xdf_model.specs.Sample.{size_of};
ghost use Rattle.feed_model.specs.Feed.{ordered_bytes, tag_text};
ghost use Rattle.drill_feeds.specs.Drill.{drill_format, drill_order, drill_sample, drill_stamp, drill_value, feed_sample_text, feed_value_text, letters, test_sample};

use crate::rule::{number_at, order_of};
use byteorder::{BigEndian, ByteOrder, LittleEndian};
use feed_model::Order;
use std::alloc::AllocError;

// A number in so many bytes, in the feed's order.
fn put_number(order: Order, size: usize, n: u64, out: &mut Vec<u8>) -> Result<(), AllocError>
    requires low { 1 ≤ size }
    requires high { size ≤ 8 }
    requires fits { n < 256 ^ size }
    ensures { OnOk result (out.new.items ≡ out.old.items ++ ordered_bytes order size n) }
{
    let mut text = [0u8; 8];
    match order {
        Order::Little => LittleEndian::write_uint(&mut text, n, size),
        Order::Big => BigEndian::write_uint(&mut text, n, size),
    }
    out.extend_from_slice(&text[..size])
}

// So many letters.
fn put_letters(first: u64, count: u8, out: &mut Vec<u8>) -> Result<(), AllocError>
    requires { first < 2 ^ 24 }
    ensures { OnOk result (out.new.items ≡ out.old.items ++ letters first count) }
{
    let mut next: u8 = 0;
    while next < count {
        out.push(97 + ((first + next as u64) % 26) as u8)?;
        next += 1;
    }
    Ok(())
}

// So many letters behind their number in one byte.
fn put_text(first: u64, count: u8, out: &mut Vec<u8>) -> Result<(), AllocError>
    requires { first < 2 ^ 24 }
    ensures { OnOk result (out.new.items ≡ out.old.items ++ 1 ∷ count ∷ letters first count) }
{
    out.extend_from_slice(&[1, count])?;
    put_letters(first, count, out)
}

// A tag, with the stamp where the sample has one.
fn put_tag(order: Order, position: u64, out: &mut Vec<u8>) -> Result<(), AllocError>
    requires { position ≤ 1_000_000 }
    ensures { OnOk result (out.new.items ≡ out.old.items ++ tag_text order (drill_stamp position)) }
{
    if position % 4 == 0 {
        out.push(2)?;
        return put_number(order, 8, 4_607_182_418_800_017_408 + position, out);
    }
    out.push(1)?;
    Ok(())
}

// The value of a channel.
fn put_value(
    samples: u64,
    id: u32,
    position: u64,
    channel: u64,
    out: &mut Vec<u8>,
) -> Result<(), AllocError>
    requires samples { samples ≤ 1_000_000 }
    requires position { position ≤ 1_000_000 }
    requires channel { channel ≤ 1 }
    ensures { OnOk result (out.new.items ≡ out.old.items ++ feed_value_text (drill_order id) (size_of (drill_format id)) (drill_value samples id position channel)) }
{
    let n = number_at(samples, id, position, channel);
    match id {
        1 => put_number(Order::Little, 2, n >> 48, out),
        2 => put_number(Order::Big, 8, n, out),
        _ => put_text(n >> 40, (position % 20) as u8, out),
    }
}

/// A sample of a feed.
pub(crate) fn put_sample(
    samples: u64,
    id: u32,
    position: u64,
    out: &mut Vec<u8>,
) -> Result<(), AllocError>
    requires samples { samples ≤ 1_000_000 }
    requires position { position ≤ 1_000_000 }
    ensures { OnOk result (out.new.items ≡ out.old.items ++ feed_sample_text (drill_order id) (size_of (drill_format id)) (drill_sample samples id position)) }
{
    put_tag(order_of(id), position, out)?;
    put_value(samples, id, position, 0, out)?;
    if id == 1 {
        put_value(samples, id, position, 1, out)?;
    }
    Ok(())
}

/// A test sample of a feed.
pub(crate) fn put_test(id: u32, out: &mut Vec<u8>) -> Result<(), AllocError>
    requires low { 1 ≤ id }
    requires high { id ≤ 3 }
    ensures { OnOk result (out.new.items ≡ out.old.items ++ feed_sample_text (drill_order id) (size_of (drill_format id)) (test_sample id)) }
{
    match id {
        1 => out.extend_from_slice(&[1, 0, 0, 0, 0]),
        2 => out.extend_from_slice(&[1, 0, 0, 0, 0, 0, 0, 0, 0]),
        _ => out.extend_from_slice(&[1, 1, 0]),
    }
}
