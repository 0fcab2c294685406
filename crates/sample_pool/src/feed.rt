ghost use Rattle.std.specs.Prelude.{◌≡◌, ◌≤◌, ◌+◌, ◌*◌, ◌++◌, length, IsTrue, IfSome, None};
ghost use Rattle.std.specs.List.{flat_map};
ghost use Rattle.xdf_model.specs.Sample.{least_value_text, size_of};
ghost use Rattle.feed_model.specs.FeedReading.{feed_sample_at};
ghost use Rattle.sample_pool.specs.Numbers.{numbers_in, is_number_size};
ghost use Rattle.sample_pool.specs.Fills.{Fills};

use crate::block::{Block, clear_block, fill_block, fill_reversed};
use feed_model::Order;
use xdf_model::{Format, Shape};

/// What stands at the front of some bytes of a feed of numbers (LSL data protocol 1.10).
#[derive(Clone, Copy, Debug, PartialEq, Eq)]
pub enum BlockRead {
    /// A sample, whose text is in the block. It takes the first `used` bytes, its tag among them.
    Whole { used: usize },
    /// The bytes end before the sample does.
    Short,
    /// The byte at `at`, counted from 0, should be a tag and is neither 1 nor 2.
    BadTag { at: usize, byte: u8 },
}

// How many bytes a number takes, and 0 for texts.
fn number_size(format: Format) -> usize
    ensures size { result ≡ size_of format }
    ensures small { result ≤ 8 }
{
    match format {
        Format::Float32 => 4,
        Format::Double64 => 8,
        Format::Text => 0,
        Format::Int32 => 4,
        Format::Int16 => 2,
        Format::Int8 => 1,
        Format::Int64 => 8,
    }
}

// Appends so many numbers of a feed, each with its lowest byte first.
fn fill_numbers(block: &mut Block, order: Order, size: usize, count: usize, bytes: &[u8])
    requires size { IsTrue (is_number_size size) }
    requires exact { size * count ≡ length bytes.now }
    requires room { length block.old.bytes + length bytes.now ≤ block.old.length }
    ensures length { block.new.length ≡ block.old.length }
    ensures len { length block.new.bytes ≡ length block.old.bytes + length bytes.now }
    ensures bytes { block.new.bytes ≡ block.old.bytes ++ flat_map (least_value_text size) (numbers_in order size count bytes.now) }
{
    match order {
        Order::Little => fill_block(block, bytes),
        Order::Big => fill_reversed(block, size, count, bytes),
    }
}

/// Reads the sample at the front of some bytes of a feed of numbers into a block, as the text that it
/// has in a file. It takes no memory, and copies each number's bytes once.
///
/// The numbers of the feed have the order that the outlet's reply named; those of the text have the
/// lowest byte first. The feed's tag, 1 for a sample without a stamp and 2 for one with a stamp,
/// becomes the number of the stamp's bytes, 0 or 8. Sources: LSL data protocol 1.10, and XDF 1.0,
/// "Samples chunk".
pub fn block_from_feed(shape: &Shape, order: Order, bytes: &[u8], block: &mut Block) -> BlockRead
    requires numeric { 1 ≤ size_of shape.now.format }
    requires room { 9 + shape.now.count * size_of shape.now.format ≤ block.old.length }
    ensures fills { Fills shape.now bytes.now block.new.bytes result (feed_sample_at shape.now order bytes.now) }
    ensures length { block.new.length ≡ block.old.length }
{
    let size = number_size(shape.format);
    let count = shape.count as usize;
    let values = size * count;
    if bytes.is_empty() {
        return BlockRead::Short;
    }
    let tag = bytes[0];
    if tag == 1 {
        if bytes.len() < 1 + values {
            return BlockRead::Short;
        }
        clear_block(block);
        fill_block(block, &[0]);
        fill_numbers(block, order, size, count, &bytes[1..1 + values]);
        BlockRead::Whole { used: 1 + values }
    } else if tag == 2 {
        if bytes.len() < 9 + values {
            return BlockRead::Short;
        }
        clear_block(block);
        fill_block(block, &[8]);
        fill_numbers(block, order, 8, 1, &bytes[1..9]);
        fill_numbers(block, order, size, count, &bytes[9..9 + values]);
        BlockRead::Whole { used: 9 + values }
    } else {
        BlockRead::BadTag { at: 0, byte: tag }
    }
}

/// How many bytes the longest text of a sample of numbers has (XDF 1.0, "Samples chunk"): one for the
/// length of the stamp, 8 for the stamp, and the size of a value for each channel. `None` comes where
/// the values are texts.
pub fn text_room(shape: &Shape) -> Option<usize>
    ensures numbers { IfSome result (λ n. (1 ≤ size_of shape.now.format) × (n ≡ 9 + shape.now.count * size_of shape.now.format)) }
    ensures texts { result ≡ None → size_of shape.now.format ≡ 0 }
{
    let size = number_size(shape.format);
    let count = shape.count as usize;
    if size == 0 {
        return None;
    }
    Some(9 + size * count)
}
