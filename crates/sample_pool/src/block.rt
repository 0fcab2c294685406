ghost use Rattle.std.specs.Prelude.{◌≡◌, ◌≤◌, ◌+◌, ◌*◌, ◌++◌, [], length, IfOk, IsTrue};
ghost use Rattle.sample_pool.specs.Numbers.{reversed, is_number_size};

use crate::reverse::reverse_numbers;
use rec_base::Memory;
use std::alloc::Global;
use std::marker::Model;

/// A fixed number of places, one byte each, of which the first hold a sample's text as the file has
/// it. This project's own.
#[derive(Debug, Drop)]
pub struct Block {
    places: Vec<u8>,
    end: usize,
}

impl Model for Block {
    ghost use Rattle.std.specs.Prelude.{◌≤◌, length, take};
    ghost use Rattle.sample_pool.specs.Block.{BlockValue};

    ghost Value = { BlockValue };

    ghost view = { λ b. record { length = length b.places.items; bytes = take b.end b.places.items } };

    ghost invariant = { λ b. b.end ≤ length b.places.items };
}

/// Makes a block of so many places that holds no bytes. All its memory is taken here.
///
/// `Memory` comes for want of memory alone.
pub fn new_block(alloc: Global, length: usize) -> Result<Block, Memory>
    ensures { IfOk result (λ b. b ≡ record { length = length; bytes = [] }) }
{
    let mut places = Vec::new(alloc);
    places.resize(length, 0)?;
    Ok(Block { places, end: 0 })
}

/// The bytes that a block holds, in the order in which they were put there.
pub fn block_bytes(block: &Block) -> &[u8]
    ensures { result.now ≡ block.now.bytes }
{
    &block.places[..block.end]
}

/// How many places a block has, so how many bytes it can hold.
pub fn block_length(block: &Block) -> usize
    ensures { result ≡ block.now.length }
{
    block.places.len()
}

/// Empties a block for its next sample. Its places stay.
pub fn clear_block(block: &mut Block)
    ensures { block.new ≡ record { length = block.old.length; bytes = [] } }
{
    block.end = 0;
}

/// Appends bytes to those that a block holds, as they are. It takes no memory.
pub fn fill_block(block: &mut Block, bytes: &[u8])
    requires { length block.old.bytes + length bytes.now ≤ block.old.length }
    ensures { block.new ≡ record { length = block.old.length; bytes = block.old.bytes ++ bytes.now } }
{
    let end = block.end + bytes.len();
    block.places[block.end..end].copy_from_slice(bytes);
    block.end = end;
}

/// Appends `count` numbers of `size` bytes each, which come with the highest byte first, with the
/// lowest byte first, as XDF 1.0 has them in its "Samples chunk". It takes no memory.
pub fn fill_reversed(block: &mut Block, size: usize, count: usize, bytes: &[u8])
    requires size { IsTrue (is_number_size size) }
    requires exact { size * count ≡ length bytes.now }
    requires room { length block.old.bytes + length bytes.now ≤ block.old.length }
    ensures filled { block.new ≡ record { length = block.old.length; bytes = block.old.bytes ++ reversed size count bytes.now } }
    ensures len { length block.new.bytes ≡ length block.old.bytes + length bytes.now }
{
    let end = block.end + bytes.len();
    reverse_numbers(size, count, bytes, &mut block.places[block.end..end]);
    block.end = end;
}
