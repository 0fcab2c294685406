ghost use Rattle.std.specs.Prelude.{◌≡◌, ◌≤◌, ◌+◌, ◌*◌, ◌++◌, length, take, drop, IsTrue};
ghost use Rattle.byteorder.specs.Endian.{little_bytes, big_number};
ghost use Rattle.sample_pool.specs.Numbers.{reversed, is_number_size};

use byteorder::{BigEndian, ByteOrder, LittleEndian};

// A read and a write of a fixed size are one load and one store; of a size that isn't constant they
// are a call of memmove for each number. So each size has its own loop.

// Copies the number of 2 bytes at a place, from its other end.
fn reverse_two(at: usize, from: &[u8], to: &mut [u8])
    requires from { at + 2 ≤ length from.now }
    requires to { at + 2 ≤ length to.old }
    ensures len { length to.new ≡ length to.old }
    ensures front { take (at + 2) to.new ≡ take at to.old ++ little_bytes 2 (big_number 2 (drop at from.now)) }
{
    let number = BigEndian::read_u16(&from[at..at + 2]);
    LittleEndian::write_u16(&mut to[at..at + 2], number);
}

// Copies numbers of 2 bytes, each from its other end.
fn reverse_twos(count: usize, from: &[u8], to: &mut [u8])
    requires from { 2 * count ≡ length from.now }
    requires to { 2 * count ≡ length to.old }
    ensures { to.new ≡ reversed 2 count from.now }
{
    'numbers: for i in 0..count {
        reverse_two(2 * i, from, to);
    }
}

// Copies the number of 4 bytes at a place, from its other end.
fn reverse_four(at: usize, from: &[u8], to: &mut [u8])
    requires from { at + 4 ≤ length from.now }
    requires to { at + 4 ≤ length to.old }
    ensures len { length to.new ≡ length to.old }
    ensures front { take (at + 4) to.new ≡ take at to.old ++ little_bytes 4 (big_number 4 (drop at from.now)) }
{
    let number = BigEndian::read_u32(&from[at..at + 4]);
    LittleEndian::write_u32(&mut to[at..at + 4], number);
}

// Copies numbers of 4 bytes, each from its other end.
fn reverse_fours(count: usize, from: &[u8], to: &mut [u8])
    requires from { 4 * count ≡ length from.now }
    requires to { 4 * count ≡ length to.old }
    ensures { to.new ≡ reversed 4 count from.now }
{
    'numbers: for i in 0..count {
        reverse_four(4 * i, from, to);
    }
}

// Copies the number of 8 bytes at a place, from its other end.
fn reverse_eight(at: usize, from: &[u8], to: &mut [u8])
    requires from { at + 8 ≤ length from.now }
    requires to { at + 8 ≤ length to.old }
    ensures len { length to.new ≡ length to.old }
    ensures front { take (at + 8) to.new ≡ take at to.old ++ little_bytes 8 (big_number 8 (drop at from.now)) }
{
    let number = BigEndian::read_u64(&from[at..at + 8]);
    LittleEndian::write_u64(&mut to[at..at + 8], number);
}

// Copies numbers of 8 bytes, each from its other end.
fn reverse_eights(count: usize, from: &[u8], to: &mut [u8])
    requires from { 8 * count ≡ length from.now }
    requires to { 8 * count ≡ length to.old }
    ensures { to.new ≡ reversed 8 count from.now }
{
    'numbers: for i in 0..count {
        reverse_eight(8 * i, from, to);
    }
}

// The same for every size that a format has. A number of one byte has no other end.
pub(crate) fn reverse_numbers(size: usize, count: usize, from: &[u8], to: &mut [u8])
    requires size { IsTrue (is_number_size size) }
    requires from { size * count ≡ length from.now }
    requires to { size * count ≡ length to.old }
    ensures { to.new ≡ reversed size count from.now }
{
    match size {
        2 => reverse_twos(count, from, to),
        4 => reverse_fours(count, from, to),
        8 => reverse_eights(count, from, to),
        _ => to.copy_from_slice(from),
    }
}
