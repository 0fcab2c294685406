ghost use Rattle.std.specs.Prelude.{◌≡◌, ◌<◌, ◌^◌, IsTrue};
ghost use Rattle.byteorder.specs.Endian.{big_number, little_bytes};
ghost use Rattle.sample_values.specs.Sizes.{is_number_size};

use byteorder::{BigEndian, ByteOrder};

/// The number that the bytes of a number spell from the other end. A number of a feed whose byte
/// order isn't this machine's becomes the number that was meant (this project's own; a feed's byte
/// order is what its outlet answered).
///
/// `size` is the number of bytes. Reversing twice changes nothing.
pub fn reverse_value(size: u8, bits: u64) -> u64
    requires size { IsTrue (is_number_size size) }
    requires fits { bits < 256 ^ size }
    ensures reversed { result ≡ big_number size (little_bytes size bits) }
    ensures fits { result < 256 ^ size }
    ensures back { big_number size (little_bytes size result) ≡ bits }
{
    let text = bits.to_le_bytes();
    match size {
        1 => bits,
        2 => BigEndian::read_u16(&text) as u64,
        4 => BigEndian::read_u32(&text) as u64,
        _ => BigEndian::read_u64(&text),
    }
}
