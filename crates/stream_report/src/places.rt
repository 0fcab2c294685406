//! Hexadecimal digits, written into places that are there before.

ghost use Rattle.std.specs.Prelude.{◌≡◌, ◌*◌, length, IsAscii};
ghost use Rattle.std.specs.List.{flat_map};
ghost use Rattle.report_model.specs.Lines.{hex_digits};

// The two digits of each byte, the higher first.
static PAIRS: [u8; 512] =
    *b"000102030405060708090a0b0c0d0e0f101112131415161718191a1b1c1d1e1f202122232425262728292a2b2c2d2e2f303132333435363738393a3b3c3d3e3f404142434445464748494a4b4c4d4e4f505152535455565758595a5b5c5d5e5f606162636465666768696a6b6c6d6e6f707172737475767778797a7b7c7d7e7f808182838485868788898a8b8c8d8e8f909192939495969798999a9b9c9d9e9fa0a1a2a3a4a5a6a7a8a9aaabacadaeafb0b1b2b3b4b5b6b7b8b9babbbcbdbebfc0c1c2c3c4c5c6c7c8c9cacbcccdcecfd0d1d2d3d4d5d6d7d8d9dadbdcdddedfe0e1e2e3e4e5e6e7e8e9eaebecedeeeff0f1f2f3f4f5f6f7f8f9fafbfcfdfeff";

// The two digits of the lowest byte of a number.
#[inline(always)]
fn put_two(out: &mut [u8], number: u64)
    requires { length out.old ≡ 2 }
    ensures { out.new ≡ hex_digits 2 number }
{
    let from = 2 * (number % 256) as usize;
    let (high, low) = (PAIRS[from], PAIRS[from + 1]);
    out[0] = high;
    out[1] = low;
}

#[inline(always)]
fn put_four(out: &mut [u8], number: u64)
    requires { length out.old ≡ 4 }
    ensures { out.new ≡ hex_digits 4 number }
{
    let (front, back) = out.split_at_mut(2);
    put_two(front, number >> 8);
    put_two(back, number);
}

/// Writes the last eight digits of a number, the highest first.
#[inline(always)]
pub(crate) fn put_eight(out: &mut [u8], number: u64)
    requires { length out.old ≡ 8 }
    ensures digits { out.new ≡ hex_digits 8 number }
    ensures ascii { IsAscii out.new }
{
    let (front, back) = out.split_at_mut(4);
    put_four(front, number >> 16);
    put_four(back, number);
}

/// Writes two digits for each byte.
pub(crate) fn put_bytes(out: &mut [u8], bytes: &[u8])
    requires { length out.old ≡ 2 * length bytes.now }
    ensures digits { out.new ≡ flat_map (hex_digits 2) bytes.now }
    ensures ascii { IsAscii out.new }
{
    for i in 0..bytes.len() {
        put_two(&mut out[2 * i..2 * i + 2], bytes[i] as u64);
    }
}
