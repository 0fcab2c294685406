//! XDF's variable-length integers: a width byte of 1, 4 or 8, and then a number in so many bytes, the
//! lowest first (XDF 1.0, "Variable-Length Integers").
//!
//! This crate reads one, sizes one and appends one; it also appends a number in a fixed number of
//! bytes. It promises that reading accepts every width and tells each fault exactly, and that what is
//! appended has the least width. Each byte of a number is copied once.
#![tactic(auto)]

ghost use Rattle.std.specs.Prelude.{◌≡◌, ◌++◌, ◌<◌, ◌≤◌, ◌^◌, ℕ, length, OnOk, OnErr};
ghost use Rattle.byteorder.specs.Endian.{little_bytes};
ghost use Rattle.xdf_model.specs.Varlen.{varlen_at, least_varlen, least_width};

use byteorder::{ByteOrder, LittleEndian};
use std::alloc::AllocError;
pub use xdf_model::NumRead;

/// What stands at the front of some bytes as a variable-length integer: a number of any of the three
/// widths, also where a smaller one would do, and how many bytes it takes with its width byte, 2 to 9.
///
/// `Short` says that a byte that is needed isn't there, and comes also where there is no byte at all.
/// `BadWidth` says that the first byte is none of 1, 4 and 8. Bytes behind the number don't matter.
#[tactic(auto, unfolding(xdf_model::specs::Varlen::varlen_at))]
pub fn read_num(bytes: &[u8]) -> NumRead
    ensures exact { result ≡ varlen_at bytes.now }
    ensures within { (value used : ℕ) → result ≡ NumRead.Read value used → used ≤ length bytes.now }
    ensures short { (value used : ℕ) → result ≡ NumRead.Read value used → used ≤ 9 }
{
    match bytes {
        [] => NumRead::Short,
        [width, rest @ ..] => {
            let width = *width;
            if width == 1 || width == 4 || width == 8 {
                if rest.len() < width as usize {
                    return NumRead::Short;
                }
                NumRead::Read {
                    value: LittleEndian::read_uint(rest, width as usize),
                    used: width as usize + 1,
                }
            } else {
                NumRead::BadWidth(width)
            }
        }
    }
}

/// The least width that a number fits, in bytes: 1, 4 or 8. The width byte stands before them.
pub fn num_size(n: u64) -> u8
    ensures { result ≡ least_width n }
{
    if n < 256 {
        1
    } else if n < 4_294_967_296 {
        4
    } else {
        8
    }
}

/// Appends a number with the least width, the width byte first and the lowest byte next.
///
/// An `Err` comes for want of memory alone, and leaves what `out` holds as it was.
#[tactic(auto, unfolding(xdf_model::specs::Varlen::least_varlen))]
pub fn put_num(n: u64, out: &mut Vec<u8>) -> Result<(), AllocError>
    ensures ok { OnOk result (out.new.items ≡ out.old.items ++ least_varlen n) }
    ensures memory { OnErr result (out.new.items ≡ out.old.items) }
{
    let width = num_size(n);
    let mut text = [0u8; 9];
    text[0] = width;
    LittleEndian::write_uint(&mut text[1..], n, width as usize);
    out.extend_from_slice(&text[..width as usize + 1])
}

/// Appends a number in a fixed number of bytes, 1 to 8, the lowest byte first.
///
/// An `Err` comes for want of memory alone, and leaves what `out` holds as it was.
pub fn put_fixed(size: u8, n: u64, out: &mut Vec<u8>) -> Result<(), AllocError>
    requires low { 1 ≤ size }
    requires high { size ≤ 8 }
    requires fits { n < 256 ^ size }
    ensures ok { OnOk result (out.new.items ≡ out.old.items ++ little_bytes size n) }
    ensures memory { OnErr result (out.new.items ≡ out.old.items) }
{
    let mut text = [0u8; 8];
    LittleEndian::write_uint(&mut text, n, size as usize);
    out.extend_from_slice(&text[..size as usize])
}

#[cfg(test)]
mod tests {
    use super::*;
    use std::test::Fail;

    #[test]
    fn worked_cases(rt: HostRuntime) -> Result<(), Fail> {
        let of_58 = |used| NumRead::Read { value: 58, used };
        for (bytes, want) in [
            ([1, 58].as_slice(), of_58(2)),
            ([4, 58, 0, 0, 0].as_slice(), of_58(5)),
            ([8, 58, 0, 0, 0, 0, 0, 0, 0, 7].as_slice(), of_58(9)),
            ([2].as_slice(), NumRead::BadWidth(2)),
            ([4, 0, 0].as_slice(), NumRead::Short),
            ([].as_slice(), NumRead::Short),
        ] {
            assert_eq!(rt; read_num(bytes), want, "at {bytes:?}");
        }
        for (n, size) in [(255, 1), (256, 4), (4_294_967_295, 4), (4_294_967_296, 8)] {
            assert_eq!(rt; num_size(n), size, "at {n}");
        }
        let mut out = [7].to_vec(rt.alloc())?;
        put_num(58, &mut out)?;
        put_fixed(2, 0x1A2B, &mut out)?;
        assert_eq!(rt; out.as_slice(), [7, 1, 58, 0x2B, 0x1A].as_slice());
        Ok(())
    }
}
