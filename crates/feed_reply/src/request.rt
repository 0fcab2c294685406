//! The request.

ghost use Rattle.std.specs.Prelude.{◌≡◌, ◌++◌, OnOk, OnErr};
ghost use Rattle.sample_values.specs.View.{KeepsFront};
ghost use Rattle.reply_model.specs.Request.{request_bytes};

use rec_base::Memory;
use sample_values::size_of_format;
use xdf_model::Shape;

// The parts of the request, for which room is made first.
#[tactic(auto, unfolding(reply_model::specs::Request::request_bytes))]
fn put_parts(uid: &[u8], shape: &Shape, out: &mut Vec<u8>) -> Result<(), Memory>
    ensures ok { OnOk result (out.new.items ≡ out.old.items ++ request_bytes uid.now shape.now) }
    ensures kept { OnErr result (KeepsFront out.old.items out.new.items) }
{
    out.reserve(uid.len() + 185)?;
    out.extend_from_slice(b"LSL:streamfeed/110 ")?;
    out.extend_from_slice(uid)?;
    out.extend_from_slice(
        b"\r\nNative-Byte-Order: 1234\r\nHas-IEEE754-Floats: 1\r\nSupports-Subnormals: 1\r\nValue-Size: ",
    )?;
    out.push(b'0' + size_of_format(shape.format))?;
    out.extend_from_slice(
        b"\r\nData-Protocol-Version: 110\r\nMax-Buffer-Length: 36000\r\nMax-Chunk-Length: 0\r\n\r\n",
    )?;
    Ok(())
}

/// Appends the request for the feed of an outlet to `out` (LSL, `streamfeed` with data protocol
/// 1.10): the request line with the stream's uid, seven header lines and an empty line, each with
/// CR LF. Which header lines are sent, and their values, are this project's own.
///
/// They say that numbers are wanted with the lowest byte first, as IEEE 754 has them and with
/// subnormals, and how many bytes a value has, 0 for texts; and they ask for data protocol 1.10.
///
/// `Memory` comes for want of memory alone, and leaves what `out` holds as it was. `out` grows at
/// most once.
pub fn request_text(uid: &[u8], shape: &Shape, out: &mut Vec<u8>) -> Result<(), Memory>
    ensures ok { OnOk result (out.new.items ≡ out.old.items ++ request_bytes uid.now shape.now) }
    ensures memory { OnErr result (out.new.items ≡ out.old.items) }
{
    let start = out.len();
    let put = put_parts(uid, shape, out);
    if put.is_err() {
        out.truncate(start);
        return Err(Memory);
    }
    Ok(())
}
