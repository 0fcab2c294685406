//! The reply.

ghost use Rattle.std.specs.Prelude.{◌≡◌, ◌≤◌, ◌+◌, ℕ, Option, List, length, drop};
ghost use Rattle.std.specs.Option.{option_copied};
ghost use Rattle.reply_model.specs.Lines.{lines_in};
ghost use Rattle.reply_model.specs.Reply.{last_of, header, accepts_uid, accepts_protocol, order_of, accepts_subnormals, agreed, reply_in};
ghost use Rattle.feed_reply.specs.Views.{seen, IsUsedWithin};

use crate::header::read_value;
use crate::lines::line_length;
use crate::scan::ReplyScan;
use feed_model::Order;
use reply_model::{Refusal, ReplyStep, ReplyWhy};

// The last line of a name from a place on, and its value.
fn find_last<'a>(name: &[u8], start: usize, bytes: &'a [u8]) -> Option<(usize, &'a [u8])>
    requires { start ≤ length bytes.now }
    ensures { seen result ≡ last_of name.now start (lines_in (drop start bytes.now)) }
{
    let mut found = None;
    let mut at = start;
    while let Some(size) = line_length(&bytes[at..]) {
        if size == 0 {
            return found;
        }
        if let Some(value) = read_value(name, &bytes[at..at + size]) {
            found = Some((at, value));
        }
        at += size + 2;
    }
    found
}

// The last header line of a name, and its value.
fn find_header<'a>(name: &[u8], bytes: &'a [u8]) -> Option<(usize, &'a [u8])>
    ensures { seen result ≡ header name.now (lines_in bytes.now) }
{
    match line_length(bytes) {
        Some(size) => find_last(name, size + 2, bytes),
        None => None,
    }
}

fn judge_uid(uid: Option<&[u8]>, found: Option<(usize, &[u8])>) -> Result<(), Refusal>
    ensures { result ≡ accepts_uid (option_copied uid.entry) (seen found.entry) }
{
    if let (Some(uid), Some((at, value))) = (uid, found)
        && value != uid
    {
        let why = ReplyWhy::WrongUid;
        return Err(Refusal { at, why });
    }
    Ok(())
}

fn judge_protocol(empty: usize, found: Option<(usize, &[u8])>) -> Result<(), Refusal>
    ensures { result ≡ accepts_protocol empty (seen found.entry) }
{
    let why = ReplyWhy::OldProtocol;
    match found {
        None => Err(Refusal { at: empty, why }),
        Some((at, value)) => {
            if value == b"110".as_slice() {
                Ok(())
            } else {
                Err(Refusal { at, why })
            }
        }
    }
}

fn read_order(empty: usize, found: Option<(usize, &[u8])>) -> Result<Order, Refusal>
    ensures { result ≡ order_of empty (seen found.entry) }
{
    let Some((at, value)) = found else {
        let why = ReplyWhy::NoOrder;
        return Err(Refusal { at: empty, why });
    };
    if value == b"1234".as_slice() {
        Ok(Order::Little)
    } else if value == b"4321".as_slice() {
        Ok(Order::Big)
    } else {
        let why = ReplyWhy::BadOrder;
        Err(Refusal { at, why })
    }
}

fn judge_subnormals(found: Option<(usize, &[u8])>) -> Result<(), Refusal>
    ensures { result ≡ accepts_subnormals (seen found.entry) }
{
    let Some((at, value)) = found else {
        return Ok(());
    };
    if value == b"0".as_slice() {
        return Ok(());
    }
    let why = ReplyWhy::Subnormals;
    Err(Refusal { at, why })
}

/// What the header agrees to, whose empty line is there.
#[tactic(auto, unfolding(reply_model::specs::Reply::agreed))]
pub(crate) fn read_agreed(uid: Option<&[u8]>, empty: usize, bytes: &[u8]) -> Result<Order, Refusal>
    ensures { result ≡ agreed (option_copied uid.entry) empty (lines_in bytes.now) }
{
    judge_uid(uid, find_header(b"UID", bytes))?;
    judge_protocol(empty, find_header(b"Data-Protocol-Version", bytes))?;
    let order = read_order(empty, find_header(b"Byte-Order", bytes))?;
    judge_subnormals(find_header(b"Suppress-Subnormals", bytes))?;
    Ok(order)
}

/// What some bytes are as the front of an outlet's reply (LSL, reply to `streamfeed`). How a header
/// line is divided, which of them count, the limits and the refusals with their order and places are
/// this project's own.
///
/// A line ends at its first CR LF; a lone CR or LF is a byte of the line. The first line is the
/// status line, and the reply ends with the first empty line behind it. Lines are judged one after
/// the other, each once it is complete:
///
/// - `LineTooLong`: a line has more than 4096 bytes. It is told as soon as 4098 bytes are there
///   without a line end among them.
/// - The status line is `LSL/`, the version, one space, the code, and nothing or a space and any
///   bytes; version and code have 1 to 9 digits. Otherwise it is `Malformed`. `VersionTooNew`: the
///   version is 200 or above. `NotFound`: the code is 404. `PeerError`: it is another one of 400 or
///   above. `Redirect`: it is 300 to 399.
/// - `TooManyLines`: a line that isn't empty is the 65th.
///
/// The name of a header line stands before its first colon and its value behind it, up to the first
/// `;`, both without spaces and tabs around them. The case of a name doesn't count, the last line of
/// a name counts, and lines without a colon or with another name are passed over. Once the empty
/// line is there, in this order:
///
/// - `WrongUid`: a uid is asked for, `UID` is told, and it is another one.
/// - `OldProtocol`: `Data-Protocol-Version` isn't told as `110`.
/// - `NoOrder`: `Byte-Order` isn't told. `BadOrder`: it is neither `1234` nor `4321`.
/// - `Subnormals`: `Suppress-Subnormals` is told and isn't `0`.
///
/// The place of a refusal is the first byte of the line that counts, or of the empty line where the
/// line isn't there. `More` comes exactly where no empty line is there yet and nothing is refused;
/// the other answers stay the same for every longer input (`more_bytes_change_nothing`).
pub fn read_reply(bytes: &[u8], uid: Option<&[u8]>) -> ReplyStep
    ensures answer { result ≡ reply_in (option_copied uid.entry) bytes.now }
    ensures within { IsUsedWithin (length bytes.now) result }
{
    ReplyScan::new().read(bytes, uid)
}
