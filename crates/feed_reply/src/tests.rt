use super::*;
use xdf_model::Format;

const LITTLE_ENDIAN_REPLY: &str =
    "LSL/110 200 OK\r\nUID: u1\r\nByte-Order: 1234\r\nSuppress-Subnormals: 0\r\nData-Protocol-Version: 110\r\n\r\n";

const FREE_REPLY: &str =
    "LSL/110 200 OK\r\ndata-protocol-version:110\r\nX-Note: any\r\nbyte-order: 1234 ; native\r\n\r\n";

fn done(order: Order, used: usize) -> ReplyStep {
    let reply = Reply { order };
    ReplyStep::Done { reply, used }
}

fn refused(at: usize, why: ReplyWhy) -> ReplyStep {
    ReplyStep::Refused { at, why }
}

#[test]
fn a_reply_is_read_or_the_first_refusal_is_told(rt: HostRuntime) {
    for (text, uid, want) in [
        ("", None, ReplyStep::More),
        (FREE_REPLY, None, done(Order::Little, 85)),
        (LITTLE_ENDIAN_REPLY, None, done(Order::Little, 97)),
        (LITTLE_ENDIAN_REPLY, Some("u1"), done(Order::Little, 97)),
        (
            LITTLE_ENDIAN_REPLY,
            Some("u2"),
            refused(16, ReplyWhy::WrongUid),
        ),
        (
            "LSL/110 200 OK\r\nUID: u1\r\n\r\n",
            Some("u2"),
            refused(16, ReplyWhy::WrongUid),
        ),
        (
            "LSL/110 200 OK\r\nUID: u1\r\n\r\n",
            None,
            refused(25, ReplyWhy::OldProtocol),
        ),
        (
            "LSL/110 200 OK\r\nData-Protocol-Version: 110\r\n\r\n",
            None,
            refused(44, ReplyWhy::NoOrder),
        ),
        (
            "LSL/110 200 OK\r\nData-Protocol-Version: 110\r\nByte-Order: 2143\r\n\r\n",
            None,
            refused(44, ReplyWhy::BadOrder),
        ),
        (
            "LSL/110 200 OK\r\nData-Protocol-Version: 110\r\nByte-Order: 1234\r\nSuppress-Subnormals: 1\r\n\r\n",
            None,
            refused(62, ReplyWhy::Subnormals),
        ),
        (
            "LSL/110 200 OK\r\nData-Protocol-Version: 110\r\nByte-Order: 1234\r\nbyte-order:\t4321\r\n\r\n",
            None,
            done(Order::Big, 82),
        ),
    ] {
        let uid = uid.map(|uid: &str| uid.as_bytes());
        assert_eq!(rt; read_reply(text.as_bytes(), uid), want, "in {text}");
    }
    assert_eq!(rt;
        read_reply(&FREE_REPLY.as_bytes()[..84], None),
        ReplyStep::More
    );
}

// What a scan tells first but `More`, and of how many bytes, where one more byte comes at each call.
fn scanned(bytes: &[u8]) -> (usize, ReplyStep) {
    let mut scan = ReplyScan::new();
    for size in 0..bytes.len() {
        let step = scan.read(&bytes[..size], None);
        if step != ReplyStep::More {
            return (size, step);
        }
    }
    (bytes.len(), scan.read(bytes, None))
}

#[test]
fn a_reply_in_pieces_of_one_byte_is_told_with_its_last_byte(rt: HostRuntime) {
    for (text, want) in [
        (LITTLE_ENDIAN_REPLY, (97, done(Order::Little, 97))),
        (
            "LSL/110 404 Not found\r\nX",
            (23, refused(0, ReplyWhy::NotFound)),
        ),
    ] {
        assert_eq!(rt; scanned(text.as_bytes()), want, "in {text}");
    }
}

#[test]
fn a_status_line_is_judged_alone(rt: HostRuntime) {
    for (text, want) in [
        ("LSL/110 404 Not found\r\n", refused(0, ReplyWhy::NotFound)),
        ("LSL/110 503 Busy\r\n", refused(0, ReplyWhy::PeerError(503))),
        ("LSL/110 302 Moved\r\n", refused(0, ReplyWhy::Redirect(302))),
        ("LSL/210 200 OK\r\n", refused(0, ReplyWhy::VersionTooNew)),
        ("LSL/200 404\r\n", refused(0, ReplyWhy::VersionTooNew)),
        ("LSL/199 299\r\n", ReplyStep::More),
        ("HTTP/1.1 200 OK\r\n", refused(0, ReplyWhy::Malformed)),
        ("LSL/110 200OK\r\n", refused(0, ReplyWhy::Malformed)),
        ("LSL/110  200\r\n", refused(0, ReplyWhy::Malformed)),
        ("LSL/1234567890 200\r\n", refused(0, ReplyWhy::Malformed)),
        ("\r\n", refused(0, ReplyWhy::Malformed)),
        ("HTTP/1.1 200 OK\r", ReplyStep::More),
        (
            "LSL/110 200 OK\rX\r\n\r\n",
            refused(18, ReplyWhy::OldProtocol),
        ),
        (
            "LSL/110 200 OK\nX\r\n\r\n",
            refused(18, ReplyWhy::OldProtocol),
        ),
    ] {
        assert_eq!(rt; read_reply(text.as_bytes(), None), want, "in {text}");
    }
}

#[test]
fn a_line_has_at_most_4096_bytes(rt: HostRuntime) {
    let too_long = refused(16, ReplyWhy::LineTooLong);
    for (size, behind, want) in [
        (4096, "\r\n", ReplyStep::More),
        (4097, "\r\n", too_long),
        (4097, "", ReplyStep::More),
        (4098, "", too_long),
    ] {
        let mut text = Vec::new(rt.alloc());
        text.extend_from_slice(b"LSL/110 200 OK\r\n")
            .expect(&rt, "memory");
        text.resize(16 + size, b'a').expect(&rt, "memory");
        text.extend_from_slice(behind.as_bytes())
            .expect(&rt, "memory");
        assert_eq!(rt; read_reply(&text, None), want);
    }
}

#[test]
fn a_reply_has_at_most_64_lines(rt: HostRuntime) {
    let mut text = Vec::new(rt.alloc());
    text.extend_from_slice(b"LSL/110 200 OK\r\n")
        .expect(&rt, "memory");
    for _ in 0..63 {
        text.extend_from_slice(b"a\r\n").expect(&rt, "memory");
    }
    assert_eq!(rt; read_reply(&text, None), ReplyStep::More);
    text.extend_from_slice(b"b\r\n").expect(&rt, "memory");
    assert_eq!(rt;
        read_reply(&text, None),
        refused(205, ReplyWhy::TooManyLines)
    );
}

#[test]
fn reasons_are_numbered_from_one(rt: HostRuntime) {
    assert_eq!(rt; why_number(ReplyWhy::Malformed), 1);
    assert_eq!(rt; why_number(ReplyWhy::PeerError(503)), 4);
    assert_eq!(rt; why_number(ReplyWhy::TooManyLines), 12);
}

#[test]
fn a_request_tells_the_uid_and_the_size_of_a_value(rt: HostRuntime) {
    let want =
        "LSL:streamfeed/110 u1\r\nNative-Byte-Order: 1234\r\nHas-IEEE754-Floats: 1\r\nSupports-Subnormals: 1\r\nValue-Size: 2\r\nData-Protocol-Version: 110\r\nMax-Buffer-Length: 36000\r\nMax-Chunk-Length: 0\r\n\r\n";
    let mut out = Vec::new(rt.alloc());
    let shape = Shape {
        count: 1,
        format: Format::Int16,
    };
    request_text(b"u1", &shape, &mut out).expect(&rt, "memory");
    assert_eq!(rt; out.len(), 187);
    assert_eq!(rt; out.as_slice(), want.as_bytes());
    let shape = Shape {
        count: 1,
        format: Format::Text,
    };
    request_text(b"", &shape, &mut out).expect(&rt, "memory");
    assert_eq!(rt; out.len(), 372);
    assert_eq!(rt; &out[280..295], b"Value-Size: 0\r\n".as_slice());
}
