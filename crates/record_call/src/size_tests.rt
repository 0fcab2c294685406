use crate::test_dock::*;
use std::alloc::Global;
use std::test::Fail;

const RECORD: &[&str] = &["record", "p", "out"];

const REPLY: &[u8] = b"LSL/110 200 OK\r\nByte-Order: 1234\r\nData-Protocol-Version: 110\r\n\r\n";

// A reply, and then so many samples of so many bytes behind a tag, each with a stamp or none.
fn feed_of(alloc: Global, count: usize, values: &[u8], is_stamped: bool) -> Result<Vec<u8>, Fail> {
    let mut feed = Vec::new(alloc);
    feed.extend_from_slice(REPLY)?;
    for _ in 0..count {
        if is_stamped {
            feed.extend_from_slice(b"\x02\0\0\0\0\0\0\xF0\x3F")?;
        } else {
            feed.push(1)?;
        }
        feed.extend_from_slice(values)?;
    }
    Ok(feed)
}

#[test]
fn realistic_feeds_are_kept_whole(rt: HostRuntime) -> Result<(), Fail> {
    let alloc: Global = rt.alloc();
    let numbers = feed_of(alloc, 5002, &[7; 128], true)?;
    let mut markers = feed_of(alloc, 2, b"\x01\0", false)?;
    let marks = feed_of(alloc, 7, b"\x01\x05hello", true)?;
    markers.extend_from_slice(marks.get(REPLY.len()..).unwrap_or(&[]))?;
    let files = [
        file(
            "p",
            b"mode turns\nfeed 1 doc n file a\nfeed 2 doc m file b\n",
        ),
        file(
            "n",
            b"<info><channel_count>32</channel_count><channel_format>float32</channel_format></info>",
        ),
        file(
            "m",
            b"<info><channel_count>1</channel_count><channel_format>string</channel_format></info>",
        ),
        file("a", &numbers),
        file("b", &markers),
    ];
    let want = Want {
        status: 0,
        printed: "feed 1 received 5000 kept 5000 lost 0 end whole\nfeed 2 received 7 kept 7 lost 0 end whole\nrecorded bytes 686181 chunks 27\n",
        creates: true,
    };
    assert!(rt; records(&rt, RECORD, &files, NONE, want)?);
    Ok(())
}

#[test]
fn wide_samples_are_divided_and_marked(rt: HostRuntime) -> Result<(), Fail> {
    let alloc: Global = rt.alloc();
    let feed = feed_of(alloc, 132, &[5; 8192], false)?;
    let files = [
        file("p", b"mode turns\nfeed 1 doc h file a\n"),
        file(
            "h",
            b"<info><channel_count>4096</channel_count><channel_format>int16</channel_format></info>",
        ),
        file("a", &feed),
    ];
    let (status, dock) = record_on(&rt, RECORD, &files, NONE)?;
    let lines = b"feed 1 received 130 kept 130 lost 0 end whole\nrecorded bytes 1065668 chunks 8\n";
    assert!(rt; status == 0 && dock.printed() == lines.as_slice());
    // 127 samples of 8,193 bytes, a boundary, and 3 samples
    let first = dock.held().get(342..355).unwrap_or(&[]);
    assert_eq!(rt;
        first,
        b"\x04\x87\xE0\x0F\0\x03\0\x01\0\0\0\x01\x7F".as_slice()
    );
    let boundary = dock.held().get(1_040_866..1_040_870).unwrap_or(&[]);
    assert_eq!(rt; boundary, b"\x01\x12\x05\0".as_slice());
    let last = dock.held().get(1_040_886..1_040_899).unwrap_or(&[]);
    assert_eq!(rt;
        last,
        b"\x04\x0B\x60\0\0\x03\0\x01\0\0\0\x01\x03".as_slice()
    );
    Ok(())
}
