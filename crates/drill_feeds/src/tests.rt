use super::*;
use std::alloc::Global;
use std::test::Fail;

const LITTLE: &[u8] =
    b"LSL/110 200 OK\r\nUID: u1\r\nByte-Order: 1234\r\nSuppress-Subnormals: 0\r\nData-Protocol-Version: 110\r\n\r\n";

const BIG: &[u8] =
    b"LSL/110 200 OK\r\nUID: u1\r\nByte-Order: 4321\r\nSuppress-Subnormals: 0\r\nData-Protocol-Version: 110\r\n\r\n";

// Whether a feed is this reply and these bytes.
fn is_feed(
    alloc: Global,
    number: u64,
    id: u32,
    reply: &[u8],
    samples: &[u8],
) -> Result<bool, Fail> {
    let feed = drill_feed(alloc, number.clamp(1, 1_000_000), id.clamp(1, 3))?;
    Ok(feed.bytes().strip_prefix(reply) == Some(samples))
}

// The bytes were made by another program, from the rule's words.
#[test]
fn a_feed_is_its_reply_test_samples_and_samples(rt: HostRuntime) -> Result<(), Fail> {
    let rows: [(u64, u32, &[u8], &[u8]); 3] = [
        (
            1,
            1,
            LITTLE,
            b"\x01\0\0\0\0\x01\0\0\0\0\x02\0\0\0\0\0\0\xF0\x3F\x7FL\xC2k",
        ),
        (
            2,
            2,
            BIG,
            b"\x01\0\0\0\0\0\0\0\0\x01\0\0\0\0\0\0\0\0\x02\x3F\xF0\0\0\0\0\0\0\x98\xFE\x81\x85\x97\x84\xFEZ",
        ),
        (
            50,
            3,
            LITTLE,
            b"\x01\x01\0\x01\x01\0\x02\0\0\0\0\0\0\xF0\x3F\x01\0\x01\x01\x01a\x01\x01\x02cd\x01\x01\x03rst\x02\x04\0\0\0\0\0\xF0\x3F\x01\x04tuvw",
        ),
    ];
    for (number, id, reply, samples) in rows {
        assert!(rt; is_feed(rt.alloc(), number, id, reply, samples)?, "{id}");
    }
    Ok(())
}

// The size of a feed, and the sum of its bytes, each taken as often as its place says from 1.
fn summary(alloc: Global, id: u32) -> Result<(usize, u64), Fail> {
    let feed = drill_feed(alloc, 1000, id.clamp(1, 3))?;
    let mut sum: u64 = 0;
    for (place, byte) in feed.bytes().iter().enumerate() {
        let times = (place as u64).wrapping_add(1);
        sum = sum.wrapping_add(times.wrapping_mul(*byte as u64));
    }
    Ok((feed.bytes().len(), sum))
}

#[test]
fn a_longer_drill_has_these_bytes(rt: HostRuntime) -> Result<(), Fail> {
    for (id, size, sum) in [
        (1, 7107, 2_242_453_132),
        (2, 5615, 1_628_030_806),
        (3, 1553, 97_339_870),
    ] {
        assert!(rt; summary(rt.alloc(), id)? == (size, sum), "{id}");
    }
    Ok(())
}

#[test]
fn each_feed_has_its_document(rt: HostRuntime) -> Result<(), Fail> {
    for (id, size, kind) in [(1, 83, "int16"), (2, 86, "double64"), (3, 84, "string")] {
        let doc = drill_doc(id);
        assert!(rt; doc.len() == size && doc.contains(kind));
    }
    Ok(())
}
