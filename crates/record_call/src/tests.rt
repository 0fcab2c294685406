use crate::test_dock::*;
use std::alloc::Global;
use std::test::Fail;

const RECORD: &[&str] = &["record", "p", "out"];

const RING_OF_ONE: &[u8] = b"ring 1\nbatch 3\nmode turns\nfeed 1 doc h file a\n";

const LINE_OF_ONE: &str = "feed 1 received 3 kept 1 lost 2 end whole\n";

const LINES_OF_ONE: &str =
    "feed 1 received 3 kept 1 lost 2 end whole\nrecorded bytes 575 chunks 7\n";

// The file of a recording of one int16 channel up to its body.
const HEADERS: &[u8] =
    b"XDF:\x01\x3A\x01\0<?xml version=\"1.0\"?><info><version>1.0</version></info>\x01\xB6\x02\0\0\0\0\0<?xml version=\"1.0\"?><info><name>overruns</name><type>ledger</type><channel_count>3</channel_count><nominal_srate>0</nominal_srate><channel_format>int64</channel_format></info>\x01\x59\x02\0\x01\0\0\0<info><channel_count>1</channel_count><channel_format>int16</channel_format></info>";

// The row of the two samples that were lost, and the sample that was kept.
const BODY: &[u8] =
    b"\x01\x21\x03\0\0\0\0\0\x01\x01\0\x01\0\0\0\0\0\0\0\0\0\0\0\0\0\0\0\x02\0\0\0\0\0\0\0\x01\x0B\x03\0\x01\0\0\0\x01\x01\0\x03\0";

const FOOTERS: &[u8] =
    b"\x01\x5C\x06\0\0\0\0\0<?xml version=\"1.0\"?><info><sample_count>1</sample_count><overruns>0</overruns></info>\x01\x5C\x06\0\x01\0\0\0<?xml version=\"1.0\"?><info><sample_count>1</sample_count><overruns>2</overruns></info>";

fn file_of_one(alloc: Global) -> Result<Vec<u8>, Fail> {
    let mut want = Vec::new(alloc);
    want.extend_from_slice(HEADERS)?;
    want.extend_from_slice(BODY)?;
    want.extend_from_slice(FOOTERS)?;
    Ok(want)
}

#[test]
fn a_ring_of_one_keeps_the_last_sample_of_each_batch(rt: HostRuntime) -> Result<(), Fail> {
    let alloc: Global = rt.alloc();
    let feed = three_samples(alloc)?;
    let want = file_of_one(alloc)?;
    assert_eq!(rt; want.len(), 575);
    for (say, status, printed) in [(0, 0, LINES_OF_ONE), (1, 8, ""), (2, 8, LINE_OF_ONE)] {
        let files = [
            file("p", RING_OF_ONE),
            file("h", INT16_DOCUMENT),
            file("a", &feed),
        ];
        let (answer, dock) = record_on(&rt, RECORD, &files, Fails { say, ..NONE })?;
        let is_so = answer == status
            && dock.target() == b"out".as_slice()
            && dock.printed() == printed.as_bytes()
            && dock.held() == want.as_slice();
        assert!(rt; is_so, "{say}");
    }
    Ok(())
}

#[test]
fn a_failed_write_leaves_a_front_of_the_file(rt: HostRuntime) -> Result<(), Fail> {
    let alloc: Global = rt.alloc();
    let feed = three_samples(alloc)?;
    let want = file_of_one(alloc)?;
    // The headers, the row, the sample and the footers go out in a write each.
    for write in 1..6 {
        let files = [
            file("p", RING_OF_ONE),
            file("h", INT16_DOCUMENT),
            file("a", &feed),
        ];
        let (answer, dock) = record_on(&rt, RECORD, &files, Fails { write, ..NONE })?;
        let is_so = if write < 5 {
            answer == 5
                && dock.printed() == b"fault 5\n".as_slice()
                && dock.held().len() < want.len()
        } else {
            answer == 0 && dock.held().len() == want.len()
        };
        let front = dock.target() == b"out".as_slice() && want.starts_with(dock.held());
        assert!(rt; is_so && front, "{write}");
    }
    Ok(())
}

#[test]
fn a_feed_is_kept_up_to_its_end_whatever_that_is(rt: HostRuntime) -> Result<(), Fail> {
    let alloc: Global = rt.alloc();
    let whole = three_samples(alloc)?;
    for (cut, status, lines) in [
        (
            0,
            1,
            "received 0 kept 0 lost 0 end torn-reply\nrecorded bytes 527 chunks 5",
        ),
        (
            97,
            1,
            "received 0 kept 0 lost 0 end torn-sample 97\nrecorded bytes 527 chunks 5",
        ),
        (
            118,
            1,
            "received 0 kept 0 lost 0 end torn-sample 108\nrecorded bytes 527 chunks 5",
        ),
        (
            119,
            0,
            "received 0 kept 0 lost 0 end whole\nrecorded bytes 527 chunks 5",
        ),
        (
            120,
            1,
            "received 0 kept 0 lost 0 end torn-sample 119\nrecorded bytes 527 chunks 5",
        ),
        (
            122,
            0,
            "received 1 kept 1 lost 0 end whole\nrecorded bytes 540 chunks 6",
        ),
        (
            128,
            0,
            "received 3 kept 3 lost 0 end whole\nrecorded bytes 546 chunks 6",
        ),
    ] {
        let printed = format!(in alloc; "feed 1 {lines}\n")?;
        let want = Want {
            status,
            printed: printed.as_str(),
            creates: true,
        };
        let feed = whole.get(..cut).unwrap_or(&[]);
        let plan = b"mode turns\nfeed 1 doc h file a\n";
        assert!(rt; records_plan(&rt, plan, feed, NONE, want)?, "{cut}");
    }
    Ok(())
}

#[test]
fn replies_and_faulty_samples_are_told(rt: HostRuntime) -> Result<(), Fail> {
    let alloc: Global = rt.alloc();
    let limited = three_samples(alloc)?;
    for (plan, feed, status, lines) in [
        (
            "mode turns\nfeed 1 doc h file a limit 2\n",
            limited.as_slice(),
            0,
            "received 2 kept 2 lost 0 end limit\nrecorded bytes 543 chunks 6",
        ),
        (
            "mode turns\nfeed 1 doc h file a\n",
            b"LSL/110 404 Not found\r\n".as_slice(),
            1,
            "received 0 kept 0 lost 0 end reply-refused 0 3\nrecorded bytes 527 chunks 5",
        ),
        (
            "mode turns\nfeed 1 doc h file a\n",
            b"LSL/110 200 OK\r\nByte-Order: 1234\r\nData-Protocol-Version: 110\r\n\r\n\x01\0\0\x01\0\0\x01\x05\0\x07".as_slice(),
            1,
            "received 1 kept 1 lost 0 end bad-tag 73 7\nrecorded bytes 540 chunks 6",
        ),
    ] {
        let printed = format!(in alloc; "feed 1 {lines}\n")?;
        let want = Want {
            status,
            printed: printed.as_str(),
            creates: true,
        };
        assert!(rt;
            records_plan(&rt, plan.as_bytes(), feed, NONE, want)?,
            "{lines}"
        );
    }
    Ok(())
}

#[test]
fn a_failed_read_of_one_feed_leaves_the_other(rt: HostRuntime) -> Result<(), Fail> {
    let alloc: Global = rt.alloc();
    let whole = three_samples(alloc)?;
    let cut = TestFile {
        at: At::Path("a"),
        bytes: whole.get(..122).unwrap_or(&[]),
        fails: true,
    };
    let files = [
        file(
            "p",
            b"mode turns\nfeed 1 doc h file a\nfeed 2 doc k file b\n",
        ),
        file("h", INT16_DOCUMENT),
        file("k", INT16_DOCUMENT),
        cut,
        file("b", &whole),
    ];
    let want = Want {
        status: 1,
        printed: "feed 1 received 1 kept 1 lost 0 end read-fault\nfeed 2 received 3 kept 3 lost 0 end whole\nrecorded bytes 744 chunks 9\n",
        creates: true,
    };
    assert!(rt; records(&rt, RECORD, &files, NONE, want)?);
    Ok(())
}

#[test]
fn a_feed_whose_first_read_fails_is_told(rt: HostRuntime) -> Result<(), Fail> {
    let unread = TestFile {
        at: At::Path("a"),
        bytes: &[],
        fails: true,
    };
    for plan in [
        RING_OF_ONE,
        b"mode threads\nfeed 1 doc h file a\n".as_slice(),
    ] {
        let files = [file("p", plan), file("h", INT16_DOCUMENT), unread];
        let want = Want {
            status: 1,
            printed: "feed 1 received 0 kept 0 lost 0 end read-fault\nrecorded bytes 527 chunks 5\n",
            creates: true,
        };
        assert!(rt; records(&rt, RECORD, &files, NONE, want)?);
    }
    Ok(())
}

#[test]
fn inputs_of_one_name_are_taken_in_their_order(rt: HostRuntime) -> Result<(), Fail> {
    let alloc: Global = rt.alloc();
    let whole = three_samples(alloc)?;
    let files = [
        file(
            "p",
            b"mode turns\nfeed 1 doc p file a\nfeed 2 doc p file a\nfeed 3 doc h file p\n",
        ),
        file("p", INT16_DOCUMENT),
        file("p", INT16_DOCUMENT),
        file("h", INT16_DOCUMENT),
        file("p", whole.get(..122).unwrap_or(&[])),
        file("a", &whole),
        file("a", FEED_FRONT),
    ];
    let (status, dock) = record_on(&rt, RECORD, &files, NONE)?;
    let lines =
        b"feed 1 received 3 kept 3 lost 0 end whole\nfeed 2 received 0 kept 0 lost 0 end whole\nfeed 3 received 1 kept 1 lost 0 end whole\n";
    assert!(rt; status == 0 && dock.printed().starts_with(lines.as_slice()));
    Ok(())
}
