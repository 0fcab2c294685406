use crate::test_dock::*;
use std::alloc::Global;
use std::test::Fail;

const RECORD: &[&str] = &["record", "p", "out"];

// The request for the stream `u1` of one channel of `int16`, and that for `u2`.
const FIRST_REQUEST: &[u8] =
    b"LSL:streamfeed/110 u1\r\nNative-Byte-Order: 1234\r\nHas-IEEE754-Floats: 1\r\nSupports-Subnormals: 1\r\nValue-Size: 2\r\nData-Protocol-Version: 110\r\nMax-Buffer-Length: 36000\r\nMax-Chunk-Length: 0\r\n\r\n";

const SECOND_REQUEST: &[u8] =
    b"LSL:streamfeed/110 u2\r\nNative-Byte-Order: 1234\r\nHas-IEEE754-Floats: 1\r\nSupports-Subnormals: 1\r\nValue-Size: 2\r\nData-Protocol-Version: 110\r\nMax-Buffer-Length: 36000\r\nMax-Chunk-Length: 0\r\n\r\n";

// The outlet answers as the stream `u1` to each request. A request of another stream than the one that
// it is at finds no outlet.
#[test]
fn an_outlet_is_asked_for_the_stream_of_the_plan(rt: HostRuntime) -> Result<(), Fail> {
    let alloc: Global = rt.alloc();
    let feed = three_samples(alloc)?;
    assert_eq!(rt; FIRST_REQUEST.len(), 187);
    for (uid, request, status, printed) in [
        (
            "u1",
            FIRST_REQUEST,
            0,
            "feed 1 received 3 kept 3 lost 0 end whole\nrecorded bytes 546 chunks 6\n",
        ),
        (
            "u2",
            SECOND_REQUEST,
            1,
            "feed 1 received 0 kept 0 lost 0 end reply-refused 16 6\nrecorded bytes 527 chunks 5\n",
        ),
        ("u2", FIRST_REQUEST, 4, "fault 4\n"),
    ] {
        let plan = format!(in alloc; "mode turns\nfeed 1 doc h tcp m 16572 {uid}\n")?;
        let files = [
            file("p", plan.as_bytes()),
            file("h", INT16_DOCUMENT),
            peer(request, &feed),
        ];
        let want = Want {
            status,
            printed,
            creates: status != 4,
        };
        assert!(rt; records(&rt, RECORD, &files, NONE, want)?, "{printed}");
    }
    Ok(())
}

// By threads the samples may come into the file in one batch, in two or in three.
#[test]
fn an_outlet_is_recorded_by_threads(rt: HostRuntime) -> Result<(), Fail> {
    let feed = three_samples(rt.alloc())?;
    let files = [
        file("p", b"feed 1 doc h tcp m 16572 u1\n"),
        file("h", INT16_DOCUMENT),
        peer(FIRST_REQUEST, &feed),
    ];
    let (status, dock) = record_on(&rt, RECORD, &files, NONE)?;
    let printed = dock.printed();
    let is_printed = [
        "recorded bytes 546 chunks 6\n",
        "recorded bytes 556 chunks 7\n",
        "recorded bytes 566 chunks 8\n",
    ]
    .iter()
    .any(|last| printed.ends_with(last.as_bytes()));
    assert!(rt; status == 0 && is_printed);
    assert!(rt; printed.starts_with(b"feed 1 received 3 kept 3 lost 0 end whole\n"));
    Ok(())
}
