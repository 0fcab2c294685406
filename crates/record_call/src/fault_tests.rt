use crate::test_dock::*;
use std::alloc::Global;
use std::rt::Clock;
use std::sync::Wait;
use std::test::Fail;
use std::thread::Threads;

const RECORD: &[&str] = &["record", "p", "out"];

// Whether a fault is told in this line, with no output.
fn tells(
    rt: &(impl AllocGlobal + Threads + Wait + Clock + Sync),
    plan: &[u8],
    fails: Fails,
    status: u8,
    printed: &str,
) -> Result<bool, Fail> {
    let want = Want {
        status,
        printed,
        creates: false,
    };
    let feed = three_samples(rt.alloc())?;
    records_plan(rt, plan, &feed, fails, want)
}

#[test]
fn words_that_are_no_command_are_told(rt: HostRuntime) -> Result<(), Fail> {
    for (words, printed) in [
        ([].as_slice(), "fault 2 usage 1\n"),
        (["frob"].as_slice(), "fault 2 usage 2\n"),
        (["show", "p"].as_slice(), "fault 2 usage 2\n"),
        (["record", "p"].as_slice(), "fault 2 usage 3\n"),
        (["record", "p", "p"].as_slice(), "fault 2 usage 5\n"),
    ] {
        let want = Want {
            status: 2,
            printed,
            creates: false,
        };
        assert!(rt; records(&rt, words, &[], NONE, want)?);
    }
    Ok(())
}

#[test]
fn a_refused_plan_is_told_by_line_and_reason(rt: HostRuntime) -> Result<(), Fail> {
    for (plan, printed) in [
        ("", "fault 3 line 0 why 7\n"),
        ("ring 0", "fault 3 line 1 why 3\n"),
        ("frob", "fault 3 line 1 why 1\n"),
        (
            "feed 1 doc h file a\nfeed 1 doc h file a\n",
            "fault 3 line 2 why 4\n",
        ),
        ("feed 1 doc h disk a\n", "fault 3 line 1 why 5\n"),
        ("feed 1 doc h file out\n", "fault 3 line 1 why 9\n"),
        ("mode threads\nfrob\n", "fault 3 line 2 why 1\n"),
    ] {
        assert!(rt; tells(&rt, plan.as_bytes(), NONE, 3, printed)?, "{plan}");
    }
    Ok(())
}

#[test]
fn what_is_too_long_is_refused(rt: HostRuntime) -> Result<(), Fail> {
    let alloc: Global = rt.alloc();
    let mut long = Vec::new(alloc);
    long.resize(1_048_577, 10)?;
    assert!(rt; tells(&rt, &long, NONE, 3, "fault 3 line 0 why 10\n")?);
    let want = Want {
        status: 6,
        printed: "fault 6 feed 7\n",
        creates: false,
    };
    let files = [
        file("p", b"mode turns\nfeed 7 doc h file a\n"),
        file("h", &long),
    ];
    assert!(rt; records(&rt, RECORD, &files, NONE, want)?);
    Ok(())
}

#[test]
fn the_first_document_without_a_shape_is_told(rt: HostRuntime) -> Result<(), Fail> {
    let plan = b"mode turns\nfeed 1 doc h file a\nfeed 9 doc k file a\nfeed 3 doc k file a\n";
    let want = Want {
        status: 6,
        printed: "fault 6 feed 9\n",
        creates: false,
    };
    let files = [
        file("p", plan),
        file("h", INT16_DOCUMENT),
        file("k", b"<info></info>"),
        file("k", INT16_DOCUMENT),
    ];
    assert!(rt; records(&rt, RECORD, &files, NONE, want)?);
    Ok(())
}

#[test]
fn rings_that_cost_too_much_are_told(rt: HostRuntime) -> Result<(), Fail> {
    let document =
        b"<info><channel_count>4096</channel_count><channel_format>double64</channel_format></info>";
    let want = Want {
        status: 7,
        printed: "fault 7 asked 34369241106\n",
        creates: false,
    };
    let files = [
        file("p", b"mode turns\nring 1048576\nfeed 1 doc h file a\n"),
        file("h", document),
    ];
    assert!(rt; records(&rt, RECORD, &files, NONE, want)?);
    Ok(())
}

#[test]
fn an_input_that_cant_be_opened_or_read_is_told(rt: HostRuntime) -> Result<(), Fail> {
    let plan = b"mode turns\nfeed 1 doc h file a\n";
    for open in 1..5 {
        let fails = Fails { open, ..NONE };
        assert!(rt; tells(&rt, plan, fails, 4, "fault 4\n")?, "{open}");
    }
    let cut = TestFile {
        at: At::Path("p"),
        bytes: plan,
        fails: true,
    };
    let cut_document = TestFile {
        at: At::Path("h"),
        bytes: INT16_DOCUMENT,
        fails: true,
    };
    let want = Want {
        status: 4,
        printed: "fault 4\n",
        creates: false,
    };
    assert!(rt; records(&rt, RECORD, &[cut], NONE, want)?);
    assert!(rt; records(&rt, RECORD, &[file("p", plan), cut_document], NONE, want)?);
    Ok(())
}
