use crate::usage::USAGE;
use crate::*;
use std::alloc::Global;
use std::io;
use std::test::Fail;

const RECORD: &[&str] = &["record", "plan", "out.xdf"];

const SHOW: &[&str] = &["show", "s.xdf"];

// The sentence of a status with this line of its own, and nothing else known; empty where there is none.
fn told<'a>(
    alloc: Global,
    words: &'a [&'a str],
    status: u8,
    line: &'a str,
) -> Result<String, Fail> {
    let refusal = Refusal {
        words,
        status,
        line,
        plan_line: Some("feed 1\tdoc"),
        trouble: None,
    };
    match refusal_text(alloc, &refusal) {
        Some(text) => Ok(text),
        None => Ok(String::new(alloc)),
    }
}

// The sentence of a status that this trouble decided.
fn sentence<'a>(
    alloc: Global,
    words: &'a [&'a str],
    status: u8,
    deed: Deed,
    cause: &'a Cause,
) -> Result<String, Fail> {
    let refusal = Refusal {
        words,
        status,
        line: "fault 4",
        plan_line: None,
        trouble: Some(Trouble {
            deed,
            name: "a\u{1b}[2Jb",
            cause,
        }),
    };
    match refusal_text(alloc, &refusal) {
        Some(text) => Ok(text),
        None => Err(Fail::new("no sentence")),
    }
}

#[test]
fn a_broken_usage_is_told(rt: HostRuntime) -> Result<(), Fail> {
    let alloc: Global = rt.alloc();
    let cases: [(&[&str], &str, &str); 7] = [
        (&[], "fault 2 usage 1", "there is no command"),
        (
            &["rec\u{7}ord"],
            "fault 2 usage 2",
            "rec?ord: is no command",
        ),
        (
            &["", "plan"],
            "fault 2 usage 2",
            "(an empty word): is no command",
        ),
        (
            &["repair", "a"],
            "fault 2 usage 3",
            "repair: takes IN and OUT, or --search IN OUT; words behind it: 1",
        ),
        (
            &["drill", "0"],
            "fault 2 usage 4",
            "0: is no number from 1 to 1000000",
        ),
        (
            &["repair", "a", "a"],
            "fault 2 usage 5",
            "a: is the input, and can't be the output too",
        ),
        (&[], "", "a word isn't UTF-8: rename the file"),
    ];
    for (words, line, want) in cases {
        let text = told(alloc, words, 2, line)?;
        assert_eq!(rt; text.as_str().lines().next(), Some(want));
        assert!(rt; text.as_str().ends_with(USAGE));
    }
    Ok(())
}

#[test]
fn a_line_of_the_plan_is_told(rt: HostRuntime) -> Result<(), Fail> {
    let alloc: Global = rt.alloc();
    for (line, want) in [
        (
            "fault 3 line 2 why 8",
            "plan, line 2, `feed 1?doc`: a line is UTF-8 without control characters; words have blanks between them, not tabs",
        ),
        (
            "fault 3 line 0 why 7",
            "plan: a plan has at least one line `feed`",
        ),
        ("fault 3", "plan: isn't a plan"),
    ] {
        assert_eq!(rt; told(alloc, RECORD, 3, line)?.as_str(), want);
    }
    for (line, want) in [
        ("fault 3 line 12 why 1", Some(12)),
        ("fault 3 line 0 why 7", Some(0)),
        ("fault 3", None),
        ("fault 3 line x why 7", None),
    ] {
        assert_eq!(rt; refused_line(line), want);
    }
    Ok(())
}

#[test]
fn a_status_is_told_by_its_command(rt: HostRuntime) -> Result<(), Fail> {
    let alloc: Global = rt.alloc();
    for (words, status, line, want) in [
        (RECORD, 0, "", ""),
        (RECORD, 1, "", ""),
        (
            RECORD,
            6,
            "fault 6 feed 9",
            "plan, feed 9: its header document tells no channel count from 1 to 4096, or no known format, or has more than 1048576 bytes",
        ),
        (
            RECORD,
            7,
            "fault 7 asked 2000000000",
            "plan: its rings would take 2000000000 bytes, and may take 1073741824: make `ring` smaller",
        ),
        (
            SHOW,
            3,
            "fault 3",
            "s.xdf: doesn't begin with XDF:, so it is no XDF file",
        ),
        (
            SHOW,
            6,
            "bad 70 why 5",
            "s.xdf: damaged at byte 70: the chunk there is of a stream that has no header before it; what stands before is good, and `repair --search` finds what is good behind",
        ),
        (
            SHOW,
            9,
            "fault 9",
            "there isn't enough memory; the lines that were said are right",
        ),
    ] {
        assert_eq!(rt; told(alloc, words, status, line)?.as_str(), want);
    }
    Ok(())
}

#[test]
fn what_the_system_refused_is_told(rt: HostRuntime) -> Result<(), Fail> {
    let alloc: Global = rt.alloc();
    let missing = Cause::System(io::Error::from_raw_os_error(2));
    let other = Cause::System(io::Error::from_raw_os_error(5));
    for (words, status, deed, cause, want) in [
        (SHOW, 4, Deed::Open, &missing, "a?[2Jb: no such file"),
        (
            RECORD,
            4,
            Deed::Create,
            &missing,
            "a?[2Jb: can't be made: its folder isn't there",
        ),
        (
            RECORD,
            4,
            Deed::Create,
            &Cause::HasBytes,
            "a?[2Jb: is there already and has bytes, and is left as it was",
        ),
        (
            RECORD,
            1,
            Deed::Read,
            &other,
            "a?[2Jb: can't be read: Input/output error (os error 5)",
        ),
        (
            RECORD,
            5,
            Deed::Write,
            &Cause::Unsaid,
            "a?[2Jb: can't be written, and the system doesn't say why; what was written stays: `check` says how far it goes, `repair` makes a file of it",
        ),
    ] {
        assert_eq!(rt; sentence(alloc, words, status, deed, cause)?.as_str(), want);
    }
    Ok(())
}
