use super::*;
use std::alloc::Global;
use std::test::Fail;

// The line and the reason of a refusal; 0 and 0 where there is a plan.
fn refusal(alloc: Global, text: &[u8]) -> Result<(u64, u8), Fail> {
    let out = Word::from_bytes(alloc, b"out")?;
    match read_plan(alloc, text, &out) {
        Ok(_) => Ok((0, 0)),
        Err(PlanError::Fault { line, why }) => Ok((line, why)),
        Err(PlanError::Memory) => Ok((0, 99)),
    }
}

// A feed, as a line of a plan spells it.
fn feed_text(alloc: Global, feed: &FeedLine) -> Result<String, Fail> {
    let mut text = format!(in alloc; "{} {}", feed.id, feed.doc.text())?;
    match &feed.from {
        FeedFrom::File(path) => write!(text, " file {}", path.text())?,
        FeedFrom::Tcp { host, port, uid } => {
            write!(text, " tcp {} {port} {}", host.text(), uid.text())?;
        }
    }
    if let Some(limit) = feed.limit {
        write!(text, " limit {limit}")?;
    }
    Ok(text)
}

fn plan_text(alloc: Global, text: &[u8]) -> Result<String, Fail> {
    let out = Word::from_bytes(alloc, b"out")?;
    let mut shown = String::new(alloc);
    if let Ok(plan) = read_plan(alloc, text, &out) {
        write!(shown, "{} {} {:?}", plan.ring, plan.batch, plan.mode)?;
        for i in 0..plan.feeds.len() {
            if let Some(feed) = plan.feeds.get(i) {
                let feed = feed_text(alloc, feed)?;
                write!(shown, ", {feed}")?;
            }
        }
    }
    Ok(shown)
}

#[test]
fn plans_are_read(rt: HostRuntime) -> Result<(), Fail> {
    for (text, want) in [
        ("feed 1 doc h file a", "4096 512 Threads, 1 h file a"),
        (
            "ring 8\nbatch 2\nmode turns\nfeed 1 doc h file a limit 3\nfeed 2 doc k tcp amp 16572 u1 limit 4\n",
            "8 2 Turns, 1 h file a limit 3, 2 k tcp amp 16572 u1 limit 4",
        ),
        (
            "# two\r\n\r\n   \nfeed  9 doc h  file a \r\n feed 3 doc h tcp out 1 out\r\nmode threads\r",
            "4096 512 Threads, 9 h file a, 3 h tcp out 1 out",
        ),
        (
            "ring 1\nbatch 1\nfeed 1 doc h file a limit 1",
            "1 1 Threads, 1 h file a limit 1",
        ),
        (
            "ring 1048576\nbatch 65536\nfeed 65535 doc h tcp b 65535 u limit 1099511627776",
            "1048576 65536 Threads, 65535 h tcp b 65535 u limit 1099511627776",
        ),
        (
            "ring 0000000000008\nfeed 01 doc \u{e9} file #",
            "8 512 Threads, 1 \u{e9} file #",
        ),
    ] {
        let shown = plan_text(rt.alloc(), text.as_bytes())?;
        assert_eq!(rt; shown.as_str(), want);
    }
    Ok(())
}

#[test]
fn the_first_refused_line_is_told(rt: HostRuntime) -> Result<(), Fail> {
    for (text, want) in [
        ("", (0, 7)),
        ("# a\n\n \r\n", (0, 7)),
        ("ring 0", (1, 3)),
        ("frob", (1, 1)),
        ("feed 1 doc h file a\nfeed 1 doc h file a", (2, 4)),
        ("feed 1 doc h disk a", (1, 5)),
        ("feed 1 doc h file out", (1, 9)),
        ("# frob\n\nring 4\nfrob\nring 0", (4, 1)),
        (" # a", (1, 1)),
        ("#\u{1}\nring 1\r\r", (2, 8)),
    ] {
        assert_eq!(rt; refusal(rt.alloc(), text.as_bytes())?, want, "in {text}");
    }
    assert_eq!(rt; refusal(rt.alloc(), b"\xFF")?, (1, 8));
    assert_eq!(rt; refusal(rt.alloc(), b"#\xFF\nring 2\x7F")?, (2, 8));
    Ok(())
}

#[test]
fn a_line_is_refused_by_the_first_row_that_holds(rt: HostRuntime) -> Result<(), Fail> {
    for (text, why) in [
        // Each line breaks two neighbouring rows, of which the first decides.
        ("frob\t1 2 3", 8),
        ("frob 1 2", 1),
        ("mode frob 1", 2),
        ("feed 1 dog h disk", 2),
        ("feed 1 dog h file a 7", 5),
        ("feed 1 doc h disk a 7", 5),
        ("feed 1 doc h file a limit 1 2", 2),
        ("feed 1 doc h tcp a 1", 2),
        ("feed 1 doc h tcp a 1 u limit", 2),
        ("feed 0 doc h file a limot 1", 5),
        ("feed 0 doc h tcp a 1 u limot 1", 5),
        ("mode frob", 5),
    ] {
        assert_eq!(rt;
            refusal(rt.alloc(), text.as_bytes())?,
            (1, why),
            "in {text}"
        );
    }
    for (text, why) in [
        ("ring 0", 3),
        ("feed 0 doc h file a", 3),
        ("ring 1", 4),
        ("batch 1", 4),
        ("mode turns", 4),
        ("feed 01 doc out file out", 4),
        ("feed 2 doc out file a", 9),
        ("feed 2 doc a tcp out 1 out", 0),
    ] {
        let front = "ring 4\nbatch 4\nmode turns\nfeed 1 doc h file a\n";
        let text = format!(in rt.alloc(); "{front}{text}")?;
        let line = if why == 0 { 0 } else { 5 };
        assert_eq!(rt;
            refusal(rt.alloc(), text.as_bytes())?,
            (line, why),
            "in {text}"
        );
    }
    Ok(())
}

#[test]
fn numbers_have_limits(rt: HostRuntime) -> Result<(), Fail> {
    for text in [
        "ring 1048577",
        "batch 0",
        "batch 65537",
        "ring +1",
        "ring -1",
        "ring 1a",
        "ring 00000000000001",
        "ring 99999999999999999999",
        "feed 65536 doc h file a",
        "feed 1 doc h tcp a 0 u",
        "feed 1 doc h tcp a 65536 u",
        "feed 1 doc h file a limit 0",
        "feed 1 doc h file a limit 1099511627777",
        "feed 1 doc h tcp a 1 u limit 1099511627777",
    ] {
        assert_eq!(rt; refusal(rt.alloc(), text.as_bytes())?, (1, 3), "in {text}");
    }
    Ok(())
}

// A plan of so many feeds, and then a line.
fn feeds_text(alloc: Global, count: u32, last: &str) -> Result<String, Fail> {
    let mut text = String::new(alloc);
    for i in 0..count {
        let id = i as u64 + 1;
        write!(text, "feed {id} doc h file a\n")?;
    }
    text.push_str(last)?;
    Ok(text)
}

#[test]
fn a_plan_has_at_most_64_feeds(rt: HostRuntime) -> Result<(), Fail> {
    for (count, last, want) in [
        (64, "", (0, 0)),
        (65, "", (65, 6)),
        (64, "feed 64 doc h file a", (65, 4)),
        (64, "feed 65 doc out file a", (65, 6)),
        (64, "ring 1", (0, 0)),
    ] {
        let text = feeds_text(rt.alloc(), count, last)?;
        assert_eq!(rt; refusal(rt.alloc(), text.as_bytes())?, want);
    }
    Ok(())
}

#[test]
fn a_plan_has_at_most_1048576_bytes(rt: HostRuntime) -> Result<(), Fail> {
    for (size, want) in [(1_048_576, (0, 0)), (1_048_577, (0, 10))] {
        let mut text = Vec::new(rt.alloc());
        text.extend_from_slice(b"feed 1 doc h file a\n")?;
        text.resize(size, b'#')?;
        assert_eq!(rt; refusal(rt.alloc(), &text)?, want);
    }
    Ok(())
}

// What the words ask for: a command with its names, or the number of a usage.
fn asked(alloc: Global, top: Top, words: &str) -> Result<String, Fail> {
    let mut list = Vec::new(alloc);
    for word in words.split_whitespace() {
        list.push(Word::from_bytes(alloc, word.as_bytes())?)?;
    }
    Ok(match read_words(top, &list) {
        Ok(Command::Record { plan, out }) => {
            format!(in alloc; "record {} to {}", plan.text(), out.text())?
        }
        Ok(Command::Show(file)) => format!(in alloc; "show {}", file.text())?,
        Ok(Command::Check(file)) => format!(in alloc; "check {}", file.text())?,
        Ok(Command::Repair { search, from, to }) => {
            format!(in alloc; "repair {} to {} {search}", from.text(), to.text())?
        }
        Ok(Command::Drill(number)) => format!(in alloc; "drill {number}")?,
        Err(usage) => format!(in alloc; "{}", usage.why)?,
    })
}

#[test]
fn words_ask_for_a_command(rt: HostRuntime) -> Result<(), Fail> {
    for (top, words, want) in [
        (Top::Record, "", "1"),
        (Top::File, "", "1"),
        (Top::Record, "frob", "2"),
        (Top::File, "frob", "2"),
        (Top::Record, "show a", "2"),
        (Top::File, "record p o", "2"),
        (Top::Record, "record", "3"),
        (Top::Record, "record p", "3"),
        (Top::Record, "record p p p", "3"),
        (Top::File, "show", "3"),
        (Top::File, "show a a", "3"),
        (Top::Record, "check a", "2"),
        (Top::File, "check", "3"),
        (Top::File, "repair a", "3"),
        (Top::File, "repair --find a b", "3"),
        (Top::File, "repair --search a b c", "3"),
        (Top::File, "show --search a", "3"),
        (Top::File, "drill", "3"),
        (Top::File, "drill 0", "4"),
        (Top::File, "drill 1000001", "4"),
        (Top::File, "drill 00000001", "4"),
        (Top::File, "drill -1", "4"),
        (Top::File, "repair a a", "5"),
        (Top::File, "repair --search a a", "5"),
        (Top::File, "repair --search --search", "5"),
        (Top::Record, "record p p", "5"),
        (Top::Record, "record p o", "record p to o"),
        (Top::File, "show a", "show a"),
        (Top::File, "check a", "check a"),
        (Top::File, "repair a b", "repair a to b false"),
        (Top::File, "repair --search b", "repair --search to b false"),
        (Top::File, "repair --search a b", "repair a to b true"),
        (
            Top::File,
            "repair --search --search b",
            "repair --search to b true",
        ),
        (Top::File, "drill 1", "drill 1"),
        (Top::File, "drill 1000000", "drill 1000000"),
    ] {
        let told = asked(rt.alloc(), top, words)?;
        assert_eq!(rt; told.as_str(), want, "of {words}");
    }
    Ok(())
}

#[test]
fn reasons_are_numbered_from_one(rt: HostRuntime) {
    assert_eq!(rt; why_number(PlanWhy::UnknownWord), 1);
    assert_eq!(rt; why_number(PlanWhy::NoFeed), 7);
    assert_eq!(rt; why_number(PlanWhy::TooLong), 10);
}
