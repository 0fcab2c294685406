use crate::run::run;
use real_dock::RealDock;
use rec_base::Word;
use std::alloc::Global;
use std::fs::{self, File, OpenOptions};
use std::os::unix::fs::symlink;
use std::rt::Clock;
use std::sync::Wait;
use std::test::Fail;
use std::thread::Threads;

const DOC: &str =
    "<info><channel_count>1</channel_count><channel_format>int16</channel_format></info>";

// A reply, two test samples of one zero, and the samples 1, 2 and 3 without a stamp.
const FEED: &[u8] =
    b"LSL/110 200 OK\r\nUID: u1\r\nByte-Order: 1234\r\nSuppress-Subnormals: 0\r\nData-Protocol-Version: 110\r\n\r\n\x02\0\0\0\0\0\0\0\0\0\0\x02\0\0\0\0\0\0\0\0\0\0\x01\x01\0\x01\x02\0\x01\x03\0";

// Standard output for a test.
fn lines_to(rt: &HostRuntime, path: &str) -> Result<File, Fail> {
    Ok(OpenOptions::new().append(true).create(true).open(rt, path)?)
}

fn word(alloc: Global, text: &str) -> Result<Word, Fail> {
    Ok(Word::from_bytes(alloc, text.as_bytes())?)
}

// The status of a command, with the lines put out there.
fn answered(
    threads: &(impl Threads + Wait + Clock + Sync),
    rt: &HostRuntime,
    command: &str,
    first: &str,
    last: &str,
    lines: &str,
) -> Result<u8, Fail> {
    let alloc: Global = rt.alloc();
    let mut words = Vec::new(alloc);
    words.push(word(alloc, command)?)?;
    words.push(word(alloc, first)?)?;
    words.push(word(alloc, last)?)?;
    let mut dock = RealDock::new(alloc, *rt, lines_to(rt, lines)?, None)?;
    Ok(run(threads, alloc, &words, &mut dock))
}

// Removes what is there of these.
fn clear(rt: &HostRuntime, names: &[&str]) {
    for name in names {
        let _ = fs::remove_file(rt, *name);
    }
}

// A command that would write over a file is refused, and the file stays.
fn refuses(
    threads: &(impl Threads + Wait + Clock + Sync),
    rt: &HostRuntime,
    command: &str,
    first: &str,
    output: &str,
    kept: &str,
) -> Result<(), Fail> {
    let before = fs::read(rt, kept)?;
    let status = answered(threads, rt, command, first, output, "/dev/null")?;
    let after = fs::read(rt, kept)?;
    if status == 4 && after.as_slice() == before.as_slice() {
        return Ok(());
    }
    Err(Fail::new(format_args!("{kept}: status {status}")))
}

// An input isn't taken for the output under another name, nor through a link of either kind.
fn keeps_input(
    threads: &(impl Threads + Wait + Clock + Sync),
    rt: &HostRuntime,
    command: &str,
    first: &str,
    input: &str,
) -> Result<(), Fail> {
    let same = format!(in rt.alloc(); "./{input}")?;
    refuses(threads, rt, command, first, same.as_str(), input)?;
    symlink(rt, input, "symbolic")?;
    refuses(threads, rt, command, first, "symbolic", input)?;
    fs::remove_file(rt, "symbolic")?;
    fs::hard_link(rt, input, "hard")?;
    refuses(threads, rt, command, first, "hard", input)?;
    fs::remove_file(rt, "hard")?;
    Ok(())
}

#[test]
fn no_input_is_taken_for_the_output(rt: HostRuntime) -> Result<(), Fail> {
    let names = [
        "plan", "doc", "feed", "nothing", "in.xdf", "symbolic", "hard",
    ];
    clear(&rt, &names);
    fs::write(
        &rt,
        "plan",
        "mode turns\nfeed 1 doc doc file feed\nfeed 2 doc doc file nothing\n",
    )?;
    fs::write(&rt, "doc", DOC)?;
    fs::write(&rt, "feed", FEED)?;
    // No byte keeps this feed from being the output.
    fs::write(&rt, "nothing", "")?;
    fs::write(&rt, "in.xdf", "XDF:")?;
    for input in ["plan", "doc", "feed", "nothing"] {
        keeps_input(&rt, &rt, "record", "plan", input)?;
    }
    keeps_input(&rt, &rt, "repair", "in.xdf", "in.xdf")?;
    clear(&rt, &names);
    Ok(())
}

// A recording into this output, with the lines put out there, has this status.
fn records(
    threads: &(impl Threads + Wait + Clock + Sync),
    rt: &HostRuntime,
    output: &str,
    lines: &str,
    status: u8,
) -> Result<(), Fail> {
    let got = answered(threads, rt, "record", "own_plan", output, lines)?;
    if got == status {
        return Ok(());
    }
    Err(Fail::new(format_args!("{output}: status {got}")))
}

#[test]
fn outputs_are_made_or_taken_as_they_are(rt: HostRuntime) -> Result<(), Fail> {
    let names = [
        "own_plan",
        "own_doc",
        "own_feed",
        "empty",
        "leads_nowhere",
        "new",
        "lines",
        "untold",
    ];
    clear(&rt, &names);
    fs::write(
        &rt,
        "own_plan",
        "mode turns\nfeed 1 doc own_doc file own_feed\n",
    )?;
    fs::write(&rt, "own_doc", DOC)?;
    fs::write(&rt, "own_feed", FEED)?;
    fs::write(&rt, "empty", "")?;
    symlink(&rt, "missing", "leads_nowhere")?;
    records(&rt, &rt, "new", "lines", 0)?;
    records(&rt, &rt, "empty", "/dev/null", 0)?;
    records(&rt, &rt, "untold", "/dev/full", 8)?;
    records(&rt, &rt, "/dev/null", "/dev/null", 0)?;
    for output in ["new", "leads_nowhere", ".", "no/such/folder"] {
        records(&rt, &rt, output, "/dev/null", 4)?;
    }
    // The one fails writes. The other is a regular file that takes them, and no disk has it.
    for output in ["/dev/full", "/proc/self/comm"] {
        records(&rt, &rt, output, "/dev/null", 5)?;
        records(&rt, &rt, output, "/dev/full", 5)?;
    }
    let recorded = fs::read(&rt, "new")?;
    assert_eq!(rt; recorded.len(), 546);
    for name in ["empty", "untold"] {
        assert_eq!(rt;
            fs::read(&rt, name)?.as_slice(),
            recorded.as_slice(),
            "{name}"
        );
    }
    assert!(rt; !fs::exists(&rt, "missing")?);
    let said = b"feed 1 received 3 kept 3 lost 0 end whole\nrecorded bytes 546 chunks 6\n";
    assert_eq!(rt; fs::read(&rt, "lines")?.as_slice(), said.as_slice());
    clear(&rt, &names);
    Ok(())
}
