// Inputs so large that no contract tells whether the memory suffices for them.

use crate::run::run;
use rec_base::{Blob, MemDock, MemSource, Name, Piece, Word};
use std::alloc::Global;
use std::rt::Clock;
use std::sync::Wait;
use std::test::Fail;
use std::thread::Threads;

const SHAPE: &[u8] =
    b"<info><channel_count>1</channel_count><channel_format>int16</channel_format></info>";

// A reply, and two test samples of one zero.
const FEED_FRONT: &[u8] =
    b"LSL/110 200 OK\r\nUID: u1\r\nByte-Order: 1234\r\nSuppress-Subnormals: 0\r\nData-Protocol-Version: 110\r\n\r\n\x02\0\0\0\0\0\0\0\0\0\0\x02\0\0\0\0\0\0\0\0\0\0";

// More than any output or all lines of these tests have.
const ROOM: u64 = 64_000_000;

type Files = Vec<(Name, MemSource)>;

fn add(alloc: Global, files: &mut Files, path: &str, bytes: &[u8]) -> Result<(), Fail> {
    let name = Name::File(Word::from_bytes(alloc, path.as_bytes())?);
    let piece = Piece::Give(Blob::from_bytes(alloc, bytes)?);
    files.push((name, MemSource::new(vec![in alloc; piece]?)))?;
    Ok(())
}

// A feed of so many samples without a stamp.
fn feed_of(alloc: Global, count: usize) -> Result<Vec<u8>, Fail> {
    let mut feed = Vec::new(alloc);
    feed.extend_from_slice(FEED_FRONT)?;
    for _ in 0..count {
        feed.extend_from_slice(b"\x01\x07\0")?;
    }
    Ok(feed)
}

// A header document of so many bytes, of which the last are blanks.
fn document_of(alloc: Global, size: usize) -> Result<Vec<u8>, Fail> {
    let mut document = Vec::new(alloc);
    document.extend_from_slice(SHAPE)?;
    document.resize(size, b' ')?;
    Ok(document)
}

// The status of a command, and the dock behind it.
fn answered(
    rt: &(impl Threads + Wait + Clock + Sync),
    alloc: Global,
    words: &[&str],
    files: Files,
) -> Result<(u8, MemDock), Fail> {
    let mut command = Vec::new(alloc);
    for word in words {
        command.push(Word::from_bytes(alloc, word.as_bytes())?)?;
    }
    let none = Vec::new(alloc);
    let mut dock = MemDock::new(alloc, files, ROOM, none, Vec::new(alloc), Vec::new(alloc))?;
    let status = run(rt, alloc, &command, &mut dock);
    Ok((status, dock))
}

// A recording of so many feeds of so many samples each, by a plan that begins with these lines, ends with
// status 0 and loses none. What it has written.
fn records_all(
    rt: &(impl Threads + Wait + Clock + Sync),
    alloc: Global,
    settings: &str,
    feeds: u32,
    samples: usize,
) -> Result<Vec<u8>, Fail> {
    let feed = feed_of(alloc, samples)?;
    let mut files = Vec::new(alloc);
    let mut plan = String::from_str(alloc, settings)?;
    let mut lines = String::new(alloc);
    for i in 1..=feeds {
        plan.push_str(format!(in alloc; "feed {i} doc doc file feed\n")?.as_str())?;
        let line = format!(in alloc;
            "feed {i} received {samples} kept {samples} lost 0 end whole\n"
        )?;
        lines.push_str(line.as_str())?;
        add(alloc, &mut files, "doc", SHAPE)?;
        add(alloc, &mut files, "feed", &feed)?;
    }
    add(alloc, &mut files, "plan", plan.as_bytes())?;
    let (status, dock) = answered(rt, alloc, &["record", "plan", "out"], files)?;
    if status != 0 || !dock.printed().starts_with(lines.as_bytes()) {
        return Err(Fail::new(format_args!("{settings}: status {status}")));
    }
    let mut held = Vec::new(alloc);
    held.extend_from_slice(dock.held())?;
    Ok(held)
}

// What a command on this file answers: its status, what it has written, and what it said.
fn answer_of(
    rt: &(impl Threads + Wait + Clock + Sync),
    alloc: Global,
    words: &[&str],
    file: &[u8],
) -> Result<(u8, MemDock), Fail> {
    let mut files = Vec::new(alloc);
    add(alloc, &mut files, "in", file)?;
    answered(rt, alloc, words, files)
}

#[test]
fn many_feeds_are_kept_whole_and_read_again(rt: HostRuntime) -> Result<(), Fail> {
    let alloc: Global = rt.alloc();
    for settings in ["mode turns\n", "mode threads\n"] {
        let file = records_all(&rt, alloc, settings, 64, 2000)?;
        let (status, dock) = answer_of(&rt, alloc, &["check", "in"], &file)?;
        assert_eq!(rt; status, 0);
        // a header, a footer and four batches of each feed at least
        let said = dock.printed();
        assert!(rt; said.starts_with(b"chunks ") && said.ends_with(b" notes 0\n"));
        assert!(rt; said.len() == b"chunks 384 notes 0\n".len());
        let (status, dock) = answer_of(&rt, alloc, &["repair", "in", "out"], &file)?;
        assert_eq!(rt; status, 0);
        assert_eq!(rt; dock.held(), file.as_slice());
    }
    Ok(())
}

#[test]
fn a_large_ring_keeps_a_long_feed(rt: HostRuntime) -> Result<(), Fail> {
    let alloc: Global = rt.alloc();
    for settings in ["ring 1048576\nmode turns\n", "ring 1048576\nmode threads\n"] {
        let file = records_all(&rt, alloc, settings, 1, 150_000)?;
        assert!(rt; file.len() > 450_000);
    }
    Ok(())
}

#[test]
fn a_document_of_the_greatest_size_is_kept(rt: HostRuntime) -> Result<(), Fail> {
    let alloc: Global = rt.alloc();
    let feed = feed_of(alloc, 1)?;
    for (size, want) in [(1_048_576, 0), (1_048_577, 6)] {
        let mut files = Vec::new(alloc);
        add(alloc, &mut files, "plan", b"feed 1 doc doc file feed\n")?;
        add(alloc, &mut files, "doc", &document_of(alloc, size)?)?;
        add(alloc, &mut files, "feed", &feed)?;
        let (status, dock) = answered(&rt, alloc, &["record", "plan", "out"], files)?;
        assert_eq!(rt; status, want);
        assert_eq!(rt; dock.held().len() > size, want == 0);
    }
    Ok(())
}

// A stream of one text, and a chunk of one sample whose text has 10,000,000 letters.
fn file_with_a_large_chunk(alloc: Global) -> Result<Vec<u8>, Fail> {
    let mut file = Vec::new(alloc);
    file.extend_from_slice(b"XDF:\x01\x5A\x02\0\x01\0\0\0")?;
    file.extend_from_slice(b"<info><channel_count>1</channel_count><channel_format>string")?;
    file.extend_from_slice(b"</channel_format></info>")?;
    // the tag, the id, one sample, no stamp, and the text's length: 14 bytes, and the text
    file.extend_from_slice(b"\x04\x8E\x96\x98\0\x03\0\x01\0\0\0\x01\x01\0\x04\x80\x96\x98\0")?;
    for _ in 0..10_000_000 {
        file.push(b'a')?;
    }
    Ok(file)
}

#[test]
fn a_large_chunk_is_shown_checked_and_repaired(rt: HostRuntime) -> Result<(), Fail> {
    let alloc: Global = rt.alloc();
    let file = file_with_a_large_chunk(alloc)?;
    let (status, dock) = answer_of(&rt, alloc, &["show", "in"], &file)?;
    assert_eq!(rt; status, 0);
    assert!(rt; dock.printed().len() > 20_000_000);
    // it has no FileHeader and no footer
    let (status, dock) = answer_of(&rt, alloc, &["check", "in"], &file)?;
    assert_eq!(rt; status, 1);
    let notes = b"note 1 - 4\nnote 2 1 4\nchunks 2 notes 2\n";
    assert_eq!(rt; dock.printed(), notes.as_slice());
    for words in [
        ["repair", "in", "out"].as_slice(),
        &["repair", "--search", "in", "out"],
    ] {
        let (status, dock) = answer_of(&rt, alloc, words, &file)?;
        assert_eq!(rt; status, 0);
        assert_eq!(rt; dock.held(), file.as_slice());
    }
    Ok(())
}
