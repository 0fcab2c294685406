use super::*;
use rec_base::{Blob, MemDock, MemSource, Name, Piece};
use std::alloc::Global;
use std::test::Fail;

// A recording of one feed of which two samples of three were dropped: three headers, the row of the
// dropped ones, a sample, and two footers.
const RECORDING: &[u8] =
    b"XDF:\x01\x3A\x01\0<?xml version=\"1.0\"?><info><version>1.0</version></info>\x01\xB6\x02\0\0\0\0\0<?xml version=\"1.0\"?><info><name>overruns</name><type>ledger</type><channel_count>3</channel_count><nominal_srate>0</nominal_srate><channel_format>int64</channel_format></info>\x01\x59\x02\0\x01\0\0\0<info><channel_count>1</channel_count><channel_format>int16</channel_format></info>\x01\x21\x03\0\0\0\0\0\x01\x01\0\x01\0\0\0\0\0\0\0\0\0\0\0\0\0\0\0\x02\0\0\0\0\0\0\0\x01\x0B\x03\0\x01\0\0\0\x01\x01\0\x03\0\x01\x5C\x06\0\0\0\0\0<?xml version=\"1.0\"?><info><sample_count>1</sample_count><overruns>0</overruns></info>\x01\x5C\x06\0\x01\0\0\0<?xml version=\"1.0\"?><info><sample_count>1</sample_count><overruns>2</overruns></info>";

// The same, whose last footer tells five samples.
const MISCOUNTED: &[u8] =
    b"XDF:\x01\x3A\x01\0<?xml version=\"1.0\"?><info><version>1.0</version></info>\x01\xB6\x02\0\0\0\0\0<?xml version=\"1.0\"?><info><name>overruns</name><type>ledger</type><channel_count>3</channel_count><nominal_srate>0</nominal_srate><channel_format>int64</channel_format></info>\x01\x59\x02\0\x01\0\0\0<info><channel_count>1</channel_count><channel_format>int16</channel_format></info>\x01\x21\x03\0\0\0\0\0\x01\x01\0\x01\0\0\0\0\0\0\0\0\0\0\0\0\0\0\0\x02\0\0\0\0\0\0\0\x01\x0B\x03\0\x01\0\0\0\x01\x01\0\x03\0\x01\x5C\x06\0\0\0\0\0<?xml version=\"1.0\"?><info><sample_count>1</sample_count><overruns>0</overruns></info>\x01\x5C\x06\0\x01\0\0\0<?xml version=\"1.0\"?><info><sample_count>5</sample_count><overruns>2</overruns></info>";

// One sample in two channels with a stamp and one without, in a wide Samples chunk.
const TWO_CHANNELS: &[u8] =
    b"XDF:\x01\x59\x02\0\x01\0\0\0<info><channel_count>2</channel_count><channel_format>int16</channel_format></info>\x01\x1D\x03\0\x01\0\0\0\x04\x02\0\0\0\x08\0\0\0\0\0\0\xF0\x3F\x01\0\xFF\xFF\0\x02\0\0\x80";

// A header twice.
const REPEATED: &[u8] =
    b"XDF:\x01\x59\x02\0\x01\0\0\0<info><channel_count>1</channel_count><channel_format>int16</channel_format></info>\x01\x59\x02\0\x01\0\0\0<info><channel_count>1</channel_count><channel_format>int16</channel_format></info>";

// Samples of a stream that has no header.
const UNDECLARED: &[u8] = b"XDF:\x01\x0B\x03\0\x01\0\0\0\x01\x01\0\x05\0";

// A recording of one feed: two headers, a sample, a boundary and a sample. The width of the first
// sample's chunk is wrong.
const DAMAGED: &[u8] =
    b"XDF:\x01\x3A\x01\0<?xml version=\"1.0\"?><info><version>1.0</version></info>\x01\x59\x02\0\x01\0\0\0<info><channel_count>1</channel_count><channel_format>int16</channel_format></info>\0\x0B\x03\0\x01\0\0\0\x01\x01\0\x01\0\x01\x12\x05\0\x43\xA5\x46\xDC\xCB\xF5\x41\x0F\xB3\x0E\xD5\x46\x73\x83\xCB\xE4\x01\x0B\x03\0\x01\0\0\0\x01\x01\0\x02\0";

// What a search keeps of it: the headers and the second sample.
const SALVAGED: &[u8] =
    b"XDF:\x01\x3A\x01\0<?xml version=\"1.0\"?><info><version>1.0</version></info>\x01\x59\x02\0\x01\0\0\0<info><channel_count>1</channel_count><channel_format>int16</channel_format></info>\x01\x0B\x03\0\x01\0\0\0\x01\x01\0\x02\0";

// A chunk of the greatest length, of which two bytes are there, and one whose length is greater by one.
const LONGEST: &[u8] = b"XDF:\x04\0\0\0\x04\x01\0";

const TOO_LONG: &[u8] = b"XDF:\x04\x01\0\0\x04\x01\0";

// The lines of the recording's headers, of all its chunks, and the last one.
const HEADER_LINES: &str =
    "4 file-header bytes 56\n64 stream-header id 0 channels 3 format int64 bytes 176\n248 stream-header id 1 channels 1 format int16 bytes 83\n";

const CHUNK_LINES: &str =
    "4 file-header bytes 56\n64 stream-header id 0 channels 3 format int64 bytes 176\n248 stream-header id 1 channels 1 format int16 bytes 83\n339 samples id 0 count 1\n  none 1 0 2\n374 samples id 1 count 1\n  none 3\n387 stream-footer id 0 bytes 86\n481 stream-footer id 1 bytes 86\n";

const END_LINE: &str = "end 575 chunks 7\n";

// The calls of a dock that fail, counted from 1 for each kind; 0 stands for none.
#[derive(Clone, Copy)]
struct Fails {
    open: u64,
    write: u64,
    say: u64,
}

const NONE: Fails = Fails {
    open: 0,
    write: 0,
    say: 0,
};

const SHOW: &[&str] = &["show", "f"];

const CHECK: &[&str] = &["check", "f"];

const REPAIR: &[&str] = &["repair", "f", "out"];

const SEARCH: &[&str] = &["repair", "--search", "f", "out"];

// A command on a dock with the file `f` of these bytes, whose file `torn` can't be read behind them.
fn run_on(
    alloc: Global,
    words: &[&str],
    bytes: &[u8],
    fails: Fails,
) -> Result<(u8, MemDock), Fail> {
    let mut files = Vec::new(alloc);
    let whole = Piece::Give(Blob::from_bytes(alloc, bytes)?);
    let name = Name::File(Word::from_bytes(alloc, b"f")?);
    files.push((name, MemSource::new(vec![in alloc; whole]?)))?;
    let front = Piece::Give(Blob::from_bytes(alloc, bytes)?);
    let torn = Name::File(Word::from_bytes(alloc, b"torn")?);
    files.push((torn, MemSource::new(vec![in alloc; front, Piece::Fail]?)))?;
    let mut dock = MemDock::new(
        alloc,
        files,
        4096,
        vec![in alloc; fails.open]?,
        vec![in alloc; fails.write]?,
        vec![in alloc; fails.say]?,
    )?;
    let mut command = Vec::new(alloc);
    for word in words {
        command.push(Word::from_bytes(alloc, word.as_bytes())?)?;
    }
    let status = file_main(alloc, &command, &mut dock);
    Ok((status, dock))
}

// Whether the bytes are these parts, one behind the other.
fn is_joined(bytes: &[u8], parts: &[&str]) -> bool {
    let mut rest = bytes;
    for part in parts {
        match rest.strip_prefix(part.as_bytes()) {
            Some(behind) => rest = behind,
            None => return false,
        }
    }
    rest.is_empty()
}

// Whether a command answers the status, says these lines, and creates and writes nothing.
fn reports(
    alloc: Global,
    words: &[&str],
    bytes: &[u8],
    fails: Fails,
    status: u8,
    printed: &[&str],
) -> Result<bool, Fail> {
    let (answer, dock) = run_on(alloc, words, bytes, fails)?;
    let untouched = dock.target().is_empty() && dock.held().is_empty();
    Ok(untouched && answer == status && is_joined(dock.printed(), printed))
}

// Whether a repair answers the status, says this line, and leaves just these bytes in its output.
fn repairs(
    alloc: Global,
    words: &[&str],
    bytes: &[u8],
    fails: Fails,
    status: u8,
    printed: &str,
    kept: &[u8],
) -> Result<bool, Fail> {
    let (answer, dock) = run_on(alloc, words, bytes, fails)?;
    let created = dock.target() == b"out".as_slice() && dock.held() == kept;
    Ok(created && answer == status && dock.printed() == printed.as_bytes())
}

#[test]
fn a_file_is_shown_up_to_where_it_is_cut(rt: HostRuntime) -> Result<(), Fail> {
    for (cut, status, lines, last) in [
        (575, 0, CHUNK_LINES, END_LINE),
        (350, 1, HEADER_LINES, "torn 339 left 11\n"),
        (339, 0, HEADER_LINES, "end 339 chunks 3\n"),
        (4, 0, "", "end 4 chunks 0\n"),
        (3, 3, "", "fault 3\n"),
        (0, 3, "", "fault 3\n"),
    ] {
        let bytes = RECORDING.get(..cut).unwrap_or(&[]);
        let as_told = reports(rt.alloc(), SHOW, bytes, NONE, status, &[lines, last])?;
        assert!(rt; as_told && bytes.len() == cut, "{cut} bytes");
    }
    for (bytes, status, printed) in [
        (
            TWO_CHANNELS,
            0,
            "4 stream-header id 1 channels 2 format int16 bytes 83\n95 samples id 1 count 2\n  3ff0000000000000 1 -1\n  none 2 -32768\nend 126 chunks 2\n",
        ),
        (
            REPEATED,
            6,
            "4 stream-header id 1 channels 1 format int16 bytes 83\nbad 99 why 6\n",
        ),
        (UNDECLARED, 6, "bad 8 why 5\n"),
        (
            b"XDF:\x08\xFF\xFF\xFF\xFF\xFF\xFF\xFF\xFF\x03\0".as_slice(),
            6,
            "bad 4 why 3\n",
        ),
        (TOO_LONG, 6, "bad 4 why 3\n"),
        (LONGEST, 1, "torn 4 left 7\n"),
    ] {
        let as_told = reports(rt.alloc(), SHOW, bytes, NONE, status, &[printed])?;
        assert!(rt; as_told, "{printed}");
    }
    Ok(())
}

#[test]
fn a_file_is_checked(rt: HostRuntime) -> Result<(), Fail> {
    for (bytes, status, printed) in [
        (RECORDING, 0, "chunks 7 notes 0\n"),
        (MISCOUNTED, 1, "note 3 1 481\nchunks 7 notes 1\n"),
        (b"XDF:".as_slice(), 1, "note 1 - 4\nchunks 0 notes 1\n"),
        (b"XDF".as_slice(), 3, "fault 3\n"),
    ] {
        let as_told = reports(rt.alloc(), CHECK, bytes, NONE, status, &[printed])?;
        assert!(rt; as_told, "{printed}");
    }
    Ok(())
}

#[test]
fn whole_chunks_are_kept(rt: HostRuntime) -> Result<(), Fail> {
    for (cut, status, kept, line) in [
        (575, 0, 575, "kept 7 bytes 575 skipped 0\n"),
        (380, 1, 374, "kept 4 bytes 374 skipped 6\n"),
        (374, 0, 374, "kept 4 bytes 374 skipped 0\n"),
        (4, 0, 4, "kept 0 bytes 4 skipped 0\n"),
    ] {
        let bytes = RECORDING.get(..cut).unwrap_or(&[]);
        let front = RECORDING.get(..kept).unwrap_or(&[]);
        let as_told = repairs(rt.alloc(), REPAIR, bytes, NONE, status, line, front)?;
        assert!(rt;
            as_told && bytes.len() == cut && front.len() == kept,
            "{cut} bytes"
        );
    }
    let line = "kept 0 bytes 4 skipped 13\n";
    assert!(rt; repairs(rt.alloc(), REPAIR, UNDECLARED, NONE, 1, line, b"XDF:")?);
    Ok(())
}

#[test]
fn whole_chunks_behind_damage_are_kept(rt: HostRuntime) -> Result<(), Fail> {
    let headers = DAMAGED.get(..155).unwrap_or(&[]);
    assert!(rt; DAMAGED.len() == 201 && SALVAGED.len() == 168);
    for (words, bytes, status, line, kept) in [
        (REPAIR, DAMAGED, 1, "kept 2 bytes 155 skipped 46\n", headers),
        (
            SEARCH,
            DAMAGED,
            1,
            "kept 3 bytes 168 skipped 33\n",
            SALVAGED,
        ),
        (
            SEARCH,
            TOO_LONG,
            1,
            "kept 0 bytes 4 skipped 7\n",
            b"XDF:".as_slice(),
        ),
        (
            SEARCH,
            RECORDING,
            0,
            "kept 7 bytes 575 skipped 0\n",
            RECORDING,
        ),
    ] {
        let as_told = repairs(rt.alloc(), words, bytes, NONE, status, line, kept)?;
        assert!(rt; as_told, "{line}");
    }
    Ok(())
}

#[test]
fn each_fault_has_its_status_and_line(rt: HostRuntime) -> Result<(), Fail> {
    let opening = Fails { open: 1, ..NONE };
    let creating = Fails { open: 2, ..NONE };
    let first_say = Fails { say: 1, ..NONE };
    let second_say = Fails { say: 2, ..NONE };
    for (words, fails, status, printed) in [
        ([].as_slice(), NONE, 2, "fault 2 usage 1\n"),
        (["frob"].as_slice(), NONE, 2, "fault 2 usage 2\n"),
        (["record", "p"].as_slice(), NONE, 2, "fault 2 usage 2\n"),
        (["show", "a", "b"].as_slice(), NONE, 2, "fault 2 usage 3\n"),
        (
            ["repair", "a", "b", "c"].as_slice(),
            NONE,
            2,
            "fault 2 usage 3\n",
        ),
        (
            ["repair", "--find", "f", "out"].as_slice(),
            NONE,
            2,
            "fault 2 usage 3\n",
        ),
        (
            ["repair", "--search", "a", "b", "c"].as_slice(),
            NONE,
            2,
            "fault 2 usage 3\n",
        ),
        (["drill", "0"].as_slice(), NONE, 2, "fault 2 usage 4\n"),
        (
            ["repair", "a", "a"].as_slice(),
            NONE,
            2,
            "fault 2 usage 5\n",
        ),
        (
            ["repair", "--search", "a", "a"].as_slice(),
            NONE,
            2,
            "fault 2 usage 5\n",
        ),
        (["show", "x"].as_slice(), NONE, 4, "fault 4\n"),
        (["check", "x"].as_slice(), NONE, 4, "fault 4\n"),
        (["repair", "x", "out"].as_slice(), NONE, 4, "fault 4\n"),
        (
            ["repair", "--search", "x", "out"].as_slice(),
            NONE,
            4,
            "fault 4\n",
        ),
        (SHOW, opening, 4, "fault 4\n"),
        (CHECK, opening, 4, "fault 4\n"),
        (REPAIR, opening, 4, "fault 4\n"),
        (REPAIR, creating, 4, "fault 4\n"),
        (SEARCH, creating, 4, "fault 4\n"),
        (SHOW, first_say, 8, ""),
        (SHOW, second_say, 8, "4 file-header bytes 56\n"),
        (CHECK, first_say, 8, ""),
    ] {
        let as_told = reports(rt.alloc(), words, RECORDING, fails, status, &[printed])?;
        assert!(rt; as_told, "{status}");
    }
    // Behind the bytes a read fails.
    let headers = RECORDING.get(..339).unwrap_or(&[]);
    let torn = ["show", "torn"].as_slice();
    let lines = [HEADER_LINES, "fault 4\n"];
    assert!(rt; reports(rt.alloc(), torn, headers, NONE, 4, &lines)?);
    let torn = ["check", "torn"].as_slice();
    assert!(rt; reports(rt.alloc(), torn, headers, NONE, 4, &["fault 4\n"])?);
    Ok(())
}

#[test]
fn each_fault_of_a_repair_leaves_whole_chunks(rt: HostRuntime) -> Result<(), Fail> {
    // All of it waits for one write.
    let writing = Fails { write: 1, ..NONE };
    let saying = Fails { say: 1, ..NONE };
    let headers = RECORDING.get(..339).unwrap_or(&[]);
    assert!(rt; repairs(rt.alloc(), REPAIR, headers, writing, 5, "fault 5\n", b"")?);
    assert!(rt; repairs(rt.alloc(), REPAIR, headers, saying, 8, "", headers)?);
    let torn = ["repair", "torn", "out"].as_slice();
    assert!(rt; repairs(rt.alloc(), torn, headers, NONE, 4, "fault 4\n", headers)?);
    // No output is created for what is no such file.
    let other = b"XDF".as_slice();
    assert!(rt; reports(rt.alloc(), REPAIR, other, NONE, 3, &["fault 3\n"])?);
    assert!(rt; reports(rt.alloc(), SEARCH, other, NONE, 3, &["fault 3\n"])?);
    Ok(())
}

#[test]
fn a_drill_tells_its_numbers(rt: HostRuntime) -> Result<(), Fail> {
    for (word, printed) in [
        ("4", "drill 4 bytes 975 chunks 11 kept 6 lost 0 notes 0\n"),
        (
            "100",
            "drill 100 bytes 2077 chunks 13 kept 124 lost 36 notes 0\n",
        ),
    ] {
        let words = ["drill", word];
        assert!(rt; reports(rt.alloc(), &words, b"", NONE, 0, &[printed])?);
    }
    let saying = Fails { say: 1, ..NONE };
    let drill = ["drill", "1"];
    assert!(rt; reports(rt.alloc(), &drill, b"", saying, 8, &[""])?);
    Ok(())
}
