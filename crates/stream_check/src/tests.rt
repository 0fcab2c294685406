use super::*;
use file_reader::FileReader;
use rec_base::{Blob, MemDock, MemSource, Piece};
use std::alloc::Global;
use std::test::Fail;

// The magic and three headers: of the file, of the ledger, and of stream 1.
const HEADERS: &[u8] =
    b"XDF:\x01\x3A\x01\0<?xml version=\"1.0\"?><info><version>1.0</version></info>\x01\xB6\x02\0\0\0\0\0<?xml version=\"1.0\"?><info><name>overruns</name><type>ledger</type><channel_count>3</channel_count><nominal_srate>0</nominal_srate><channel_format>int64</channel_format></info>\x01\x59\x02\0\x01\0\0\0<info><channel_count>1</channel_count><channel_format>int16</channel_format></info>";

// What stands behind them where two samples of three were dropped: their row, a sample, and two
// footers.
const BODY: &[u8] =
    b"\x01\x21\x03\0\0\0\0\0\x01\x01\0\x01\0\0\0\0\0\0\0\0\0\0\0\0\0\0\0\x02\0\0\0\0\0\0\0\x01\x0B\x03\0\x01\0\0\0\x01\x01\0\x03\0\x01\x5C\x06\0\0\0\0\0<?xml version=\"1.0\"?><info><sample_count>1</sample_count><overruns>0</overruns></info>\x01\x5C\x06\0\x01\0\0\0<?xml version=\"1.0\"?><info><sample_count>1</sample_count><overruns>2</overruns></info>";

// Four rows, of which the second begins within the first, and the third is of a stream without a
// header; and footers that count two samples of stream 1, and the positions of the two good rows.
const BAD_ROWS: &[u8] =
    b"\x01\x6C\x03\0\0\0\0\0\x01\x04\0\x01\0\0\0\0\0\0\0\0\0\0\0\0\0\0\0\x02\0\0\0\0\0\0\0\0\x01\0\0\0\0\0\0\0\x01\0\0\0\0\0\0\0\x05\0\0\0\0\0\0\0\0\x02\0\0\0\0\0\0\0\0\0\0\0\0\0\0\0\x01\0\0\0\0\0\0\0\0\x01\0\0\0\0\0\0\0\x02\0\0\0\0\0\0\0\x03\0\0\0\0\0\0\0\x01\x5C\x06\0\0\0\0\0<?xml version=\"1.0\"?><info><sample_count>4</sample_count><overruns>9</overruns></info>\x01\x5C\x06\0\x01\0\0\0<?xml version=\"1.0\"?><info><sample_count>2</sample_count><overruns>5</overruns></info>";

// A file header with a byte that is no UTF-8, one with the version, a stream of texts with a sample
// that is no UTF-8, a chunk of another tag, and two footers of the stream, which tell nothing.
const NOTED: &[u8] =
    b"XDF:\x01\x04\x01\0x\xFF\x01\x18\x01\0<version>1.0</version>\x01\x4D\x02\0\x07\0\0\0<channel_count>1</channel_count><channel_format>string</channel_format>\x01\x0C\x03\0\x07\0\0\0\x01\x01\0\x01\x01\xFF\x01\x03\x09\0A\x01\x07\x06\0\x07\0\0\0d\x01\x07\x06\0\x07\0\0\0\xFF";

const TWICE: &[u8] =
    b"XDF:\x01\x59\x02\0\x01\0\0\0<info><channel_count>1</channel_count><channel_format>int16</channel_format></info>\x01\x59\x02\0\x01\0\0\0<info><channel_count>1</channel_count><channel_format>int16</channel_format></info>";

const CLOCK: &[u8] =
    b"XDF:\x01\x16\x04\0\x07\0\0\0\0\0\0\0\0\0\xF0\x3F\0\0\0\0\0\0\0\0\x01\x12\x05\0\x43\xA5\x46\xDC\xCB\xF5\x41\x0F\xB3\x0E\xD5\x46\x73\x83\xCB\xE4";

fn joined(alloc: Global, parts: &[&[u8]]) -> Result<Vec<u8>, Fail> {
    let mut bytes = Vec::new(alloc);
    for part in parts {
        bytes.extend_from_slice(part)?;
    }
    Ok(bytes)
}

fn dock_of(alloc: Global, fail_says: Vec<u64>) -> Result<MemDock, Fail> {
    Ok(MemDock::new(
        alloc,
        Vec::new(alloc),
        4096,
        Vec::new(alloc),
        Vec::new(alloc),
        fail_says,
    )?)
}

// Whether a check of these bytes, of which so many count and behind which a read fails or not, ends
// so and says this, where the line of that number fails.
fn checks(
    alloc: Global,
    bytes: &[u8],
    limit: u64,
    fails: bool,
    fail_say: u64,
    want: (CheckEnd, &str),
) -> Result<bool, Fail> {
    let mut pieces = vec![in alloc; Piece::Give(Blob::from_bytes(alloc, bytes)?)]?;
    if fails {
        pieces.push(Piece::Fail)?;
    }
    let Ok(mut reader) = FileReader::open(alloc, MemSource::new(pieces), limit.clamp(4, 4096))
    else {
        return Ok(false);
    };
    let mut dock = dock_of(alloc, vec![in alloc; fail_say]?)?;
    let end = check_file(alloc, &mut reader, &mut dock);
    Ok(end == want.0 && dock.printed() == want.1.as_bytes())
}

fn done(chunks: u64, notes: u64, text: &str) -> (CheckEnd, &str) {
    (CheckEnd::Done { chunks, notes }, text)
}

// The same where nothing fails and all bytes count.
fn says(alloc: Global, bytes: &[u8], want: (CheckEnd, &str)) -> Result<bool, Fail> {
    checks(alloc, bytes, 4096, false, 0, want)
}

#[test]
fn a_file_without_a_file_header_has_a_note(rt: HostRuntime) -> Result<(), Fail> {
    let alloc = rt.alloc();
    let want = done(0, 1, "note 1 - 4\nchunks 0 notes 1\n");
    assert!(rt; says(alloc, b"XDF:", want)?);
    let want = done(1, 2, "note 1 - 4\nnote 9 - 4\nchunks 1 notes 2\n");
    assert!(rt; says(alloc, b"XDF:\x01\x03\x09\0A", want)?);
    let want = done(2, 1, "note 1 - 4\nchunks 2 notes 1\n");
    assert!(rt; says(alloc, CLOCK, want)?);
    Ok(())
}

#[test]
fn an_end_that_is_none_has_a_note(rt: HostRuntime) -> Result<(), Fail> {
    let alloc = rt.alloc();
    let want = "note 1 - 4\nnote 8 - 99\nnote 2 1 4\nchunks 1 notes 3\n";
    assert!(rt; says(alloc, TWICE, done(1, 3, want))?);
    let want = "note 1 - 4\nnote 8 - 8\nchunks 0 notes 2\n";
    let unknown = b"XDF:\x01\x0B\x03\0\x01\0\0\0\x01\x01\0\x05\0";
    assert!(rt; says(alloc, unknown, done(0, 2, want))?);
    let want = "note 7 - 339\nnote 2 0 64\nnote 2 1 248\nchunks 3 notes 3\n";
    let torn = joined(alloc, &[HEADERS, b"\x01"])?;
    assert!(rt; says(alloc, &torn, done(3, 3, want))?);
    Ok(())
}

#[test]
fn a_recording_has_no_note_and_a_changed_count_has_one(rt: HostRuntime) -> Result<(), Fail> {
    let alloc = rt.alloc();
    let mut bytes = joined(alloc, &[HEADERS, BODY])?;
    assert!(rt; says(alloc, &bytes, done(7, 0, "chunks 7 notes 0\n"))?);
    if let Some(digit) = bytes.get_mut(530) {
        *digit = b'5';
    }
    let want = "note 3 1 481\nchunks 7 notes 1\n";
    assert!(rt; says(alloc, &bytes, done(7, 1, want))?);
    if let Some(digit) = bytes.get_mut(556) {
        *digit = b'3';
    }
    let want = "note 3 1 481\nnote 4 1 481\nchunks 7 notes 2\n";
    assert!(rt; says(alloc, &bytes, done(7, 2, want))?);
    Ok(())
}

#[test]
fn bad_rows_are_noted_once_and_dont_count(rt: HostRuntime) -> Result<(), Fail> {
    let alloc = rt.alloc();
    let bytes = joined(alloc, &[HEADERS, BAD_ROWS])?;
    let want = "note 12 0 339\nnote 3 1 543\nchunks 6 notes 2\n";
    assert!(rt; says(alloc, &bytes, done(6, 2, want))?);
    Ok(())
}

#[test]
fn each_kind_of_chunk_has_its_notes(rt: HostRuntime) -> Result<(), Fail> {
    let want =
        "note 10 - 4\nnote 5 - 4\nnote 11 - 10\nnote 6 7 115\nnote 9 - 129\nnote 11 7 143\nnote 5 7 143\nchunks 7 notes 7\n";
    assert!(rt; says(rt.alloc(), NOTED, done(7, 7, want))?);
    Ok(())
}

#[test]
fn a_reading_that_stops_has_no_last_line(rt: HostRuntime) -> Result<(), Fail> {
    let alloc = rt.alloc();
    let want = (CheckEnd::ReadFault, "");
    assert!(rt; checks(alloc, b"XDF:", 4096, true, 0, want)?);
    assert!(rt; checks(alloc, HEADERS, 4096, true, 0, want)?);
    let want = (CheckEnd::ReadFault, "note 1 - 4\n");
    assert!(rt; checks(alloc, CLOCK, 4096, true, 0, want)?);
    assert!(rt; checks(alloc, HEADERS, 64, false, 0, (CheckEnd::SizeLimit, ""))?);
    Ok(())
}

#[test]
fn a_line_that_fails_is_the_last(rt: HostRuntime) -> Result<(), Fail> {
    let alloc = rt.alloc();
    let want = (CheckEnd::PrintFault, "");
    assert!(rt; checks(alloc, TWICE, 4096, false, 1, want)?);
    let want = (CheckEnd::PrintFault, "note 1 - 4\n");
    assert!(rt; checks(alloc, TWICE, 4096, false, 2, want)?);
    let want = (
        CheckEnd::PrintFault,
        "note 1 - 4\nnote 8 - 99\nnote 2 1 4\n",
    );
    assert!(rt; checks(alloc, TWICE, 4096, false, 4, want)?);
    Ok(())
}
