use super::*;
use boundary_search::Salvager;
use file_reader::FileReader;
use rec_base::{Blob, Dock, MemDock, MemSink, MemSource, Piece, Sink, Word};
use std::alloc::Global;
use std::test::Fail;

// A recording of one feed of which two samples of three were dropped: three headers, the row of the
// dropped ones, a sample, and two footers.
const RECORDING: &[u8] =
    b"XDF:\x01\x3A\x01\0<?xml version=\"1.0\"?><info><version>1.0</version></info>\x01\xB6\x02\0\0\0\0\0<?xml version=\"1.0\"?><info><name>overruns</name><type>ledger</type><channel_count>3</channel_count><nominal_srate>0</nominal_srate><channel_format>int64</channel_format></info>\x01\x59\x02\0\x01\0\0\0<info><channel_count>1</channel_count><channel_format>int16</channel_format></info>\x01\x21\x03\0\0\0\0\0\x01\x01\0\x01\0\0\0\0\0\0\0\0\0\0\0\0\0\0\0\x02\0\0\0\0\0\0\0\x01\x0B\x03\0\x01\0\0\0\x01\x01\0\x03\0\x01\x5C\x06\0\0\0\0\0<?xml version=\"1.0\"?><info><sample_count>1</sample_count><overruns>0</overruns></info>\x01\x5C\x06\0\x01\0\0\0<?xml version=\"1.0\"?><info><sample_count>1</sample_count><overruns>2</overruns></info>";

// A file header, the header of a stream of texts, a text of 36 bytes that is the boundary's sixteen and
// then a boundary chunk, and a boundary.
const BOUNDARY_IN_A_TEXT: &[u8] =
    b"XDF:\x01\x3A\x01\0<?xml version=\"1.0\"?><info><version>1.0</version></info>\x01\x5A\x02\0\x01\0\0\0<info><channel_count>1</channel_count><channel_format>string</channel_format></info>\x01\x2F\x03\0\x01\0\0\0\x01\x01\0\x01\x24\x43\xA5\x46\xDC\xCB\xF5\x41\x0F\xB3\x0E\xD5\x46\x73\x83\xCB\xE4\x01\x12\x05\0\x43\xA5\x46\xDC\xCB\xF5\x41\x0F\xB3\x0E\xD5\x46\x73\x83\xCB\xE4\x01\x12\x05\0\x43\xA5\x46\xDC\xCB\xF5\x41\x0F\xB3\x0E\xD5\x46\x73\x83\xCB\xE4";

// The same with a wrong width where the text's chunk begins.
const BAD_TEXT: &[u8] =
    b"XDF:\x01\x3A\x01\0<?xml version=\"1.0\"?><info><version>1.0</version></info>\x01\x5A\x02\0\x01\0\0\0<info><channel_count>1</channel_count><channel_format>string</channel_format></info>\x02\x2F\x03\0\x01\0\0\0\x01\x01\0\x01\x24\x43\xA5\x46\xDC\xCB\xF5\x41\x0F\xB3\x0E\xD5\x46\x73\x83\xCB\xE4\x01\x12\x05\0\x43\xA5\x46\xDC\xCB\xF5\x41\x0F\xB3\x0E\xD5\x46\x73\x83\xCB\xE4\x01\x12\x05\0\x43\xA5\x46\xDC\xCB\xF5\x41\x0F\xB3\x0E\xD5\x46\x73\x83\xCB\xE4";

// A file header, the header of a stream of numbers, a sample, a boundary and a sample, with a wrong width where
// the first sample's chunk begins.
const DAMAGED: &[u8] =
    b"XDF:\x01\x3A\x01\0<?xml version=\"1.0\"?><info><version>1.0</version></info>\x01\x59\x02\0\x01\0\0\0<info><channel_count>1</channel_count><channel_format>int16</channel_format></info>\0\x0B\x03\0\x01\0\0\0\x01\x01\0\x01\0\x01\x12\x05\0\x43\xA5\x46\xDC\xCB\xF5\x41\x0F\xB3\x0E\xD5\x46\x73\x83\xCB\xE4\x01\x0B\x03\0\x01\0\0\0\x01\x01\0\x02\0";

// A length that goes far past the file's end.
const LONGEST: &[u8] = b"XDF:\x04\0\0\0\x04\x01\0";

// A chunk whose length has a wider width than it needs.
const WIDE_LENGTH: &[u8] = b"XDF:\x04\x03\0\0\0\x07\0!\x01\x02\x07\0";

fn source_of(alloc: Global, bytes: &[u8], size: usize) -> Result<MemSource, Fail> {
    let mut pieces = Vec::new(alloc);
    for piece in bytes.chunks(size.max(1)) {
        pieces.push(Piece::Give(Blob::from_bytes(alloc, piece)?))?;
    }
    Ok(MemSource::new(pieces))
}

// How the repair of a source into a sink ends, where that is a file.
fn repaired<K: Sink>(
    alloc: Global,
    source: MemSource,
    limit: u64,
    sink: &mut K,
) -> Option<Repaired> {
    let Ok(mut reader) = FileReader::open(alloc, source, limit.clamp(4, 4096)) else {
        return None;
    };
    Some(repair_front(&mut reader, sink))
}

// Whether the repair of the first bytes of a file, so many, ends so and writes just its first bytes.
fn is_repaired(
    alloc: Global,
    file: &[u8],
    size: usize,
    limit: u64,
    want: Repaired,
    front: usize,
) -> Result<bool, Fail> {
    let cut = file.get(..size).unwrap_or_default();
    for piece in [1, 100, 575] {
        let source = source_of(alloc, cut, piece)?;
        let mut sink = MemSink::new(alloc);
        let is = repaired(alloc, source, limit, &mut sink) == Some(want);
        if !is || file.get(..front) != Some(sink.held()) {
            return Ok(false);
        }
    }
    Ok(true)
}

// Whether each cut from one size up to another yields so many chunks, of so many bytes with the magic.
fn cuts_yield(
    alloc: Global,
    first: usize,
    last: usize,
    chunks: u64,
    bytes: u64,
) -> Result<bool, Fail> {
    for size in first..last {
        let skipped = (size as u64).saturating_sub(bytes);
        let want = Repaired::Done {
            chunks,
            bytes,
            skipped,
        };
        if !is_repaired(alloc, RECORDING, size, 575, want, bytes as usize)? {
            return Ok(false);
        }
    }
    Ok(true)
}

#[test]
fn a_cut_recording_yields_its_whole_chunks(rt: HostRuntime) -> Result<(), Fail> {
    for (first, last, chunks, bytes) in [
        (4, 64, 0, 4),
        (64, 248, 1, 64),
        (248, 339, 2, 248),
        (339, 374, 3, 339),
        (374, 387, 4, 374),
        (387, 481, 5, 387),
        (481, 575, 6, 481),
        (575, 576, 7, 575),
    ] {
        assert!(rt;
            cuts_yield(rt.alloc(), first, last, chunks, bytes)?,
            "{first}"
        );
    }
    Ok(())
}

fn done(chunks: u64, bytes: u64, skipped: u64) -> Repaired {
    Repaired::Done {
        chunks,
        bytes,
        skipped,
    }
}

#[test]
fn a_repair_goes_up_to_the_first_fault(rt: HostRuntime) -> Result<(), Fail> {
    for (file, size, limit, want, front) in [
        // A boundary within a torn chunk isn't looked for.
        (BOUNDARY_IN_A_TEXT, 204, 225, done(2, 156, 48), 156),
        (BOUNDARY_IN_A_TEXT, 225, 225, done(4, 225, 0), 225),
        (BAD_TEXT, 225, 225, done(2, 156, 69), 156),
        (DAMAGED, 201, 201, done(2, 155, 46), 155),
        // No length is written anew.
        (WIDE_LENGTH, 16, 16, done(2, 16, 0), 16),
        (RECORDING, 575, 574, Repaired::SizeLimit, 481),
        (BAD_TEXT, 225, 224, Repaired::SizeLimit, 156),
    ] {
        assert!(rt;
            is_repaired(rt.alloc(), file, size, limit, want, front)?,
            "{size} {limit}"
        );
    }
    Ok(())
}

// Bytes, then a read that fails, and then one byte more.
fn failing(alloc: Global, bytes: &[u8]) -> Result<MemSource, Fail> {
    let front = Piece::Give(Blob::from_bytes(alloc, bytes)?);
    let rest = Piece::Give(Blob::from_bytes(alloc, b"!")?);
    Ok(MemSource::new(vec![in alloc; front, Piece::Fail, rest]?))
}

#[test]
fn a_failed_read_or_write_ends_a_repair(rt: HostRuntime) -> Result<(), Fail> {
    let alloc = rt.alloc();
    let front = RECORDING.get(..100).unwrap_or_default();
    let mut sink = MemSink::new(alloc);
    let is = repaired(alloc, failing(alloc, front)?, 575, &mut sink);
    assert!(rt; is == Some(Repaired::ReadFault));
    assert!(rt; Some(sink.held()) == RECORDING.get(..64));

    let mut sink = MemSink::new(alloc);
    let is = repaired(alloc, failing(alloc, b"XDF:\x02")?, 575, &mut sink);
    assert!(rt; is == Some(Repaired::ReadFault));
    assert!(rt; sink.held() == b"XDF:".as_slice());

    let mut dock = MemDock::new(
        alloc,
        Vec::new(alloc),
        100,
        Vec::new(alloc),
        Vec::new(alloc),
        Vec::new(alloc),
    )?;
    let created = dock.create(&Word::from_bytes(alloc, b"out")?);
    assert!(rt; created.is_ok());
    let is = repaired(alloc, source_of(alloc, RECORDING, 575)?, 575, &mut dock);
    assert!(rt; is == Some(Repaired::WriteFault));
    assert!(rt; Some(dock.held()) == RECORDING.get(..100));
    Ok(())
}

// How the repair behind damage too of a source into a sink ends, where that is a file.
fn searched<K: Sink>(
    alloc: Global,
    source: MemSource,
    limit: u64,
    sink: &mut K,
) -> Option<Repaired> {
    let Ok(mut salvager) = Salvager::open(alloc, source, limit.clamp(4, 4096)) else {
        return None;
    };
    Some(repair_search(&mut salvager, sink))
}

// Whether bytes are a file's first ones, so many, and then its bytes from a place on, as far as they go.
fn is_joined(bytes: &[u8], file: &[u8], front: usize, place: usize) -> bool {
    let behind = bytes.get(front..).unwrap_or_default();
    bytes.get(..front) == file.get(..front)
        && file.get(place..).unwrap_or_default().starts_with(behind)
}

#[test]
fn a_search_goes_on_behind_damage(rt: HostRuntime) -> Result<(), Fail> {
    let alloc = rt.alloc();
    for (file, limit, want, front, place, size) in [
        (RECORDING, 575, done(7, 575, 0), 575, 575, 575),
        (DAMAGED, 201, done(3, 168, 33), 155, 188, 168),
        // A boundary's bytes in the text of a damaged chunk end what is skipped, as any do.
        (BAD_TEXT, 225, done(4, 196, 29), 156, 185, 196),
        (LONGEST, 11, done(0, 4, 7), 4, 11, 4),
        (DAMAGED, 200, Repaired::SizeLimit, 155, 188, 155),
        (DAMAGED, 187, Repaired::SizeLimit, 155, 188, 155),
    ] {
        for piece in [1, 100, 575] {
            let source = source_of(alloc, file, piece)?;
            let mut sink = MemSink::new(alloc);
            let is = searched(alloc, source, limit, &mut sink);
            assert!(rt; is == Some(want), "{front} {limit} {piece}");
            assert!(rt; sink.held().len() == size, "{front} {limit} {piece}");
            assert!(rt;
                is_joined(sink.held(), file, front, place),
                "{front} {limit} {piece}"
            );
        }
    }
    Ok(())
}

#[test]
fn a_failed_read_or_write_ends_a_search(rt: HostRuntime) -> Result<(), Fail> {
    let alloc = rt.alloc();
    // Within the bytes of the boundary.
    let front = DAMAGED.get(..180).unwrap_or_default();
    let mut sink = MemSink::new(alloc);
    let is = searched(alloc, failing(alloc, front)?, 201, &mut sink);
    assert!(rt; is == Some(Repaired::ReadFault));
    assert!(rt; Some(sink.held()) == DAMAGED.get(..155));

    let mut dock = MemDock::new(
        alloc,
        Vec::new(alloc),
        160,
        Vec::new(alloc),
        Vec::new(alloc),
        Vec::new(alloc),
    )?;
    let created = dock.create(&Word::from_bytes(alloc, b"out")?);
    assert!(rt; created.is_ok());
    let is = searched(alloc, source_of(alloc, DAMAGED, 575)?, 201, &mut dock);
    assert!(rt; is == Some(Repaired::WriteFault));
    assert!(rt; dock.held().len() == 160);
    assert!(rt; is_joined(dock.held(), DAMAGED, 155, 188));
    Ok(())
}
