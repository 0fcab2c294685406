ghost use Rattle.std.specs.Prelude.{Some};
ghost use Rattle.rec_base.specs.MemSource.{bytes_left};
ghost use Rattle.file_reader.specs.FileInlet.{HasStopped};

use super::*;
use chunk_grammar::tag_of_chunk;
use rec_base::{Blob, Failed, MemSource, Piece, Source};
use sample_values::{Format, Shape};
use std::alloc::Global;
use std::test::Fail;

// A recording of one feed of which two samples of three were dropped: three headers, the row of the
// dropped ones, a sample, and two footers.
const RECORDING: &[u8] =
    b"XDF:\x01\x3A\x01\0<?xml version=\"1.0\"?><info><version>1.0</version></info>\x01\xB6\x02\0\0\0\0\0<?xml version=\"1.0\"?><info><name>overruns</name><type>ledger</type><channel_count>3</channel_count><nominal_srate>0</nominal_srate><channel_format>int64</channel_format></info>\x01\x59\x02\0\x01\0\0\0<info><channel_count>1</channel_count><channel_format>int16</channel_format></info>\x01\x21\x03\0\0\0\0\0\x01\x01\0\x01\0\0\0\0\0\0\0\0\0\0\0\0\0\0\0\x02\0\0\0\0\0\0\0\x01\x0B\x03\0\x01\0\0\0\x01\x01\0\x03\0\x01\x5C\x06\0\0\0\0\0<?xml version=\"1.0\"?><info><sample_count>1</sample_count><overruns>0</overruns></info>\x01\x5C\x06\0\x01\0\0\0<?xml version=\"1.0\"?><info><sample_count>1</sample_count><overruns>2</overruns></info>";

const UNKNOWN_STREAM: &[u8] = b"XDF:\x01\x0B\x03\0\x01\0\0\0\x01\x01\0\x05\0";

const REPEATED_STREAM: &[u8] =
    b"XDF:\x01\x59\x02\0\x01\0\0\0<info><channel_count>1</channel_count><channel_format>int16</channel_format></info>\x01\x59\x02\0\x01\0\0\0<info><channel_count>1</channel_count><channel_format>int16</channel_format></info>";

// A source that tells none of its bytes.
#[derive(Drop)]
struct Untold {
    bytes: MemSource,
}

impl Source for Untold {
    ghost use Rattle.std.specs.Prelude.{None};
    ghost use Rattle.rec_base.specs.MemSource.{faults_of};

    ghost left = { λ _. None };

    ghost faults = { λ s. faults_of s.bytes };

    ghost mark = { λ _. tt };

    fn read(&mut self, buf: &mut [u8]) -> Result<usize, Failed> {
        self.bytes.read(buf)
    }
}

// The bytes in pieces of so many bytes.
fn source_of(alloc: Global, bytes: &[u8], size: usize) -> Result<MemSource, Fail> {
    let mut pieces = Vec::new(alloc);
    for piece in bytes.chunks(size.max(1)) {
        pieces.push(Piece::Give(Blob::from_bytes(alloc, piece)?))?;
    }
    Ok(MemSource::new(pieces))
}

// The answers up to the end: a chunk by its place, its tag and the size of its text, and the end.
// Marks are set where the text isn't the file's, where the end is not the same once more, and where
// a text is left then.
fn answers<S: Source + Drop>(
    alloc: Global,
    file: &[u8],
    source: S,
    limit: u64,
) -> Result<String, Fail> {
    let mut reader = match FileReader::open(alloc, source, limit.clamp(4, 4096)) {
        Ok(reader) => reader,
        Err(fault) => return Ok(format!(in alloc; "{fault:?}")?),
    };
    let mut told = String::new(alloc);
    for _ in 0..1001 {
        let next = reader.next();
        let text = reader.last_bytes();
        match next {
            Next::Chunk { at, chunk } => {
                let tag = tag_of_chunk(&chunk);
                let is_there = file
                    .get(at as usize..)
                    .is_some_and(|rest| rest.starts_with(text));
                let mark = if is_there { "" } else { "?" };
                told.push_str(&format!(in alloc; "{at}:{tag}/{}{mark} ", text.len())?)?;
            }
            end => {
                let left = if text.is_empty() { "" } else { "?" };
                let again = reader.next();
                let same = format!(in alloc; "{end:?}")? == format!(in alloc; "{again:?}")?;
                let mark = if same { "" } else { "?" };
                told.push_str(&format!(in alloc; "{end:?}{left}{mark}")?)?;
                return Ok(told);
            }
        }
    }
    Ok(told)
}

#[test]
fn a_recording_is_given_in_any_pieces(rt: HostRuntime) -> Result<(), Fail> {
    let rows: [(usize, u64, &str); 10] = [
        (
            575,
            575,
            "4:1/60 64:2/184 248:2/91 339:3/35 374:3/13 387:6/94 481:6/94 End { at: 575 }",
        ),
        (
            575,
            574,
            "4:1/60 64:2/184 248:2/91 339:3/35 374:3/13 387:6/94 SizeLimit",
        ),
        (575, 64, "4:1/60 SizeLimit"),
        (575, 4, "SizeLimit"),
        (
            574,
            575,
            "4:1/60 64:2/184 248:2/91 339:3/35 374:3/13 387:6/94 Torn { at: 481, left: 93 }",
        ),
        (
            380,
            575,
            "4:1/60 64:2/184 248:2/91 339:3/35 Torn { at: 374, left: 6 }",
        ),
        (
            374,
            374,
            "4:1/60 64:2/184 248:2/91 339:3/35 End { at: 374 }",
        ),
        (4, 4, "End { at: 4 }"),
        (3, 575, "NotXdf"),
        (0, 575, "NotXdf"),
    ];
    for (size, limit, told) in rows {
        let file = &RECORDING[..size];
        for piece in [1, 7, 575] {
            let source = source_of(rt.alloc(), file, piece)?;
            let is = answers(rt.alloc(), file, source, limit)?;
            assert_eq!(rt; is.as_str(), told, "{size} {piece}");
        }
    }
    Ok(())
}

#[test]
fn a_place_without_a_whole_chunk_is_told(rt: HostRuntime) -> Result<(), Fail> {
    let rows: [(&[u8], &str); 6] = [
        (b"XDF:\x04\0\0\0\x04\x03\0", "Torn { at: 4, left: 7 }"),
        (b"XDF:\x04\x01\0\0\x04", "Bad { at: 4, why: TooLong }"),
        (UNKNOWN_STREAM, "Bad { at: 8, why: UnknownStream }"),
        (
            REPEATED_STREAM,
            "4:2/91 Bad { at: 99, why: RepeatedStream }",
        ),
        (b"XDF:\x02", "Bad { at: 4, why: BadWidth }"),
        (b"XDF;\x01\x02\x07\0", "NotXdf"),
    ];
    for (file, told) in rows {
        for piece in [1, 575] {
            let source = source_of(rt.alloc(), file, piece)?;
            let is = answers(rt.alloc(), file, source, 4096)?;
            assert_eq!(rt; is.as_str(), told);
        }
    }
    Ok(())
}

#[test]
fn bytes_that_are_not_told_are_read_the_same(rt: HostRuntime) -> Result<(), Fail> {
    let bytes = source_of(rt.alloc(), RECORDING, 100)?;
    let is = answers(rt.alloc(), RECORDING, Untold { bytes }, 575)?;
    assert_eq!(rt;
        is.as_str(),
        "4:1/60 64:2/184 248:2/91 339:3/35 374:3/13 387:6/94 481:6/94 End { at: 575 }"
    );
    Ok(())
}

// A source that fails behind the first bytes of the recording, and then gives one byte more.
fn failing(alloc: Global, size: usize) -> Result<MemSource, Fail> {
    let front = Piece::Give(Blob::from_bytes(alloc, &RECORDING[..size.min(100)])?);
    let rest = Piece::Give(Blob::from_bytes(alloc, b"!")?);
    Ok(MemSource::new(vec![in alloc; front, Piece::Fail, rest]?))
}

#[test]
fn after_a_failed_read_nothing_is_read(rt: HostRuntime) -> Result<(), Fail> {
    let is = answers(rt.alloc(), RECORDING, failing(rt.alloc(), 100)?, 575)?;
    assert_eq!(rt; is.as_str(), "4:1/60 ReadFault");
    let is = answers(rt.alloc(), RECORDING, failing(rt.alloc(), 3)?, 575)?;
    assert_eq!(rt; is.as_str(), "ReadFault");

    let Ok(mut reader) = FileReader::open(rt.alloc(), failing(rt.alloc(), 4)?, 575) else {
        panic!(rt; "no file");
    };
    for _ in 0..3 {
        let next = reader.next();
        assert!(rt; matches!(next, Next::ReadFault));
    }
    let mut buffer = [0; 4];
    let left = reader.into_source().read(&mut buffer);
    assert_eq!(rt; left, Ok(1));
    assert_eq!(rt; buffer[0], b'!');
    Ok(())
}

#[test]
fn headers_are_known_and_texts_are_held(rt: HostRuntime) -> Result<(), Fail> {
    let source = source_of(rt.alloc(), RECORDING, 575)?;
    let Ok(mut reader) = FileReader::open(rt.alloc(), source, 575) else {
        panic!(rt; "no file");
    };
    let int16 = Shape {
        count: 1,
        format: Format::Int16,
    };
    for (shape, held) in [(None, 0), (None, 571), (None, 511), (Some(int16), 327)] {
        let is = (reader.context().shape_of(1), reader.held_bytes());
        assert!(rt; is == (shape, held));
        let _ = reader.next();
    }
    Ok(())
}

#[test]
fn small_chunks_come_one_by_one(rt: HostRuntime) -> Result<(), Fail> {
    let mut file = Vec::from_array(rt.alloc(), *b"XDF:")?;
    for _ in 0..1000 {
        file.extend_from_slice(b"\x01\x02\x07\0")?;
    }
    let source = source_of(rt.alloc(), &file, 1)?;
    let Ok(mut reader) = FileReader::open(rt.alloc(), source, 4004) else {
        panic!(rt; "no file");
    };
    let mut chunks = 0u64;
    for _ in 0..1000 {
        let next = reader.next();
        if matches!(next, Next::Chunk { .. })
            && reader.last_bytes() == b"\x01\x02\x07\0".as_slice()
        {
            chunks = chunks.saturating_add(1);
        }
    }
    assert_eq!(rt; chunks, 1000);
    let end = reader.next();
    assert!(rt; matches!(end, Next::End { at: 4004 }));
    Ok(())
}

// What comes of reading on, if the same comes of it twice.
fn rest_twice(reader: &mut FileReader<MemSource>) -> Option<Rest>
    requires { HasStopped (Some (bytes_left reader.old.source)) reader.old.file reader.old.file.reading }
{
    let rest = reader.skip_rest();
    let again = reader.skip_rest();
    (rest == again).then_some(rest)
}

// The same behind the first answer, where that is an end, a torn chunk or a bad one.
fn rest_of(alloc: Global, source: MemSource, limit: u64) -> Option<Rest> {
    let Ok(mut reader) = FileReader::open(alloc, source, limit.clamp(4, 4096)) else {
        return None;
    };
    match reader.next() {
        Next::End { .. } => rest_twice(&mut reader),
        Next::Torn { .. } => rest_twice(&mut reader),
        Next::Bad { .. } => rest_twice(&mut reader),
        _ => None,
    }
}

#[test]
fn an_input_is_read_on_to_its_end(rt: HostRuntime) -> Result<(), Fail> {
    let rows: [(&[u8], u64, Option<Rest>); 7] = [
        (b"XDF:", 4, Some(Rest::End { size: 4 })),
        (b"XDF:\x01\x02\x07", 7, Some(Rest::End { size: 7 })),
        (b"XDF:\x02", 5, Some(Rest::End { size: 5 })),
        (UNKNOWN_STREAM, 17, Some(Rest::End { size: 17 })),
        (b"XDF:\x02 and nine bytes", 19, Some(Rest::SizeLimit)),
        (b"XDF:\x02 and nine bytes", 20, Some(Rest::End { size: 20 })),
        (b"XDF:\x01\x02\x07", 6, None),
    ];
    for (file, limit, want) in rows {
        for piece in [1, 575] {
            let source = source_of(rt.alloc(), file, piece)?;
            assert!(rt; rest_of(rt.alloc(), source, limit) == want);
        }
    }
    let front = Piece::Give(Blob::from_bytes(rt.alloc(), b"XDF:\x02")?);
    let rest = Piece::Give(Blob::from_bytes(rt.alloc(), b"!")?);
    let source = MemSource::new(vec![in rt.alloc(); front, Piece::Fail, rest]?);
    assert!(rt; rest_of(rt.alloc(), source, 9) == Some(Rest::ReadFault));
    Ok(())
}
