use super::*;
use chunk_grammar::Chunk;
use rec_base::{Blob, MemSource, Piece};
use std::alloc::Global;
use std::test::Fail;

// The magic, a file header, and the header of a stream of one number a sample.
const FRONT: &[u8] =
    b"XDF:\x01\x3A\x01\0<?xml version=\"1.0\"?><info><version>1.0</version></info>\x01\x59\x02\0\x01\0\0\0<info><channel_count>1</channel_count><channel_format>int16</channel_format></info>";

const BOUNDARY: &[u8] =
    b"\x01\x12\x05\0\x43\xA5\x46\xDC\xCB\xF5\x41\x0F\xB3\x0E\xD5\x46\x73\x83\xCB\xE4";

// A chunk of one sample, and the same with its first byte changed.
const SAMPLE: &[u8] = b"\x01\x0B\x03\0\x01\0\0\0\x01\x01\0\x07\0";

const DAMAGED: &[u8] = b"\0\x0B\x03\0\x01\0\0\0\x01\x01\0\x07\0";

// A chunk that tells more bytes than the file has, of which some are a boundary and a sample.
const LONG: &[u8] = b"\x04\0\0\x01\0\x07\0";

fn source_of(alloc: Global, bytes: &[u8], size: usize) -> Result<MemSource, Fail> {
    let mut pieces = Vec::new(alloc);
    for piece in bytes.chunks(size.max(1)) {
        pieces.push(Piece::Give(Blob::from_bytes(alloc, piece)?))?;
    }
    Ok(MemSource::new(pieces))
}

// The answers for a source up to the end, as words; of a chunk its kind and its place.
fn told(alloc: Global, source: MemSource, limit: u64) -> Result<String, Fail> {
    let mut told = String::new(alloc);
    let Ok(mut salvager) = Salvager::open(alloc, source, limit.clamp(4, 4096)) else {
        return Ok(told);
    };
    for _ in 0..20 {
        let kind = match salvager.next() {
            SalvageStep::Chunk { at, chunk } => match chunk {
                Chunk::Samples { .. } => format!(in alloc; "samples {at}, ")?,
                Chunk::Boundary => format!(in alloc; "boundary {at}, ")?,
                _ => format!(in alloc; "header {at}, ")?,
            },
            SalvageStep::Skipped { from, to } => format!(in alloc; "skipped {from} {to}, ")?,
            SalvageStep::End => format!(in alloc; "end")?,
            SalvageStep::ReadFault => format!(in alloc; "fault")?,
            SalvageStep::SizeLimit => format!(in alloc; "limit")?,
            SalvageStep::Memory => format!(in alloc; "memory")?,
        };
        told.push_str(kind.as_str())?;
        if !kind.as_str().ends_with(", ") {
            break;
        }
    }
    Ok(told)
}

#[test]
fn parts_are_given_in_any_pieces(rt: HostRuntime) -> Result<(), Fail> {
    let rows: [(&[&[u8]], u64, &str); 13] = [
        (
            &[FRONT, SAMPLE],
            168,
            "header 4, header 64, samples 155, end",
        ),
        (
            &[FRONT, DAMAGED, BOUNDARY, SAMPLE],
            201,
            "header 4, header 64, skipped 155 188, samples 188, end",
        ),
        // No boundary comes behind the damage.
        (
            &[FRONT, DAMAGED, SAMPLE],
            181,
            "header 4, header 64, skipped 155 181, end",
        ),
        // Ranges that touch each other are given one by one.
        (
            &[FRONT, DAMAGED, BOUNDARY, DAMAGED, BOUNDARY, SAMPLE],
            300,
            "header 4, header 64, skipped 155 188, skipped 188 221, samples 221, end",
        ),
        // A stream whose header was damaged is unknown behind it.
        (
            &[b"XDF:", DAMAGED, BOUNDARY, SAMPLE, BOUNDARY],
            300,
            "skipped 4 37, skipped 37 70, end",
        ),
        // A chunk that is torn at the end of the input is searched too.
        (
            &[FRONT, LONG, BOUNDARY, SAMPLE],
            300,
            "header 4, header 64, skipped 155 182, samples 182, end",
        ),
        (&[b"XDF:", LONG], 300, "skipped 4 11, end"),
        (&[b"XDF:"], 4, "end"),
        // The first bytes of a boundary alone are none.
        (&[b"XDF:", &[0, 0x43, 0xA5, 0x46]], 8, "skipped 4 8, end"),
        // Up to the limit, a range is given where it ends within it.
        (
            &[FRONT, DAMAGED, BOUNDARY, SAMPLE],
            200,
            "header 4, header 64, skipped 155 188, limit",
        ),
        (
            &[FRONT, DAMAGED, BOUNDARY, SAMPLE],
            188,
            "header 4, header 64, skipped 155 188, limit",
        ),
        (
            &[FRONT, DAMAGED, BOUNDARY, SAMPLE],
            187,
            "header 4, header 64, limit",
        ),
        // What is torn within the limit isn't skipped, since more bytes come.
        (
            &[FRONT, LONG, BOUNDARY, SAMPLE],
            190,
            "header 4, header 64, limit",
        ),
    ];
    for (parts, limit, want) in rows {
        let mut file = Vec::new(rt.alloc());
        for part in parts {
            file.extend_from_slice(part)?;
        }
        for size in [1, 7, 575] {
            let source = source_of(rt.alloc(), &file, size)?;
            let told = told(rt.alloc(), source, limit)?;
            assert_eq!(rt; told.as_str(), want, "{limit} {size}");
        }
    }
    Ok(())
}

#[test]
fn a_failed_read_ends_a_search(rt: HostRuntime) -> Result<(), Fail> {
    let alloc = rt.alloc();
    let source = MemSource::new(vec![in alloc;
        Piece::Give(Blob::from_bytes(alloc, b"XDF:\0 and more")?),
        Piece::Fail,
        Piece::Give(Blob::from_bytes(alloc, BOUNDARY)?),
    ]?);
    let Ok(mut salvager) = Salvager::open(alloc, source, 100) else {
        return Ok(());
    };
    assert!(rt; matches!(salvager.pass(), Salvaged::ReadFault));
    assert!(rt; matches!(salvager.pass(), Salvaged::ReadFault));
    assert!(rt; matches!(salvager.next(), SalvageStep::ReadFault));
    assert!(rt; salvager.last_bytes().is_empty() && salvager.held_bytes() < 16);
    Ok(())
}

#[test]
fn a_boundary_is_found_from_a_place_on(rt: HostRuntime) {
    assert!(rt; find_boundary(BOUNDARY, 0) == Some(4));
    assert!(rt; find_boundary(BOUNDARY, 4) == Some(4));
    assert!(rt; find_boundary(BOUNDARY, 5) == None);
}
