use super::*;
use crate::chunk::chunk_line;
use crate::say::say_later;
use chunk_grammar::{Chunk, Context, SampleList};
use rec_base::{Blob, MemDock};
use sample_values::{Format, Sample, Stamp, format_name};
use std::alloc::Global;
use std::test::Fail;

// The patterns of 1.0, as a double and as a single.
const ONE_SECOND: u64 = 0x3FF0_0000_0000_0000;

const ONE_SINGLE: u64 = 0x3F80_0000;

// The header document of a stream of three channels, in 176 bytes.
const THREE_INT64: &[u8] =
    b"<?xml version=\"1.0\"?><info><name>overruns</name><type>ledger</type><channel_count>3</channel_count><nominal_srate>0</nominal_srate><channel_format>int64</channel_format></info>";

fn dock_of(alloc: Global, fail_says: Vec<u64>) -> Result<MemDock, Fail> {
    Ok(MemDock::new(
        alloc,
        Vec::new(alloc),
        4096,
        Vec::new(alloc),
        Vec::new(alloc),
        fail_says,
    )?)
}

// Bytes of a length that is told, whatever they are.
fn any(alloc: Global, len: usize) -> Result<Blob, Fail> {
    Ok(Blob::from_vec(vec![in alloc; b'd'; len]?))
}

// Whether this is the first line of the chunk at the place.
fn begins_with(alloc: Global, at: u64, chunk: &Chunk, want: &str) -> Result<bool, Fail> {
    let line = chunk_line(alloc, at, chunk)?;
    Ok(line.as_str() == want)
}

#[test]
fn a_kind_with_a_document_tells_its_length(rt: HostRuntime) -> Result<(), Fail> {
    let alloc = rt.alloc();
    let file = Chunk::FileHeader {
        doc: any(alloc, 56)?,
    };
    assert!(rt; begins_with(alloc, 4, &file, "4 file-header bytes 56")?);
    let doc = Blob::from_bytes(alloc, THREE_INT64)?;
    let want = "64 stream-header id 0 channels 3 format int64 bytes 176";
    assert!(rt; begins_with(alloc, 64, &Chunk::StreamHeader { id: 0, doc }, want)?);
    let doc = any(alloc, 2)?;
    let want = "4 stream-header id 9 bytes 2";
    assert!(rt; begins_with(alloc, 4, &Chunk::StreamHeader { id: 9, doc }, want)?);
    let doc = any(alloc, 86)?;
    let want = "359 stream-footer id 4294967295 bytes 86";
    let id = 4294967295;
    assert!(rt; begins_with(alloc, 359, &Chunk::StreamFooter { id, doc }, want)?);
    Ok(())
}

#[test]
fn each_other_kind_tells_what_it_has(rt: HostRuntime) -> Result<(), Fail> {
    let alloc = rt.alloc();
    let clock = Chunk::ClockOffset {
        id: 7,
        time: ONE_SECOND,
        offset: 0,
    };
    let want = "4 clock-offset id 7 time 3ff0000000000000 offset 0000000000000000";
    assert!(rt; begins_with(alloc, 4, &clock, want)?);
    assert!(rt; begins_with(alloc, 28, &Chunk::Boundary, "28 boundary")?);
    let body = any(alloc, 1)?;
    let want = "4 other tag 9 bytes 1";
    assert!(rt; begins_with(alloc, 4, &Chunk::Other { tag: 9, body }, want)?);
    let chunk = numbers(alloc, &[1, 2, 3])?;
    assert!(rt; begins_with(alloc, 339, &chunk, "339 samples id 1 count 3")?);
    Ok(())
}

// A chunk of stream 1 with a stampless sample of one channel for each of these numbers.
fn numbers(alloc: Global, patterns: &[u64]) -> Result<Chunk, Fail> {
    let mut samples = SampleList::new(alloc);
    for pattern in patterns {
        let mut sample = Sample::new(alloc, Stamp::None);
        sample.push_bits(*pattern)?;
        samples.push(sample)?;
    }
    Ok(Chunk::Samples { id: 1, samples })
}

// The context in which stream 1 has so many channels of a format.
fn context_of(alloc: Global, count: u16, format: Format) -> Result<Context, Fail> {
    let name = format_name(format);
    let doc = format!(in alloc;
        "<channel_count>{count}</channel_count><channel_format>{name}</channel_format>"
    )?;
    let mut ctx = Context::new(alloc);
    ctx.context_add(1, doc.as_bytes())?;
    Ok(ctx)
}

#[test]
fn a_number_is_shown_by_its_format(rt: HostRuntime) -> Result<(), Fail> {
    let alloc = rt.alloc();
    for (format, patterns, want) in [
        (
            Format::Int16,
            [1, 2, 3].as_slice(),
            "  none 1\n  none 2\n  none 3\n",
        ),
        (
            Format::Int16,
            &[0xFFFF, 0x8000, 0x7FFF],
            "  none -1\n  none -32768\n  none 32767\n",
        ),
        (
            Format::Int8,
            &[0x80, 0x7F, 0],
            "  none -128\n  none 127\n  none 0\n",
        ),
        (
            Format::Int32,
            &[0xFFFF_FFFE, 0x8000_0000],
            "  none -2\n  none -2147483648\n",
        ),
        (
            Format::Int64,
            &[
                0xFFFF_FFFF_FFFF_FFFF,
                0x8000_0000_0000_0000,
                0x7FFF_FFFF_FFFF_FFFF,
            ],
            "  none -1\n  none -9223372036854775808\n  none 9223372036854775807\n",
        ),
        (
            Format::Float32,
            &[ONE_SINGLE, 0xAB],
            "  none 3f800000\n  none 000000ab\n",
        ),
        (Format::Double64, &[ONE_SECOND], "  none 3ff0000000000000\n"),
        (Format::Int8, &[], ""),
    ] {
        let mut dock = dock_of(alloc, Vec::new(alloc))?;
        let ctx = context_of(alloc, 1, format)?;
        let chunk = numbers(alloc, patterns)?;
        say_later(alloc, &mut dock, &ctx, &chunk)?;
        assert_eq!(rt; dock.printed(), want.as_bytes(), "{format:?}");
    }
    Ok(())
}

#[test]
fn a_line_has_a_stamp_and_each_value(rt: HostRuntime) -> Result<(), Fail> {
    let alloc = rt.alloc();
    let mut sample = Sample::new(alloc, Stamp::Bits(ONE_SECOND));
    for text in [b"hi".as_slice(), b"", b"\xFF\x0A"] {
        sample.push_text(alloc, text)?;
    }
    let mut samples = SampleList::new(alloc);
    samples.push(sample)?;
    let ctx = context_of(alloc, 3, Format::Text)?;
    let mut dock = dock_of(alloc, Vec::new(alloc))?;
    say_later(alloc, &mut dock, &ctx, &Chunk::Samples { id: 1, samples })?;
    let want = b"  3ff0000000000000 x6869 x xff0a\n";
    assert_eq!(rt; dock.printed(), want.as_slice());
    Ok(())
}

#[test]
fn a_line_that_fails_is_the_last(rt: HostRuntime) -> Result<(), Fail> {
    let alloc = rt.alloc();
    let ctx = context_of(alloc, 1, Format::Int16)?;
    let chunk = numbers(alloc, &[1, 2, 3])?;
    let mut dock = dock_of(alloc, vec![in alloc; 2]?)?;
    let said = say_later(alloc, &mut dock, &ctx, &chunk);
    assert_eq!(rt; said, Err(SayFault::Print));
    assert_eq!(rt; dock.printed(), b"  none 1\n".as_slice());
    Ok(())
}

#[test]
fn a_boundary_is_said_or_not(rt: HostRuntime) -> Result<(), Fail> {
    let alloc = rt.alloc();
    let ctx = Context::new(alloc);
    for (fail_say, answer, want) in [(0, Ok(()), "28 boundary\n"), (1, Err(SayFault::Print), "")] {
        let mut dock = dock_of(alloc, vec![in alloc; fail_say]?)?;
        let said = say_chunk(alloc, &mut dock, &ctx, 28, &Chunk::Boundary);
        assert_eq!(rt; said, answer);
        assert_eq!(rt; dock.printed(), want.as_bytes());
    }
    let text = SayFault::Print.to_string(alloc)?;
    assert_eq!(rt; text.as_str(), "a line can't be said");
    Ok(())
}

#[test]
fn reasons_are_numbered_from_one(rt: HostRuntime) {
    assert_eq!(rt; why_number(xdf_model::Why::BadWidth), 1);
    assert_eq!(rt; why_number(xdf_model::Why::NoShape), 7);
    assert_eq!(rt; why_number(xdf_model::Why::BadBoundary), 11);
}
