use crate::documents::{ONE_INT16, ONE_TEXT, TWO_INT16};
use chunk_decoder::{Step, Why, read_chunk};
use chunk_encoder::encode_chunk;
use chunk_grammar::{Context, CtxFault, chunk_fits, tag_of_chunk};
use sample_values::{Format, Shape};
use shape_pattern::{NoShape, find_shape};
use std::alloc::Global;
use std::test::Fail;
use xdf_lengths::put_num;

const BOUNDARY: &[u8] = &[
    0x01, 0x12, 0x05, 0x00, 0x43, 0xA5, 0x46, 0xDC, 0xCB, 0xF5, 0x41, 0x0F, 0xB3, 0x0E, 0xD5, 0x46,
    0x73, 0x83, 0xCB, 0xE4,
];

// What stands at the front: the tag of a whole chunk and its size, or a place and a reason.
#[derive(Clone, Copy, Debug, PartialEq, Eq)]
enum Stands {
    Whole(u16, usize),
    Torn,
    Bad(usize, Why),
    Memory,
}

fn read_front(alloc: Global, ctx: &Context, bytes: &[u8]) -> Stands {
    match read_chunk(alloc, ctx, bytes) {
        Step::Whole { chunk, used } => Stands::Whole(tag_of_chunk(&chunk), used),
        Step::Torn => Stands::Torn,
        Step::Bad { at, why } => Stands::Bad(at, why),
        Step::Memory => Stands::Memory,
    }
}

// The context of stream 1 with a header document, or of no stream where it is empty.
fn context_of(alloc: Global, doc: &[u8]) -> Result<Context, CtxFault> {
    let mut ctx = Context::new(alloc);
    if !doc.is_empty() {
        ctx.context_add(1, doc)?;
    }
    Ok(ctx)
}

#[test]
fn a_front_is_whole_torn_or_bad(rt: HostRuntime) -> Result<(), Fail> {
    let mut wrong_last = BOUNDARY.to_vec(rt.alloc())?;
    wrong_last[19] = 0xE5;
    for (doc, bytes, want) in [
        (b"".as_slice(), BOUNDARY, Stands::Whole(5, 20)),
        (
            b"",
            wrong_last.as_slice(),
            Stands::Bad(19, Why::BadBoundary),
        ),
        (b"", &BOUNDARY[..19], Stands::Torn),
        (b"", &[0x01], Stands::Torn),
        (b"", &[], Stands::Torn),
        (
            b"",
            &[0x02, 0x12, 0x05, 0x00],
            Stands::Bad(0, Why::BadWidth),
        ),
        (
            b"",
            &[0x01, 0x01, 0x05],
            Stands::Bad(0, Why::LengthUnderTwo),
        ),
        (
            b"",
            &[
                0x01, 0x0B, 0x03, 0x00, 0x01, 0x00, 0x00, 0x00, 0x01, 0x01, 0x00, 0x05, 0x00,
            ],
            Stands::Bad(4, Why::UnknownStream),
        ),
        (
            ONE_INT16,
            &[
                0x01, 0x1C, 0x03, 0x00, 0x01, 0x00, 0x00, 0x00, 0x08, 0x00, 0x00, 0x00, 0x00, 0x00,
                0x00, 0x00, 0x80, 0, 0, 0, 0, 0, 0, 0, 0, 0, 0, 0, 0, 0,
            ],
            Stands::Bad(29, Why::SamplesShort),
        ),
    ] {
        let ctx = context_of(rt.alloc(), doc)?;
        assert_eq!(rt; read_front(rt.alloc(), &ctx, bytes), want, "{bytes:?}");
    }
    Ok(())
}

#[test]
fn a_stream_has_one_header(rt: HostRuntime) -> Result<(), Fail> {
    let mut header = [0x01, 0x59, 0x02, 0x00, 0x01, 0x00, 0x00, 0x00].to_vec(rt.alloc())?;
    header.extend_from_slice(ONE_INT16)?;
    let mut ctx = Context::new(rt.alloc());
    for (read, added) in [
        (Stands::Whole(2, 91), Ok(())),
        (
            Stands::Bad(4, Why::RepeatedStream),
            Err(CtxFault::Repeated(1)),
        ),
    ] {
        assert_eq!(rt; read_front(rt.alloc(), &ctx, &header), read);
        assert_eq!(rt; ctx.context_add(1, ONE_INT16), added);
    }
    Ok(())
}

// Whether the chunk at the front is written as these bytes.
fn is_written_as(alloc: Global, ctx: &Context, bytes: &[u8], want: &[u8]) -> bool {
    let Step::Whole { chunk, used: _ } = read_chunk(alloc, ctx, bytes) else {
        return false;
    };
    let mut out = Vec::new(alloc);
    chunk_fits(ctx, &chunk) && encode_chunk(ctx, &chunk, &mut out).is_ok() && out.as_slice() == want
}

#[test]
fn samples_are_written_with_the_least_widths(rt: HostRuntime) -> Result<(), Fail> {
    let numbers = [
        0x01, 0x1D, 0x03, 0x00, 0x01, 0x00, 0x00, 0x00, 0x04, 0x02, 0x00, 0x00, 0x00, 0x08, 0x00,
        0x00, 0x00, 0x00, 0x00, 0x00, 0xF0, 0x3F, 0x01, 0x00, 0xFF, 0xFF, 0x00, 0x02, 0x00, 0x00,
        0x80,
    ];
    let least_numbers = [
        0x01, 0x1A, 0x03, 0x00, 0x01, 0x00, 0x00, 0x00, 0x01, 0x02, 0x08, 0x00, 0x00, 0x00, 0x00,
        0x00, 0x00, 0xF0, 0x3F, 0x01, 0x00, 0xFF, 0xFF, 0x00, 0x02, 0x00, 0x00, 0x80,
    ];
    let texts = [
        0x01, 0x1E, 0x03, 0x00, 0x01, 0x00, 0x00, 0x00, 0x01, 0x03, 0x08, 0x00, 0x00, 0x00, 0x00,
        0x00, 0x00, 0xF0, 0x3F, 0x01, 0x02, 0x68, 0x69, 0x00, 0x01, 0x03, 0x61, 0x62, 0x63, 0x00,
        0x01, 0x00,
    ];
    for (doc, bytes, want) in [
        (TWO_INT16, numbers.as_slice(), least_numbers.as_slice()),
        (
            TWO_INT16,
            least_numbers.as_slice(),
            least_numbers.as_slice(),
        ),
        (ONE_TEXT, texts.as_slice(), texts.as_slice()),
        (b"", BOUNDARY, BOUNDARY),
    ] {
        let ctx = context_of(rt.alloc(), doc)?;
        assert!(rt; is_written_as(rt.alloc(), &ctx, bytes, want), "{bytes:?}");
    }
    Ok(())
}

// Whether a FileHeader of so many bytes is read behind `wide`, and written behind `least`.
fn is_narrowed(alloc: Global, wide: &[u8], size: usize, least: &[u8]) -> Result<bool, Fail> {
    let ctx = Context::new(alloc);
    let doc = vec![in alloc; b'd'; size]?;
    let mut bytes = wide.to_vec(alloc)?;
    bytes.extend_from_slice(&doc)?;
    let mut want = least.to_vec(alloc)?;
    want.extend_from_slice(&doc)?;
    let read = read_front(alloc, &ctx, &bytes) == Stands::Whole(1, bytes.len());
    Ok(read && is_written_as(alloc, &ctx, &bytes, &want))
}

#[test]
fn a_length_has_any_width_and_is_written_with_the_least(rt: HostRuntime) -> Result<(), Fail> {
    for (wide, size, least) in [
        (
            [0x01, 0x3A, 0x01, 0x00].as_slice(),
            56,
            [0x01, 0x3A, 0x01, 0x00].as_slice(),
        ),
        (
            &[0x04, 0x3A, 0x00, 0x00, 0x00, 0x01, 0x00],
            56,
            &[0x01, 0x3A, 0x01, 0x00],
        ),
        (
            &[
                0x08, 0x3A, 0x00, 0x00, 0x00, 0x00, 0x00, 0x00, 0x00, 0x01, 0x00,
            ],
            56,
            &[0x01, 0x3A, 0x01, 0x00],
        ),
        (
            &[0x04, 0xFF, 0x00, 0x00, 0x00, 0x01, 0x00],
            253,
            &[0x01, 0xFF, 0x01, 0x00],
        ),
        (
            &[0x04, 0x00, 0x01, 0x00, 0x00, 0x01, 0x00],
            254,
            &[0x04, 0x00, 0x01, 0x00, 0x00, 0x01, 0x00],
        ),
    ] {
        assert!(rt;
            is_narrowed(rt.alloc(), wide, size, least)?,
            "{wide:?} {size}"
        );
    }
    let mut out = Vec::new(rt.alloc());
    put_num(58, &mut out)?;
    assert_eq!(rt; out.as_slice(), [0x01, 0x3A].as_slice());
    Ok(())
}

#[test]
fn a_document_tells_its_shape(rt: HostRuntime) {
    let shape = |count, format| Ok(Shape { count, format });
    for (doc, want) in [
        ("", Err(NoShape::NoCount)),
        (
            "<info><channel_count>0</channel_count><channel_format>int16</channel_format></info>",
            Err(NoShape::BadCount),
        ),
        (
            "<info><channel_count>4097</channel_count><channel_format>int16</channel_format></info>",
            Err(NoShape::BadCount),
        ),
        (
            "<info><channel_count> 8</channel_count><channel_format>int16</channel_format></info>",
            Err(NoShape::BadCount),
        ),
        (
            "<info><channel_count>123456</channel_count><channel_format>int16</channel_format></info>",
            Err(NoShape::BadCount),
        ),
        (
            "<info><channel_count>4096</channel_count><channel_format>int16</channel_format></info>",
            shape(4096, Format::Int16),
        ),
        (
            "<info><channel_count>1</channel_count></info>",
            Err(NoShape::NoFormat),
        ),
        (
            "<info><channel_count>1</channel_count><channel_format>float64</channel_format></info>",
            Err(NoShape::BadFormat),
        ),
        (
            "<?xml version=\"1.0\"?>\n<info>\n\t<name>EEG</name>\n\t<channel_count>32</channel_count>\n\t<channel_format>float32</channel_format>\n</info>\n",
            shape(32, Format::Float32),
        ),
    ] {
        assert_eq!(rt; find_shape(doc.as_bytes()), want, "in {doc}");
    }
}
