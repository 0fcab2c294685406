use super::*;
use rec_base::{Blob, Memory};
use sample_values::{Format, RawSamples, Sample, Shape, Stamp, walk_samples};
use std::test::Fail;

#[test]
fn a_stream_joins_once_and_with_a_shape(rt: HostRuntime) -> Result<(), Fail> {
    let int16 =
        "<info><channel_count>1</channel_count><channel_format>int16</channel_format></info>";
    let string = "<channel_count>2</channel_count><channel_format>string</channel_format>";
    let mut ctx = Context::new(rt.alloc());
    for (id, doc, want) in [
        (7, "<info></info>", Err(CtxFault::NoShape)),
        (7, int16, Ok(())),
        (7, string, Err(CtxFault::Repeated(7))),
        (7, "<info></info>", Err(CtxFault::Repeated(7))),
        (0, string, Ok(())),
    ] {
        assert_eq!(rt;
            ctx.context_add(id, doc.as_bytes()),
            want,
            "{id} with {doc}"
        );
    }
    let shape = |count, format| Some(Shape { count, format });
    for (id, want) in [
        (7, shape(1, Format::Int16)),
        (0, shape(2, Format::Text)),
        (1, None),
    ] {
        assert_eq!(rt; ctx.shape_of(id), want, "of {id}");
    }
    let said = CtxFault::Repeated(7).to_string(rt.alloc())?;
    assert_eq!(rt; said.as_str(), "stream 7 is there");
    Ok(())
}

#[test]
fn samples_stand_in_their_order(rt: HostRuntime) -> Result<(), Fail> {
    let mut samples = SampleList::new(rt.alloc());
    samples.push(Sample::new(rt.alloc(), Stamp::Bits(5)))?;
    samples.push(Sample::new(rt.alloc(), Stamp::None))?;
    assert_eq!(rt; samples.len(), 2);
    for (place, want) in [(0, Some(Stamp::Bits(5))), (1, Some(Stamp::None)), (2, None)] {
        let stamp = samples.get(place).map(|view| view.stamp());
        assert_eq!(rt; stamp, want, "at {place}");
    }
    let tag = tag_of_chunk(&Chunk::Samples { id: 7, samples });
    assert_eq!(rt; tag, 3);
    Ok(())
}

#[test]
fn pushed_samples_stand_behind_those_that_were_read(rt: HostRuntime) -> Result<(), Fail> {
    let shape = Shape {
        count: 1,
        format: Format::Int8,
    };
    let bytes = [0, 7, 0, 9].as_slice();
    let Ok([]) = walk_samples(&shape, 2, bytes) else {
        return Err("other samples".into());
    };
    let raw = RawSamples::from_bytes(rt.alloc(), shape, 2, bytes)?;
    let mut samples = SampleList::from_raw(rt.alloc(), raw);
    assert_eq!(rt; (samples.len(), samples.has_texts()), (2, false));
    let mut pushed = Sample::new(rt.alloc(), Stamp::Bits(5));
    pushed.push_bits(11)?;
    samples.push(pushed)?;
    assert_eq!(rt; samples.len(), 3);
    let mut walk = samples.walk();
    for (place, want) in [(0, Some(7)), (1, Some(9)), (2, Some(11)), (3, None)] {
        let walked = walk.next().and_then(|view| view.bits_at(0));
        let found = samples.get(place).and_then(|view| view.bits_at(0));
        assert_eq!(rt; (walked, found), (want, want), "at {place}");
    }
    Ok(())
}

#[test]
fn a_kind_has_its_tag(rt: HostRuntime) {
    let none = || Blob::from_vec(Vec::new(rt.alloc()));
    for (chunk, tag) in [
        (Chunk::FileHeader { doc: none() }, 1),
        (Chunk::StreamHeader { id: 7, doc: none() }, 2),
        (
            Chunk::ClockOffset {
                id: 7,
                time: 0,
                offset: 0,
            },
            4,
        ),
        (Chunk::Boundary, 5),
        (Chunk::StreamFooter { id: 7, doc: none() }, 6),
        (
            Chunk::Other {
                tag: 9,
                body: none(),
            },
            9,
        ),
    ] {
        assert_eq!(rt; tag_of_chunk(&chunk), tag);
    }
}

#[test]
fn a_chunk_fits_where_it_has_a_text(rt: HostRuntime) -> Result<(), Fail> {
    let alloc = rt.alloc();
    let doc = b"<channel_count>1</channel_count><channel_format>int16</channel_format>";
    let blob = |bytes| Blob::from_bytes(alloc, bytes);
    let samples = |bits| {
        let mut sample = Sample::new(alloc, Stamp::None);
        sample.push_bits(bits)?;
        let mut samples = SampleList::new(alloc);
        samples.push(sample)?;
        Ok::<SampleList, Memory>(samples)
    };
    let mut ctx = Context::new(alloc);
    ctx.context_add(7, doc)?;
    for (chunk, want) in [
        (Chunk::FileHeader { doc: blob(b"")? }, true),
        (
            Chunk::StreamHeader {
                id: 8,
                doc: blob(doc)?,
            },
            true,
        ),
        (
            Chunk::StreamHeader {
                id: 7,
                doc: blob(doc)?,
            },
            false,
        ),
        (
            Chunk::StreamHeader {
                id: 8,
                doc: blob(b"")?,
            },
            false,
        ),
        (
            Chunk::Samples {
                id: 7,
                samples: samples(65535)?,
            },
            true,
        ),
        (
            Chunk::Samples {
                id: 7,
                samples: samples(65536)?,
            },
            false,
        ),
        (
            Chunk::Samples {
                id: 8,
                samples: samples(65535)?,
            },
            false,
        ),
        (
            Chunk::ClockOffset {
                id: 8,
                time: 0,
                offset: 0,
            },
            true,
        ),
        (Chunk::Boundary, true),
        (
            Chunk::StreamFooter {
                id: 7,
                doc: blob(b"")?,
            },
            true,
        ),
        (
            Chunk::StreamFooter {
                id: 8,
                doc: blob(b"")?,
            },
            false,
        ),
        (
            Chunk::Other {
                tag: 7,
                body: blob(b"")?,
            },
            true,
        ),
        (
            Chunk::Other {
                tag: 6,
                body: blob(b"")?,
            },
            false,
        ),
    ] {
        assert_eq!(rt; chunk_fits(&ctx, &chunk), want);
    }
    Ok(())
}
