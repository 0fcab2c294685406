ghost use Rattle.std.specs.Prelude.{◌≡◌, ◌≤◌, ◌++◌, ◌∷◌, [], Some, OnOk};
ghost use Rattle.xdf_model.specs.Sample.{number, text};
ghost use Rattle.chunk_grammar.specs.Chunk.{shape_of};

use super::*;
use chunk_grammar::{Chunk, Context, CtxFault, SampleList};
use rec_base::{Blob, Failed, Memory, Sink};
use sample_values::{Format, Sample, Shape, Stamp};
use std::alloc::Global;
use std::test::Fail;

const ONE_SECOND: u64 = 0x3FF0_0000_0000_0000;

fn encoded_document(alloc: Global, len: usize) -> Result<Vec<u8>, Memory>
    requires { len ≤ 1000 }
{
    let doc = Blob::from_vec(vec![in alloc; b'd'; len]?);
    let mut out = Vec::new(alloc);
    encode_chunk(&Context::new(alloc), &Chunk::FileHeader { doc }, &mut out)?;
    Ok(out)
}

#[test]
fn the_length_counts_the_tag_and_has_the_least_width(rt: HostRuntime) -> Result<(), Fail> {
    for (len, front, size) in [
        (56, [1, 58, 1, 0].as_slice(), 60),
        (253, [1, 255, 1, 0].as_slice(), 257),
        (254, [4, 0, 1, 0, 0, 1, 0].as_slice(), 261),
    ] {
        let out = encoded_document(rt.alloc(), len)?;
        assert!(rt; out.starts_with(front), "a document of {len}");
        assert_eq!(rt; out.len(), size, "a document of {len}");
    }
    Ok(())
}

#[test]
fn a_boundary_is_sixteen_bytes(rt: HostRuntime) -> Result<(), Fail> {
    let ctx = Context::new(rt.alloc());
    let mut out = Vec::new(rt.alloc());
    encode_chunk(&ctx, &Chunk::Boundary, &mut out)?;
    let want = [
        0x01, 0x12, 0x05, 0x00, 0x43, 0xA5, 0x46, 0xDC, 0xCB, 0xF5, 0x41, 0x0F, 0xB3, 0x0E, 0xD5,
        0x46, 0x73, 0x83, 0xCB, 0xE4,
    ];
    assert_eq!(rt; out.as_slice(), want.as_slice());
    assert_eq!(rt; content_size(&ctx, &Chunk::Boundary), 16);
    Ok(())
}

fn context_of(alloc: Global, doc: &[u8]) -> Result<Context, CtxFault> {
    let mut ctx = Context::new(alloc);
    ctx.context_add(1, doc)?;
    Ok(ctx)
}

fn push_numbers(
    alloc: Global,
    list: &mut SampleList,
    stamp: Stamp,
    first: u64,
    second: u64,
) -> Result<(), Memory>
    ensures { OnOk result (list.new ≡ list.old ++ (record { stamp = stamp; values = number first ∷ number second ∷ [] }) ∷ []) }
{
    let mut sample = Sample::new(alloc, stamp);
    sample.push_bits(first)?;
    sample.push_bits(second)?;
    list.push(sample)
}

fn encoded_numbers(alloc: Global, ctx: &Context) -> Result<Vec<u8>, Memory>
    requires { shape_of ctx.now 1 ≡ Some (record { count = 2; format = Format.Int16 }) }
{
    let mut samples = SampleList::new(alloc);
    push_numbers(alloc, &mut samples, Stamp::Bits(ONE_SECOND), 1, 0xFFFF)?;
    push_numbers(alloc, &mut samples, Stamp::None, 2, 0x8000)?;
    let mut out = Vec::new(alloc);
    encode_chunk(ctx, &Chunk::Samples { id: 1, samples }, &mut out)?;
    Ok(out)
}

#[test]
fn numbers_stand_behind_their_count(rt: HostRuntime) -> Result<(), Fail> {
    let doc = b"<channel_count>2</channel_count><channel_format>int16</channel_format>";
    let ctx = context_of(rt.alloc(), doc)?;
    match ctx.shape_of(1) {
        Some(
            Shape {
                count: 2,
                format: Format::Int16,
            },
        ) => {
            let out = encoded_numbers(rt.alloc(), &ctx)?;
            let want = [
                1, 0x1A, 3, 0, 1, 0, 0, 0, 1, 2, 8, 0, 0, 0, 0, 0, 0, 0xF0, 0x3F, 1, 0, 0xFF, 0xFF,
                0, 2, 0, 0, 0x80,
            ];
            assert_eq!(rt; out.as_slice(), want.as_slice());
            Ok(())
        }
        _ => Err("another shape".into()),
    }
}

fn push_text(alloc: Global, list: &mut SampleList, stamp: Stamp, bytes: &[u8]) -> Result<(), Memory>
    ensures { OnOk result (list.new ≡ list.old ++ (record { stamp = stamp; values = text bytes.now ∷ [] }) ∷ []) }
{
    let mut sample = Sample::new(alloc, stamp);
    sample.push_text(alloc, bytes)?;
    list.push(sample)
}

fn encoded_texts(alloc: Global, ctx: &Context) -> Result<Vec<u8>, Memory>
    requires { shape_of ctx.now 1 ≡ Some (record { count = 1; format = Format.Text }) }
{
    let mut samples = SampleList::new(alloc);
    push_text(alloc, &mut samples, Stamp::Bits(ONE_SECOND), b"hi")?;
    push_text(alloc, &mut samples, Stamp::None, b"abc")?;
    push_text(alloc, &mut samples, Stamp::None, b"")?;
    let mut out = Vec::new(alloc);
    encode_chunk(ctx, &Chunk::Samples { id: 1, samples }, &mut out)?;
    Ok(out)
}

#[test]
fn texts_stand_behind_their_lengths(rt: HostRuntime) -> Result<(), Fail> {
    let doc = b"<channel_count>1</channel_count><channel_format>string</channel_format>";
    let ctx = context_of(rt.alloc(), doc)?;
    match ctx.shape_of(1) {
        Some(
            Shape {
                count: 1,
                format: Format::Text,
            },
        ) => {
            let out = encoded_texts(rt.alloc(), &ctx)?;
            let want = [
                1, 0x1E, 3, 0, 1, 0, 0, 0, 1, 3, 8, 0, 0, 0, 0, 0, 0, 0xF0, 0x3F, 1, 2, b'h', b'i',
                0, 1, 3, b'a', b'b', b'c', 0, 1, 0,
            ];
            assert_eq!(rt; out.as_slice(), want.as_slice());
            Ok(())
        }
        _ => Err("another shape".into()),
    }
}

// Takes one byte a write, and fails once it holds as many as it may.
#[derive(Drop)]
struct Drip {
    held: Vec<u8>,
    most: usize,
    faults: u64,
}

impl Sink for Drip {
    ghost held = { λ drip. Some drip.held.items };

    ghost write_faults = { λ drip. drip.faults };

    ghost rest = { λ _. tt };

    fn write(&mut self, bytes: &[u8]) -> Result<usize, Failed> {
        match bytes.first() {
            None => Ok(0),
            Some(byte) => {
                if self.held.len() < self.most && self.held.push(*byte).is_ok() {
                    Ok(1)
                } else {
                    self.faults = self.faults.saturating_add(1);
                    Err(Failed)
                }
            }
        }
    }
}

#[test]
fn short_writes_go_on_and_a_fault_tells_what_went(rt: HostRuntime) -> Result<(), Fail> {
    for (most, result, held) in [
        (9, Ok(()), b"chunk".as_slice()),
        (3, Err(WriteFault { went: 3 }), b"chu".as_slice()),
        (0, Err(WriteFault { went: 0 }), b"".as_slice()),
    ] {
        let mut drip = Drip {
            held: Vec::new(rt.alloc()),
            most,
            faults: 0,
        };
        assert_eq!(rt; write_all_of(&mut drip, b"chunk"), result);
        assert_eq!(rt; drip.held.as_slice(), held);
    }
    let said = WriteFault { went: 3 }.to_string(rt.alloc())?;
    assert_eq!(rt; said.as_str(), "a write failed after 3 bytes");
    Ok(())
}
