ghost use Rattle.std.specs.Prelude.{◌≡◌, ◌+◌, ◌-◌, ◌<◌, ◌≤◌, ◌↔◌, List, ℕ, SomeIff, IsTrue, length};
ghost use Rattle.std.specs.List.{flat_map, AllByRecursion};
ghost use Rattle.xdf_model.specs.Sample.{FitsValue, FitsShape, least_value_text, stamp_text, least_sample_text, size_of};
ghost use Rattle.sample_values.specs.View.{seen_value};
ghost use Rattle.chunk_grammar.specs.declared.chunk.Chunk.TheVariants.{FileHeader, StreamHeader, Samples, ClockOffset, StreamFooter, Other};
ghost use Rattle.chunk_grammar.specs.Chunk.{IsChunkText};

use crate::{Chunk, Context, SampleList};
use rec_base::Blob;
use sample_values::{SampleView, Shape, Stamp, ValueView, ValueWalk, size_of_format, view_fits};
use shape_pattern::find_shape;
use xdf_lengths::num_size;

// The most bytes that a content may have: a length counts it and the two bytes of the tag.
const MOST: u64 = 67_108_862;

fn stamp_size(stamp: Stamp) -> u64
    ensures { result ≡ length (stamp_text stamp) }
{
    match stamp {
        Stamp::None => 1,
        Stamp::Bits(_) => 9,
    }
}

fn value_size(size: u8, value: ValueView<'_>) -> u64
    requires { FitsValue size (seen_value value) }
    ensures { result ≡ length (least_value_text size (seen_value value.entry)) }
{
    match value {
        ValueView::Number(_) => size as u64,
        ValueView::Text(text) => {
            let len = text.len() as u64;
            1 + num_size(len) as u64 + len
        }
    }
}

// What values of a size leave of some room, where they find it.
fn behind_values(size: u8, values: ValueWalk<'_>, room: u64) -> Option<u64>
    requires fits { AllByRecursion (FitsValue size) values }
    ensures { let texts = length (flat_map (least_value_text size) values.entry) in
        SomeIff result (texts ≤ room) (room - texts) }
{
    let mut rest = values;
    let mut left = room;
    while let Some(value) = rest.next() {
        left = left.checked_sub(value_size(size, value))?;
    }
    Some(left)
}

// What a sample leaves of some room, where it has the shape and finds the room.
fn behind_sample(shape: &Shape, sample: &SampleView<'_>, room: u64) -> Option<u64>
    ensures { let text = length (least_sample_text shape.now sample.now) in
        SomeIff result (FitsShape shape.now sample.now × (text ≤ room)) (room - text) }
{
    if !view_fits(shape, sample) {
        return None;
    }
    let left = room.checked_sub(stamp_size(sample.stamp()))?;
    behind_values(size_of_format(shape.format), sample.values(), left)
}

// What samples leave of some room, where all have the shape and find the room.
fn behind_samples(shape: &Shape, samples: &SampleList, room: u64) -> Option<u64>
    ensures { let texts = length (flat_map (least_sample_text shape.now) samples.now) in
        SomeIff result (AllByRecursion (FitsShape shape.now) samples.now × (texts ≤ room)) (room - texts) }
{
    let mut rest = samples.walk();
    let mut left = room;
    while let Some(sample) = rest.next() {
        left = behind_sample(shape, &sample, left)?;
    }
    Some(left)
}

fn file_header_fits(ctx: &Context, doc: &Blob) -> bool
    ensures { IsTrue result ↔ ((b : List ℕ) × IsChunkText ctx.now (FileHeader doc.now) b) }
{
    doc.bytes().len() as u64 <= MOST
}

#[tactic(auto, using(crate::proofs::Room::stream_header_text))]
fn stream_header_fits(ctx: &Context, id: u32, doc: &Blob) -> bool
    ensures { IsTrue result ↔ ((b : List ℕ) × IsChunkText ctx.now (StreamHeader id doc.now) b) }
{
    ctx.shape_of(id).is_none()
        && find_shape(doc.bytes()).is_ok()
        && doc.bytes().len() as u64 <= MOST - 4
}

fn samples_fit(ctx: &Context, id: u32, samples: &SampleList) -> bool
    ensures { IsTrue result ↔ ((b : List ℕ) × IsChunkText ctx.now (Samples id samples.now) b) }
{
    let Some(shape) = ctx.shape_of(id) else {
        return false;
    };
    let count = 1 + num_size(samples.len() as u64) as u64;
    behind_samples(&shape, samples, MOST - 4 - count).is_some()
}

// All of them have a text: its size is the same for all, and its stream need not be known.
fn clock_offset_fits(ctx: &Context, id: u32, time: u64, offset: u64) -> bool
    ensures { IsTrue result ↔ ((b : List ℕ) × IsChunkText ctx.now (ClockOffset id time offset) b) }
{
    true
}

#[tactic(auto, using(crate::proofs::Room::stream_footer_text))]
fn stream_footer_fits(ctx: &Context, id: u32, doc: &Blob) -> bool
    ensures { IsTrue result ↔ ((b : List ℕ) × IsChunkText ctx.now (StreamFooter id doc.now) b) }
{
    ctx.shape_of(id).is_some() && doc.bytes().len() as u64 <= MOST - 4
}

fn other_fits(ctx: &Context, tag: u16, body: &Blob) -> bool
    ensures { IsTrue result ↔ ((b : List ℕ) × IsChunkText ctx.now (Other tag body.now) b) }
{
    (tag == 0 || tag > 6) && body.bytes().len() as u64 <= MOST
}

/// Whether a chunk has a text behind the streams in `ctx`, which is asked of a chunk that is encoded.
///
/// By rules that are this project's own beside the layout (XDF 1.0, "Chunk layout"), the stream of
/// samples or of a footer has a header before it and that of a header hasn't, a header tells a shape,
/// samples fit the shape of their stream, another chunk has a tag that is none of the six, and the
/// length, of the tag and of the content with the least widths, is at most 67,108,864. The stream of
/// a clock offset isn't looked for.
pub fn chunk_fits(ctx: &Context, chunk: &Chunk) -> bool
    ensures { IsTrue result ↔ ((b : List ℕ) × IsChunkText ctx.now chunk.now b) }
{
    match chunk {
        Chunk::FileHeader { doc } => file_header_fits(ctx, doc),
        Chunk::StreamHeader { id, doc } => stream_header_fits(ctx, *id, doc),
        Chunk::Samples { id, samples } => samples_fit(ctx, *id, samples),
        Chunk::ClockOffset { id, time, offset } => clock_offset_fits(ctx, *id, *time, *offset),
        Chunk::Boundary => true,
        Chunk::StreamFooter { id, doc } => stream_footer_fits(ctx, *id, doc),
        Chunk::Other { tag, body } => other_fits(ctx, *tag, body),
    }
}
