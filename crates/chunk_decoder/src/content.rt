//! The content of a chunk, behind its tag, by kind (XDF 1.0, "Chunk layout").

ghost use Rattle.std.specs.Prelude.{◌≡◌, length};
ghost use Rattle.xdf_model.specs.declared.types.Why.TheVariants.{ShortContent};
ghost use Rattle.xdf_model.specs.Reading.{number_at, length_at, told};
ghost use Rattle.chunk_grammar.specs.Chunk.{boundary_bytes};
ghost use Rattle.chunk_grammar.specs.Standing.{same_bytes, stream_header_at, samples_chunk_at, clock_offset_at, boundary_at, stream_footer_at, content_at};
ghost use Rattle.sample_values.specs.Rest.{Finds};
ghost use Rattle.chunk_decoder.specs.Viewed.{chunk_in};

use crate::fault::wrong;
use crate::fields::{read_length, read_number32, read_number64};
use crate::samples::find_samples;
use crate::view::ChunkView;
use chunk_grammar::Context;
use sample_values::WalkFault;
use shape_pattern::find_shape;
use xdf_model::Why;

// The bytes by which a reader finds its place again (XDF 1.0, "Boundary chunk").
const BOUNDARY: [u8; 16] = [
    0x43, 0xA5, 0x46, 0xDC, 0xCB, 0xF5, 0x41, 0x0F, 0xB3, 0x0E, 0xD5, 0x46, 0x73, 0x83, 0xCB, 0xE4,
];

fn read_id(bytes: &[u8]) -> Result<(u32, &[u8]), WalkFault>
    ensures { Finds (λ x. (x.0, x.1.now)) result
        (told (length bytes.now) ShortContent (number_at 4 bytes.now)) }
{
    match read_number32(bytes) {
        Err(WalkFault::Outside) => Err(wrong(bytes.len(), Why::ShortContent)),
        other => other,
    }
}

fn read_count(bytes: &[u8]) -> Result<(u64, &[u8]), WalkFault>
    ensures { Finds (λ x. (x.0, x.1.now)) result
        (told (length bytes.now) ShortContent (length_at bytes.now)) }
{
    match read_length(bytes) {
        Err(WalkFault::Outside) => Err(wrong(bytes.len(), Why::ShortContent)),
        other => other,
    }
}

#[tactic(auto, unfolding(chunk_grammar::specs::Standing::stream_header_at))]
fn find_stream_header<'a>(ctx: &Context, bytes: &'a [u8]) -> Result<ChunkView<'a>, WalkFault>
    ensures { Finds chunk_in result (stream_header_at ctx.now bytes.now) }
{
    let (id, rest) = read_id(bytes)?;
    if ctx.shape_of(id).is_some() {
        return Err(wrong(bytes.len(), Why::RepeatedStream));
    }
    if find_shape(rest).is_err() {
        return Err(wrong(rest.len(), Why::NoShape));
    }
    Ok(ChunkView::StreamHeader { id, doc: rest })
}

#[tactic(auto, unfolding(chunk_grammar::specs::Standing::samples_chunk_at))]
fn find_samples_chunk<'a>(ctx: &Context, bytes: &'a [u8]) -> Result<ChunkView<'a>, WalkFault>
    ensures { Finds chunk_in result (samples_chunk_at ctx.now bytes.now) }
{
    let (id, rest) = read_id(bytes)?;
    let Some(shape) = ctx.shape_of(id) else {
        return Err(wrong(bytes.len(), Why::UnknownStream));
    };
    let (count, rest) = read_count(rest)?;
    match find_samples(&shape, count, rest) {
        Ok((samples, rest)) => {
            if !rest.is_empty() {
                return Err(wrong(rest.len(), Why::ExtraBytes));
            }
            Ok(ChunkView::Samples { id, samples })
        }
        Err(fault) => Err(fault),
    }
}

#[tactic(auto, unfolding(chunk_grammar::specs::Standing::clock_offset_at))]
fn find_clock_offset(bytes: &[u8]) -> Result<ChunkView<'_>, WalkFault>
    ensures { Finds chunk_in result (clock_offset_at bytes.now) }
{
    if bytes.len() < 20 {
        return Err(wrong(bytes.len(), Why::ShortContent));
    }
    if bytes.len() > 20 {
        return Err(wrong(bytes.len() - 20, Why::ExtraBytes));
    }
    let (id, rest) = read_number32(bytes)?;
    let (time, rest) = read_number64(rest)?;
    let (offset, _) = read_number64(rest)?;
    Ok(ChunkView::ClockOffset { id, time, offset })
}

fn find_boundary_bytes(bytes: &[u8]) -> Result<ChunkView<'_>, WalkFault>
    requires { length bytes.now ≡ 16 }
    ensures { Finds chunk_in result (same_bytes boundary_bytes bytes.now) }
{
    for i in 0..16 {
        if bytes[i] != BOUNDARY[i] {
            return Err(wrong(16 - i, Why::BadBoundary));
        }
    }
    Ok(ChunkView::Boundary)
}

#[tactic(auto, unfolding(chunk_grammar::specs::Standing::boundary_at))]
fn find_boundary(bytes: &[u8]) -> Result<ChunkView<'_>, WalkFault>
    ensures { Finds chunk_in result (boundary_at bytes.now) }
{
    if bytes.len() < 16 {
        return Err(wrong(bytes.len(), Why::ShortContent));
    }
    if bytes.len() > 16 {
        return Err(wrong(bytes.len() - 16, Why::ExtraBytes));
    }
    find_boundary_bytes(bytes)
}

#[tactic(auto, unfolding(chunk_grammar::specs::Standing::stream_footer_at))]
fn find_stream_footer<'a>(ctx: &Context, bytes: &'a [u8]) -> Result<ChunkView<'a>, WalkFault>
    ensures { Finds chunk_in result (stream_footer_at ctx.now bytes.now) }
{
    let (id, rest) = read_id(bytes)?;
    if ctx.shape_of(id).is_none() {
        return Err(wrong(bytes.len(), Why::UnknownStream));
    }
    Ok(ChunkView::StreamFooter { id, doc: rest })
}

/// The content of a chunk with this tag, in the context of the streams declared so far.
#[tactic(auto, unfolding(chunk_grammar::specs::Standing::content_at))]
pub(crate) fn find_content<'a>(
    ctx: &Context,
    tag: u16,
    bytes: &'a [u8],
) -> Result<ChunkView<'a>, WalkFault>
    ensures { Finds chunk_in result (content_at ctx.now tag bytes.now) }
{
    match tag {
        1 => Ok(ChunkView::FileHeader { doc: bytes }),
        2 => find_stream_header(ctx, bytes),
        3 => find_samples_chunk(ctx, bytes),
        4 => find_clock_offset(bytes),
        5 => find_boundary(bytes),
        6 => find_stream_footer(ctx, bytes),
        _ => Ok(ChunkView::Other { tag, body: bytes }),
    }
}
