ghost use Rattle.std.specs.Prelude.{◌≡◌, ◌<◌, ◌^◌, List, ℕ, length};
ghost use Rattle.std.specs.List.{flat_map, AllByRecursion};
ghost use Rattle.xdf_model.specs.Sample.{FitsShape, least_sample_text};
ghost use Rattle.chunk_grammar.specs.Chunk.{IsChunkText, least_content_text};

use chunk_grammar::{Chunk, Context, SampleList};
use sample_values::{Shape, view_size};
use xdf_lengths::num_size;

// What the samples of a chunk take, one directly after the other.
fn samples_size(shape: &Shape, samples: &SampleList) -> u64
    requires fits { AllByRecursion (FitsShape shape.now) samples.now }
    requires room { length (flat_map (least_sample_text shape.now) samples.now) < 2 ^ 64 }
    ensures { result ≡ length (flat_map (least_sample_text shape.now) samples.now) }
{
    let mut rest = samples.walk();
    let mut size = 0u64;
    while let Some(sample) = rest.next() {
        size += view_size(shape, &sample);
    }
    size
}

/// How many bytes the content of a chunk takes with the least widths: what stands behind its length
/// and its tag.
pub fn content_size(ctx: &Context, chunk: &Chunk) -> u64
    requires { (b : List ℕ) × IsChunkText ctx.now chunk.now b }
    ensures { result ≡ length (least_content_text ctx.now chunk.now) }
{
    match chunk {
        Chunk::FileHeader { doc } => doc.bytes().len() as u64,
        Chunk::StreamHeader { id: _, doc } => 4 + doc.bytes().len() as u64,
        Chunk::Samples { id, samples } => {
            let count = samples.len() as u64;
            match ctx.shape_of(*id) {
                Some(shape) => 4 + (1 + num_size(count) as u64) + samples_size(&shape, samples),
                None => 4 + (1 + num_size(count) as u64),
            }
        }
        Chunk::ClockOffset { .. } => 20,
        Chunk::Boundary => 16,
        Chunk::StreamFooter { id: _, doc } => 4 + doc.bytes().len() as u64,
        Chunk::Other { tag: _, body } => body.bytes().len() as u64,
    }
}
