ghost use Rattle.std.specs.Prelude.{◌≡◌, ◌++◌, ℕ, List, OnOk, OnErr};
ghost use Rattle.std.specs.List.{flat_map, AllByRecursion};
ghost use Rattle.xdf_model.specs.Sample.{FitsShape, least_sample_text};
ghost use Rattle.sample_values.specs.View.{KeepsFront};
ghost use Rattle.chunk_grammar.specs.Chunk.{IsContentText, least_content_text};

use chunk_grammar::{Chunk, Context, SampleList};
use rec_base::Memory;
use sample_values::{Shape, put_view};
use xdf_lengths::{put_fixed, put_num};

// The bytes by which a reader finds its place again (XDF 1.0, "Boundary chunk").
const BOUNDARY: [u8; 16] = [
    0x43, 0xA5, 0x46, 0xDC, 0xCB, 0xF5, 0x41, 0x0F, 0xB3, 0x0E, 0xD5, 0x46, 0x73, 0x83, 0xCB, 0xE4,
];

fn put_samples(shape: &Shape, samples: &SampleList, out: &mut Vec<u8>) -> Result<(), Memory>
    requires { AllByRecursion (FitsShape shape.now) samples.now }
    ensures ok { OnOk result (out.new.items ≡ out.old.items ++ flat_map (least_sample_text shape.now) samples.now) }
    ensures kept { OnErr result (KeepsFront out.old.items out.new.items) }
{
    let mut rest = samples.walk();
    while let Some(sample) = rest.next() {
        put_view(shape, &sample, out)?;
    }
    Ok(())
}

// Appends the content of a chunk, each part directly after the one before.
pub(crate) fn put_content(ctx: &Context, chunk: &Chunk, out: &mut Vec<u8>) -> Result<(), Memory>
    requires { (b : List ℕ) × IsContentText ctx.now chunk.now b }
    ensures ok { OnOk result (out.new.items ≡ out.old.items ++ least_content_text ctx.now chunk.now) }
    ensures kept { OnErr result (KeepsFront out.old.items out.new.items) }
{
    match chunk {
        Chunk::FileHeader { doc } => out.extend_from_slice(doc.bytes())?,
        Chunk::StreamHeader { id, doc } => {
            put_fixed(4, *id as u64, out)?;
            out.extend_from_slice(doc.bytes())?;
        }
        Chunk::Samples { id, samples } => {
            put_fixed(4, *id as u64, out)?;
            put_num(samples.len() as u64, out)?;
            if let Some(shape) = ctx.shape_of(*id) {
                put_samples(&shape, samples, out)?;
            }
        }
        Chunk::ClockOffset { id, time, offset } => {
            put_fixed(4, *id as u64, out)?;
            put_fixed(8, *time, out)?;
            put_fixed(8, *offset, out)?;
        }
        Chunk::Boundary => out.extend_from_slice(&BOUNDARY)?,
        Chunk::StreamFooter { id, doc } => {
            put_fixed(4, *id as u64, out)?;
            out.extend_from_slice(doc.bytes())?;
        }
        Chunk::Other { tag: _, body } => out.extend_from_slice(body.bytes())?,
    }
    Ok(())
}
