ghost use Rattle.std.specs.Prelude.{◌≡◌, ◌++◌, ℕ, List, OnOk, OnErr};
ghost use Rattle.sample_values.specs.View.{KeepsFront};
ghost use Rattle.chunk_grammar.specs.Chunk.{IsChunkText, least_chunk_text};

use crate::content::put_content;
use crate::size::content_size;
use chunk_grammar::{Chunk, Context, tag_of_chunk};
use rec_base::Memory;
use xdf_lengths::{num_size, put_fixed, put_num};

// The length, the tag and the content, for which room is made first.
#[tactic(auto, unfolding(chunk_grammar::specs::Chunk::least_chunk_text))]
fn put_parts(ctx: &Context, chunk: &Chunk, out: &mut Vec<u8>) -> Result<(), Memory>
    requires { (b : List ℕ) × IsChunkText ctx.now chunk.now b }
    ensures ok { OnOk result (out.new.items ≡ out.old.items ++ least_chunk_text ctx.now chunk.now) }
    ensures kept { OnErr result (KeepsFront out.old.items out.new.items) }
{
    let len = content_size(ctx, chunk) + 2;
    out.reserve(1 + num_size(len) as usize + len as usize)?;
    put_num(len, out)?;
    put_fixed(2, tag_of_chunk(chunk) as u64, out)?;
    put_content(ctx, chunk, out)
}

/// Appends the bytes of a chunk to `out`: the length of what follows it in the least width, the tag
/// in 2 bytes and the content, all numbers with their lowest byte first (XDF 1.0, "Chunk layout").
/// In `ctx` are the streams whose headers came before.
///
/// It is asked that the chunk has a text there, by rules that are this project's own beside the
/// layout: the stream of samples or of a footer has a header before it and that of a header hasn't, a
/// header tells a shape, samples fit the shape of their stream, another chunk has a tag that is none
/// of the six, and the length is at most 67,108,864.
///
/// `Memory` comes for want of memory alone, and leaves what `out` holds as it was. `out` grows at
/// most once.
pub fn encode_chunk(ctx: &Context, chunk: &Chunk, out: &mut Vec<u8>) -> Result<(), Memory>
    requires { (b : List ℕ) × IsChunkText ctx.now chunk.now b }
    ensures ok { OnOk result (out.new.items ≡ out.old.items ++ least_chunk_text ctx.now chunk.now) }
    ensures memory { OnErr result (out.new.items ≡ out.old.items) }
{
    let start = out.len();
    let put = put_parts(ctx, chunk, out);
    if put.is_err() {
        out.truncate(start);
        return Err(Memory);
    }
    Ok(())
}
