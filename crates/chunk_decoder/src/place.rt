//! What stands at a place of a file.

ghost use Rattle.std.specs.Prelude.{◌≡◌, ◌≤◌, ◌++◌, ◌⊎◌, ℕ, List, length, take};
ghost use Rattle.chunk_grammar.specs.Chunk.{IsChunkText};
ghost use Rattle.chunk_grammar.specs.Standing.{chunk_at, standing_at};
ghost use Rattle.chunk_decoder.specs.Answers.{Answers};
ghost use Rattle.chunk_decoder.specs.Viewed.{chunk_in, standing_of};
ghost use Rattle.chunk_decoder.specs.declared.view.ChunkView.{ChunkView as ChunkSeen};

use crate::content::find_content;
use crate::view::ChunkView;
use byteorder::{ByteOrder, LittleEndian};
use chunk_grammar::{Chunk, Context};
use rec_base::Memory;
use sample_values::WalkFault;
use std::alloc::Global;
use xdf_lengths::{NumRead, read_num};
use xdf_model::Why;

// The most that a chunk's length may be, in bytes. This project's own.
const LENGTH_LIMIT: u64 = 67_108_864;

/// What stands at the front of some bytes, where it lies. Places count from the first of these bytes.
#[derive(Drop)]
pub enum Viewed<'a> {
    /// A chunk, and how many bytes it takes with its length and its tag.
    Whole { chunk: ChunkView<'a>, used: usize },
    /// The bytes end within the chunk, or there are none.
    Torn,
    /// No chunk stands there, and no bytes behind these make one: the reason, and the place at which
    /// the field or the sample begins that has it. A fault of the chunk's length is told at 0, and a
    /// clock offset or a boundary that is too short at the content's first byte.
    Bad { at: usize, why: Why },
}

/// What stands at the front of some bytes, as [`Viewed`], with the chunk's value.
#[derive(Debug, Drop)]
pub enum Step {
    /// A chunk, and how many bytes it takes with its length and its tag.
    Whole { chunk: Chunk, used: usize },
    /// The bytes end within the chunk, or there are none.
    Torn,
    /// No chunk stands there: the reason and its place.
    Bad { at: usize, why: Why },
    /// There was no memory for the chunk.
    Memory,
}

/// A chunk whose length, `len`, ends at `place`. The bytes begin behind it.
fn view_framed<'a>(ctx: &Context, len: u64, place: usize, bytes: &'a [u8]) -> Viewed<'a>
    requires { place ≤ 9 }
    ensures { chunk_at ctx.now len place bytes.now ≡ standing_of result }
{
    if len < 2 {
        return Viewed::Bad {
            at: 0,
            why: Why::LengthUnderTwo,
        };
    }
    if len > LENGTH_LIMIT {
        return Viewed::Bad {
            at: 0,
            why: Why::TooLong,
        };
    }
    if (bytes.len() as u64) < len {
        return Viewed::Torn;
    }
    let tag = LittleEndian::read_u16(bytes);
    let used = place + len as usize;
    match find_content(ctx, tag, &bytes[2..len as usize]) {
        Ok(chunk) => Viewed::Whole { chunk, used },
        Err(WalkFault::Outside) => Viewed::Torn,
        // A fault is within the content, so nothing saturates.
        Err(WalkFault::Wrong { left, why }) => Viewed::Bad {
            at: used.saturating_sub(left),
            why,
        },
    }
}

// The same as [`view_chunk`], of which only `exact` is said.
#[tactic(auto, unfolding(chunk_grammar::specs::Standing::standing_at))]
fn view<'a>(ctx: &Context, bytes: &'a [u8]) -> Viewed<'a>
    ensures { standing_at ctx.now bytes.now ≡ standing_of result }
{
    match read_num(bytes) {
        NumRead::Read { value, used } => view_framed(ctx, value, used, &bytes[used..]),
        NumRead::Short => Viewed::Torn,
        NumRead::BadWidth(_) => Viewed::Bad {
            at: 0,
            why: Why::BadWidth,
        },
    }
}

/// Judges one chunk at the front of some bytes of a file, in the context of the streams whose headers
/// came before, and tells it where it lies: its length, which counts the tag and the content and has
/// any of the widths 1, 4 and 8; its tag in two bytes, the lowest first; and its content by the tag
/// (XDF 1.0, "Chunk layout"). A chunk with a tag that the format leaves open is told with its bytes as
/// they are.
///
/// The context stays as it was: a stream header joins it by `Context::context_add`. Faults are
/// judged from left to right, those of a content once all of its bytes are there, and the first one
/// is told (this project's own). So a longer input changes no answer but `Torn`.
///
/// It takes no memory, and goes over the bytes once.
pub fn view_chunk<'a>(ctx: &Context, bytes: &'a [u8]) -> Viewed<'a>
    // This is what stands at the front of the bytes.
    ensures exact { standing_at ctx.now bytes.now ≡ standing_of result }
    // What is told as whole is spelled by the bytes that it takes.
    ensures whole { (c : ChunkSeen) (used : ℕ) → result ≡ Viewed.Whole c used
        → (used ≤ length bytes.now) × IsChunkText ctx.now (chunk_in c) (take used bytes.now) }
    // A whole chunk has a width, a length and a tag at least, and ends within the bytes.
    ensures size { (c : ChunkSeen) (used : ℕ) → result ≡ Viewed.Whole c used
        → (4 ≤ used) × (used ≤ length bytes.now) }
    // A fault is told within the bytes, or at their end.
    ensures place { (at : ℕ) (why : Why) → result ≡ Viewed.Bad at why → at ≤ length bytes.now }
{
    view(ctx, bytes)
}

// The same as [`read_chunk`], of which only `exact` is said.
fn answer(alloc: Global, ctx: &Context, bytes: &[u8]) -> Step
    ensures { Answers result (standing_at ctx.now bytes.now) }
{
    match view(ctx, bytes) {
        Viewed::Whole { chunk, used } => match chunk.copy(alloc) {
            Ok(chunk) => Step::Whole { chunk, used },
            Err(Memory) => Step::Memory,
        },
        Viewed::Torn => Step::Torn,
        Viewed::Bad { at, why } => Step::Bad { at, why },
    }
}

/// Reads one chunk from the front of some bytes of a file: as [`view_chunk`] judges it, with its value.
///
/// `Memory` comes for want of memory alone, and says nothing of the bytes.
pub fn read_chunk(alloc: Global, ctx: &Context, bytes: &[u8]) -> Step
    // Unless memory runs out, this is what stands at the front of the bytes.
    ensures exact { Answers result (standing_at ctx.now bytes.now) }
    // What is told as whole is spelled by the bytes that it takes.
    ensures whole { (c : Chunk) (used : ℕ) → result ≡ Step.Whole c used
        → (used ≤ length bytes.now) × IsChunkText ctx.now c (take used bytes.now) }
    // What is spelled is found.
    ensures found { (c : Chunk) (x rest : List ℕ) → IsChunkText ctx.now c x
        → bytes.now ≡ x ++ rest
        → (result ≡ Step.Memory) ⊎ (result ≡ Step.Whole c (length x)) }
    // A whole chunk has a width, a length and a tag at least, and ends within the bytes.
    ensures size { (c : Chunk) (used : ℕ) → result ≡ Step.Whole c used
        → (4 ≤ used) × (used ≤ length bytes.now) }
    // A fault is told within the bytes, or at their end.
    ensures place { (at : ℕ) (why : Why) → result ≡ Step.Bad at why → at ≤ length bytes.now }
{
    answer(alloc, ctx, bytes)
}
