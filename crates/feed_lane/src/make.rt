//! The making of a lane.

ghost use Rattle.std.specs.Prelude.{◌≡◌, ◌≤◌, [], IfOk};
ghost use Rattle.xdf_model.specs.Sample.{size_of};
ghost use Rattle.feed_lane.specs.Kinds.{longest};
ghost use Rattle.feed_lane.specs.Ends.{HasNone, HasPool};

use crate::block_head::BlockHead;
use crate::block_tail::BlockTail;
use crate::head::{HeadEnds, LaneHead};
use crate::tail::{LaneTail, TailEnds};
use crate::terms::{FittingSamples, FullBlocks};
use crate::text_head::TextHead;
use crate::text_tail::TextTail;
use block_pool::make_pool;
use rec_base::Memory;
use sample_values::{Shape, size_of_format};
use std::alloc::Global;
use thread_ring::make_ring;

// Of numbers: the ring, and two blocks more than it holds. One more is in the hands of either thread.
fn make_blocks(
    alloc: Global,
    shape: Shape,
    capacity: usize,
    size: usize,
) -> Result<(BlockTail, BlockHead), Memory>
    requires low { 1 ≤ capacity }
    requires high { capacity ≤ 1_048_576 }
    requires count { shape.count ≤ 4096 }
    requires numeric { 1 ≤ size_of shape.format }
    requires size { size ≡ longest shape }
    ensures tail { IfOk result (λ r. (r.0.lane.capacity ≡ capacity) × (r.0.lane.shape ≡ shape) × (r.0.puts ≡ []) × (r.0.dropped ≡ [])) }
    ensures head { IfOk result (λ r. (r.1.lane ≡ r.0.lane) × (r.1.taken ≡ [])) }
    ensures kind { IfOk result (λ r. HasPool r.0.lane) }
{
    let terms = FullBlocks {
        shape,
        size: size as u64,
    };
    let (tail, head) = make_ring(alloc, capacity, &terms)?;
    let (giver, taker) = make_pool(alloc, capacity + 2, size)?;
    let tail = BlockTail {
        shape,
        tail,
        taker,
        spare: None,
    };
    Ok((tail, BlockHead { shape, head, giver }))
}

// Of texts: the ring alone.
fn make_texts(alloc: Global, shape: Shape, capacity: usize) -> Result<(TextTail, TextHead), Memory>
    requires low { 1 ≤ capacity }
    requires high { capacity ≤ 1_048_576 }
    requires texts { size_of shape.format ≡ 0 }
    ensures tail { IfOk result (λ r. (r.0.lane.capacity ≡ capacity) × (r.0.lane.shape ≡ shape) × (r.0.puts ≡ []) × (r.0.dropped ≡ [])) }
    ensures head { IfOk result (λ r. (r.1.lane ≡ r.0.lane) × (r.1.taken ≡ [])) }
    ensures kind { IfOk result (λ r. HasNone r.0.lane) }
{
    let (tail, head) = make_ring(alloc, capacity, &FittingSamples { shape })?;
    Ok((TextTail { shape, tail }, TextHead { shape, head }))
}

/// Both ends of a new lane for samples of a shape, whose ring holds at most `capacity` of them. Each end
/// may go to a thread of its own. Of numbers all memory is taken here: `capacity` blocks and two more,
/// each as long as the longest sample. Of texts it is that of the ring. This project's own.
///
/// `Memory` comes for want of memory alone.
pub fn make_lane(
    alloc: Global,
    shape: Shape,
    capacity: usize,
) -> Result<(LaneTail, LaneHead), Memory>
    requires low { 1 ≤ capacity }
    requires high { capacity ≤ 1_048_576 }
    requires count { shape.count ≤ 4096 }
    ensures tail { IfOk result (λ r. (r.0.lane.capacity ≡ capacity) × (r.0.lane.shape ≡ shape) × (r.0.puts ≡ []) × (r.0.dropped ≡ [])) }
    ensures head { IfOk result (λ r. (r.1.lane ≡ r.0.lane) × (r.1.taken ≡ [])) }
{
    match size_of_format(shape.format) {
        0 => {
            let (tail, head) = make_texts(alloc, shape, capacity)?;
            let tail = LaneTail {
                ends: TailEnds::Texts(tail),
            };
            let head = LaneHead {
                ends: HeadEnds::Texts(head),
            };
            Ok((tail, head))
        }
        size => {
            let longest = 9 + shape.count as usize * size as usize;
            let (tail, head) = make_blocks(alloc, shape, capacity, longest)?;
            let tail = LaneTail {
                ends: TailEnds::Numbers(tail),
            };
            let head = LaneHead {
                ends: HeadEnds::Numbers(head),
            };
            Ok((tail, head))
        }
    }
}
