//! What the rings of a plan cost.

ghost use Rattle.std.specs.Prelude.{◌≡◌, ◌≤◌, ◌<◌, ◌⊎◌, ℕ, length, map, IfOk, OnOk, IsErr, IsErrOf};
ghost use Rattle.record_run.specs.Cost.{cost_of};
ghost use Rattle.record_call.specs.Recorded.{cost_limit};

use crate::fault::RecordFault;
use rec_base::Memory;
use record_run::{StreamDoc, ring_cost};
use std::alloc::Global;
use xdf_model::Shape;

// The most bytes that the rings may cost.
const COST_LIMIT: u64 = 1_073_741_824;

fn shapes_of(alloc: Global, streams: &[StreamDoc]) -> Result<Vec<Shape>, Memory>
    ensures { IfOk result (λ shapes. shapes.items ≡ map (λ s. s.shape) streams.now) }
{
    let mut shapes = Vec::new(alloc);
    for stream in streams {
        shapes.push(stream.shape)?;
    }
    Ok(shapes)
}

/// Whether the rings of these streams cost too much: `Cost` with what they cost.
pub(crate) fn check_cost(alloc: Global, ring: u64, streams: &[StreamDoc]) -> Result<(), RecordFault>
    requires ring { ring ≤ 1_048_576 }
    requires few { length streams.now ≤ 64 }
    ensures within { OnOk result (cost_of ring (map (λ s. s.shape) streams.now) ≤ cost_limit) }
    ensures over { (cost : ℕ) → IsErrOf result (RecordFault.Cost cost) → (cost ≡ cost_of ring (map (λ s. s.shape) streams.now)) × (cost_limit < cost) }
    ensures none_else { IsErr result → IsErrOf result RecordFault.Memory ⊎ ((cost : ℕ) × IsErrOf result (RecordFault.Cost cost)) }
{
    let shapes = shapes_of(alloc, streams)?;
    let cost = ring_cost(ring, &shapes);
    if cost > COST_LIMIT {
        return Err(RecordFault::Cost(cost));
    }
    Ok(())
}
