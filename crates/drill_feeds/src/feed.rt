ghost use Rattle.std.specs.Prelude.{◌≡◌, ◌≤◌, ◌++◌, IfOk, OnOk};
ghost use Rattle.std.specs.List.{flat_map};
ghost use Rattle.xdf_model.specs.Sample.{size_of};
ghost use Rattle.drill_feeds.specs.Drill.{drill_bytes, drill_format, drill_order, drill_samples, feed_sample_text};

use crate::put::{put_sample, put_test};
use crate::rule::{count_of, order_of, reply_of};
use rec_base::{Blob, Memory};
use std::alloc::{AllocError, Global};

// All samples of a feed.
fn put_samples(samples: u64, id: u32, out: &mut Vec<u8>) -> Result<(), AllocError>
    requires { samples ≤ 1_000_000 }
    ensures { OnOk result (out.new.items ≡ out.old.items ++ flat_map (feed_sample_text (drill_order id) (size_of (drill_format id))) (drill_samples samples id)) }
{
    let count = count_of(samples, id);
    let mut next: u64 = 0;
    while next < count {
        put_sample(samples, id, next, out)?;
        next += 1;
    }
    Ok(())
}

// The bytes of a feed.
fn feed_bytes(alloc: Global, samples: u64, id: u32) -> Result<Vec<u8>, AllocError>
    requires samples { samples ≤ 1_000_000 }
    requires low { 1 ≤ id }
    requires high { id ≤ 3 }
    ensures { IfOk result (λ out. out.items ≡ drill_bytes samples id) }
{
    let mut out = reply_of(order_of(id)).as_bytes().to_vec(alloc)?;
    put_test(id, &mut out)?;
    put_test(id, &mut out)?;
    put_samples(samples, id, &mut out)?;
    Ok(out)
}

/// The bytes of a feed of the drill, 1 to 3, where the drill has so many samples, 1 to 1,000,000: the
/// outlet's reply, two test samples, and the feed's samples (LSL `streamfeed`, data protocol 1.10; what
/// the samples are is this project's own). `Memory` comes for want of memory alone.
pub fn drill_feed(alloc: Global, number: u64, id: u32) -> Result<Blob, Memory>
    requires some { 1 ≤ number }
    requires most { number ≤ 1_000_000 }
    requires low { 1 ≤ id }
    requires high { id ≤ 3 }
    ensures { IfOk result (λ feed. feed ≡ drill_bytes number id) }
{
    match feed_bytes(alloc, number, id) {
        Ok(bytes) => Ok(Blob::from_vec(bytes)),
        Err(AllocError) => Err(Memory),
    }
}
