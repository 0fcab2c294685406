//! Samples, one after the other (XDF 1.0, "Samples chunk").

ghost use Rattle.std.specs.Prelude.{◌≡◌, IfOk};
ghost use Rattle.xdf_model.specs.Sample.{samples_at};
ghost use Rattle.sample_values.specs.Raw.{listed, IsAll};
ghost use Rattle.sample_values.specs.Rest.{Finds};

use chunk_grammar::SampleList;
use rec_base::Memory;
use sample_values::{RawSamples, WalkFault, walk_samples};
use std::alloc::Global;
use std::marker::Model;
use xdf_model::Shape;

/// Samples of a shape where they lie, as their bytes in a file. Contracts see the list of them.
#[derive(Drop)]
pub struct SamplesAt<'a> {
    shape: Shape,
    count: usize,
    bytes: &'a [u8],
}

impl<'a> Model for SamplesAt<'a> {
    ghost use Rattle.std.specs.Prelude.{List};
    ghost use Rattle.xdf_model.specs.Sample.{Sample as SampleValue, samples_at};
    ghost use Rattle.sample_values.specs.Raw.{listed, IsAll};

    ghost Value = { List SampleValue };

    ghost view = { λ s. listed (samples_at s.shape s.count s.bytes.now) };

    ghost invariant = { λ s. IsAll (samples_at s.shape s.count s.bytes.now) };
}

impl<'a> SamplesAt<'a> {
    fn of(shape: Shape, count: usize, bytes: &'a [u8]) -> SamplesAt<'a>
        requires { IsAll (samples_at shape count bytes.now) }
        ensures { result ≡ listed (samples_at shape count bytes.now) }
    {
        SamplesAt {
            shape,
            count,
            bytes,
        }
    }

    /// A copy of them.
    pub fn copy(&self, alloc: Global) -> Result<SampleList, Memory>
        ensures { IfOk result (λ l. l ≡ self.now) }
    {
        let raw = RawSamples::from_bytes(alloc, self.shape, self.count, self.bytes)?;
        Ok(SampleList::from_raw(alloc, raw))
    }
}

/// So many samples, and the bytes behind them. Each takes a byte at least, so no count is gone
/// through that the bytes don't bear out.
pub(crate) fn find_samples<'a>(
    shape: &Shape,
    count: u64,
    bytes: &'a [u8],
) -> Result<(SamplesAt<'a>, &'a [u8]), WalkFault>
    ensures { Finds (λ x. (x.0, x.1.now)) result (samples_at shape.now count bytes.now) }
{
    match walk_samples(shape, count, bytes) {
        Ok(rest) => {
            let own = &bytes[..bytes.len() - rest.len()];
            Ok((SamplesAt::of(*shape, count as usize, own), rest))
        }
        Err(fault) => Err(fault),
    }
}
