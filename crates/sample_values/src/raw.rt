//! Samples as the bytes that they have in a file.

ghost use Rattle.std.specs.Prelude.{◌≡◌, ◌++◌, ◌<◌, ◌^◌, [], None, IfOk, false, length, option_to_list};
ghost use Rattle.std.specs.List.{list_any};
ghost use Rattle.xdf_model.specs.Sample.{samples_at};
ghost use Rattle.sample_values.specs.View.{is_text};
ghost use Rattle.sample_values.specs.Raw.{listed, IsAll};

use crate::raw_view::cut_sample;
use crate::size::size_of_format;
use crate::view::SampleView;
use rec_base::Memory;
use std::alloc::Global;
use std::marker::Model;
use xdf_model::Shape;

/// Samples of a shape, kept as their bytes in a file (XDF 1.0, "Samples chunk"). Contracts see the
/// list of them.
#[derive(Debug, Drop)]
pub struct RawSamples {
    shape: Shape,
    count: usize,
    bytes: Vec<u8>,
}

impl Model for RawSamples {
    ghost use Rattle.std.specs.Prelude.{List};
    ghost use Rattle.xdf_model.specs.Sample.{Sample as SampleValue, samples_at};
    ghost use Rattle.sample_values.specs.Raw.{listed, IsAll};

    ghost Value = { List SampleValue };

    ghost view = { λ r. listed (samples_at r.shape r.count r.bytes.items) };

    ghost invariant = { λ r. IsAll (samples_at r.shape r.count r.bytes.items) };
}

// So many samples: each takes a byte at least, so there are no more than bytes.
fn count_within(shape: &Shape, count: usize, bytes: &[u8]) -> usize
    requires { IsAll (samples_at shape.now count bytes.now) }
    ensures same { result ≡ count }
    ensures small { result < 2 ^ 63 }
{
    count
}

impl RawSamples {
    /// So many samples of a shape, which take all the bytes, as [`walk_samples`](crate::walk_samples)
    /// tells. The bytes are copied into memory of `alloc`; `Memory` comes for want of memory alone.
    pub fn from_bytes(
        alloc: Global,
        shape: Shape,
        count: usize,
        bytes: &[u8],
    ) -> Result<RawSamples, Memory>
        requires all { IsAll (samples_at shape count bytes.now) }
        ensures { IfOk result (λ r. r ≡ listed (samples_at shape count bytes.now)) }
    {
        let bytes = bytes.to_vec(alloc)?;
        Ok(RawSamples {
            shape,
            count,
            bytes,
        })
    }

    /// How many samples there are.
    pub fn len(&self) -> usize
        ensures count { result ≡ length self.now }
        ensures small { result < 2 ^ 63 }
    {
        count_within(&self.shape, self.count, &self.bytes)
    }

    /// Whether there may be a text among the values, by the format alone.
    pub fn has_texts(&self) -> bool
        ensures { result ≡ false → list_any (λ s. list_any is_text s.values) self.now ≡ false }
    {
        size_of_format(self.shape.format) == 0
    }

    /// The samples in order. Nothing is copied, and no memory is taken.
    pub fn walk(&self) -> RawWalk<'_>
        ensures { result ≡ self.now }
    {
        RawWalk {
            shape: self.shape,
            left: self.count,
            rest: &self.bytes,
        }
    }
}

/// The samples of a [`RawSamples`] that are still to come. Contracts see the list of them.
#[derive(Debug, Drop)]
pub struct RawWalk<'a> {
    shape: Shape,
    left: usize,
    rest: &'a [u8],
}

impl<'a> Model for RawWalk<'a> {
    ghost use Rattle.std.specs.Prelude.{List};
    ghost use Rattle.xdf_model.specs.Sample.{Sample as SampleValue, samples_at};
    ghost use Rattle.sample_values.specs.Raw.{listed, IsAll};

    ghost Value = { List SampleValue };

    ghost view = { λ w. listed (samples_at w.shape w.left w.rest.now) };

    ghost invariant = { λ w. IsAll (samples_at w.shape w.left w.rest.now) };
}

impl<'a> RawWalk<'a> {
    /// The next sample, or `None` where none is left.
    #[inline(always)]
    pub fn next(&mut self) -> Option<SampleView<'a>>
        ensures gives { self.old ≡ option_to_list result ++ self.new }
        ensures end { result ≡ None → self.old ≡ [] }
    {
        if self.left == 0 {
            return None;
        }
        let Ok((view, rest)) = cut_sample(&self.shape, self.rest) else {
            unreachable!();
        };
        self.rest = rest;
        self.left -= 1;
        Some(SampleView::raw(view))
    }
}
