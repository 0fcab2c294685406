ghost use Rattle.std.specs.Prelude.{◌≡◌, IfSome, IsTrue, length, slice_get};
ghost use Rattle.std.specs.List.{flat_map};
ghost use Rattle.std.specs.Option.{option_copied};
ghost use Rattle.xdf_model.specs.Sample.{FitsShape, least_sample_text, least_value_text};
ghost use Rattle.sample_values.specs.View.{bits_in, text_in};

use crate::raw_view::RawView;
use crate::sample::Sample;
use crate::value::ValueWalk;
use std::marker::Model;
use xdf_model::{Shape, Stamp};

#[derive(Debug, Drop)]
pub(crate) enum Kind<'a> {
    Kept(&'a Sample),
    Raw(RawView<'a>),
}

/// A sample that stands elsewhere, as in a chunk or a ring: a time stamp and a value for each
/// channel, as in [`Sample`]. It stands there as a sample that is kept, or as its bytes in a file.
#[derive(Debug, Drop)]
pub struct SampleView<'a> {
    pub(crate) kind: Kind<'a>,
}

impl<'a> Model for SampleView<'a> {
    ghost use Rattle.xdf_model.specs.Sample.{Sample as SampleValue};

    ghost Value = { SampleValue };

    ghost use Rattle.sample_values.specs.Kinds.{sample_of};

    ghost view = { λ v. sample_of v.kind };
}

impl<'a> SampleView<'a> {
    pub(crate) fn kept(sample: &'a Sample) -> SampleView<'a>
        ensures { result ≡ sample.now }
    {
        SampleView {
            kind: Kind::Kept(sample),
        }
    }

    pub(crate) fn raw(view: RawView<'a>) -> SampleView<'a>
        ensures { result ≡ view.entry }
    {
        SampleView {
            kind: Kind::Raw(view),
        }
    }

    /// The time stamp: the pattern of an IEEE 754 double in seconds, or none.
    pub fn stamp(&self) -> Stamp
        ensures { result ≡ self.now.stamp }
    {
        match &self.kind {
            Kind::Kept(sample) => sample.stamp(),
            Kind::Raw(view) => view.stamp(),
        }
    }

    /// How many values there are.
    pub fn len(&self) -> usize
        ensures { result ≡ length self.now.values }
    {
        match &self.kind {
            Kind::Kept(sample) => sample.len(),
            Kind::Raw(view) => view.len(),
        }
    }

    /// The pattern of the number of a channel, counted from 0, where a number stands there.
    pub fn bits_at(&self, i: usize) -> Option<u64>
        ensures { result ≡ bits_in (slice_get self.now.values i) }
    {
        match &self.kind {
            Kind::Kept(sample) => sample.bits_at(i),
            Kind::Raw(view) => view.bits_at(i),
        }
    }

    /// The bytes of the text of a channel, counted from 0, where a text stands there. Among texts alone
    /// it goes past those before, so for all of them [`values`](SampleView::values) is
    /// the way.
    pub fn text_at(&self, i: usize) -> Option<&[u8]>
        ensures { option_copied result ≡ text_in (slice_get self.now.values i) }
    {
        match &self.kind {
            Kind::Kept(sample) => sample.text_at(i),
            Kind::Raw(view) => view.text_at(i),
        }
    }

    /// The values in the order of the channels. Nothing is copied, and no memory is taken.
    pub fn values(&self) -> ValueWalk<'a>
        ensures { result ≡ self.now.values }
    {
        match &self.kind {
            Kind::Kept(sample) => sample.values(),
            Kind::Raw(view) => view.values(),
        }
    }

    // Whether it stands as bytes of this very shape, or is kept as so many texts.
    pub(crate) fn has_shape(&self, shape: &Shape) -> bool
        ensures { IsTrue result → FitsShape shape.now self.now }
    {
        match &self.kind {
            Kind::Kept(sample) => sample.has_shape(shape),
            Kind::Raw(view) => view.has_shape(shape),
        }
    }

    // The texts with the least widths, where they stand as such and no number is among them.
    pub(crate) fn least_texts(&self) -> Option<&'a [u8]>
        ensures { IfSome result (λ bytes. bytes.now ≡ flat_map (least_value_text 0) self.now.values) }
    {
        match &self.kind {
            Kind::Kept(sample) => sample.least_texts(),
            Kind::Raw(_) => None,
        }
    }

    // The text with the least widths, where it stands as such.
    pub(crate) fn least_bytes(&self, shape: &Shape) -> Option<&'a [u8]>
        ensures { IfSome result (λ bytes. bytes.now ≡ least_sample_text shape.now self.now) }
    {
        match &self.kind {
            Kind::Kept(_) => None,
            Kind::Raw(view) => view.least_bytes(shape),
        }
    }
}
