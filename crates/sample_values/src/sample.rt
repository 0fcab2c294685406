ghost use Rattle.std.specs.Prelude.{◌≡◌, ◌++◌, [], ◌∷◌, OnOk, OnErr, IfOk, IfSome, IsTrue, length, map, slice_get};
ghost use Rattle.std.specs.List.{flat_map};
ghost use Rattle.std.specs.Option.{option_copied};
ghost use Rattle.xdf_model.specs.Sample.{number, text, FitsShape, least_value_text};
ghost use Rattle.sample_values.specs.View.{bits_in, text_in, value_of};

use crate::fits::stamp_fits;
use crate::raw_view::text_among;
use crate::texts::Texts;
use crate::value::ValueWalk;
use crate::view::SampleView;
use rec_base::Memory;
use std::alloc::Global;
use std::marker::Model;
use xdf_model::{Shape, Stamp};

// A value as it is kept: the pattern of a number, or the bytes of a text.
#[derive(Debug, Drop)]
pub(crate) enum Held {
    Number(u64),
    Text(Vec<u8>),
}

// The values of a sample: texts alone, in one vector, or any values since the first number.
#[derive(Debug, Drop)]
pub(crate) enum Values {
    Listed(Vec<Held>),
    Texts(Texts),
}

// The texts, each in a vector of its own, and a number behind them.
fn listed_with(texts: &Texts, bits: u64) -> Result<Vec<Held>, Memory>
    ensures { IfOk result (λ list. map value_of list.items ≡ texts.now ++ number bits ∷ []) }
{
    let mut list = texts.to_list()?;
    list.push(Held::Number(bits))?;
    Ok(list)
}

fn bits_among(list: &[Held], i: usize) -> Option<u64>
    ensures { result ≡ bits_in (slice_get (map value_of list.now) i) }
{
    match list.get(i) {
        Some(Held::Number(bits)) => Some(*bits),
        _ => None,
    }
}

fn text_in_list(list: &[Held], i: usize) -> Option<&[u8]>
    ensures { option_copied result ≡ text_in (slice_get (map value_of list.now) i) }
{
    match list.get(i) {
        Some(Held::Text(text)) => Some(text),
        _ => None,
    }
}

/// A sample: a time stamp and a value for each channel (XDF 1.0, "Samples chunk").
///
/// A value is a number of at most 64 bits, kept as its pattern, or a text, which may be any bytes.
/// Nothing here knows the shape of a stream: [`sample_fits`](crate::sample_fits) is the test.
#[derive(Debug, Drop)]
pub struct Sample {
    pub(crate) stamp: Stamp,
    pub(crate) values: Values,
}

impl Model for Sample {
    ghost use Rattle.xdf_model.specs.Sample.{Sample as SampleValue};

    ghost Value = { SampleValue };

    ghost use Rattle.sample_values.specs.View.{view_of};

    ghost view = { view_of };
}

impl Sample {
    /// A sample that has no values yet. It takes no memory before the first value.
    pub fn new(alloc: Global, stamp: Stamp) -> Sample
        ensures { result ≡ record { stamp = stamp; values = [] } }
    {
        Sample {
            stamp,
            values: Values::Texts(Texts::new(alloc)),
        }
    }

    /// Leaves a sample of this stamp without values. The memory of the texts that it held, or of its
    /// list of numbers, is used again.
    pub fn reset(&mut self, stamp: Stamp)
        ensures { self.new ≡ record { stamp = stamp; values = [] } }
    {
        self.stamp = stamp;
        match &mut self.values {
            Values::Listed(list) => list.clear(),
            Values::Texts(texts) => texts.clear(),
        }
    }

    /// Appends a number, as its pattern of bits: of a float the IEEE 754 pattern, of a signed number
    /// the two's complement in the bytes of its format. Behind texts alone it copies these first.
    /// `Memory` comes for want of memory alone, and leaves the sample as it was.
    pub fn push_bits(&mut self, bits: u64) -> Result<(), Memory>
        ensures ok { OnOk result (self.new ≡ record { stamp = self.old.stamp; values = self.old.values ++ number bits ∷ [] }) }
        ensures memory { OnErr result (self.new ≡ self.old) }
    {
        match &mut self.values {
            Values::Listed(list) => list.push(Held::Number(bits))?,
            Values::Texts(texts) => {
                let list = listed_with(texts, bits)?;
                self.values = Values::Listed(list);
            }
        }
        Ok(())
    }

    /// Appends a text, which may be any bytes; they are copied behind the texts before them, or into
    /// memory of `alloc` where the sample has held a number. `Memory` comes for want of memory alone,
    /// and leaves the sample as it was.
    pub fn push_text(&mut self, alloc: Global, bytes: &[u8]) -> Result<(), Memory>
        ensures ok { OnOk result (self.new ≡ record { stamp = self.old.stamp; values = self.old.values ++ text bytes.now ∷ [] }) }
        ensures memory { OnErr result (self.new ≡ self.old) }
    {
        match &mut self.values {
            Values::Listed(list) => list.push(Held::Text(Vec::from_slice(alloc, bytes)?))?,
            Values::Texts(texts) => texts.push(bytes)?,
        }
        Ok(())
    }

    /// The time stamp: the pattern of an IEEE 754 double in seconds, or none.
    pub fn stamp(&self) -> Stamp
        ensures { result ≡ self.now.stamp }
    {
        self.stamp
    }

    /// How many values there are.
    pub fn len(&self) -> usize
        ensures { result ≡ length self.now.values }
    {
        match &self.values {
            Values::Listed(list) => list.len(),
            Values::Texts(texts) => texts.len(),
        }
    }

    /// The pattern of the number of a channel, counted from 0, where a number stands there.
    pub fn bits_at(&self, i: usize) -> Option<u64>
        ensures { result ≡ bits_in (slice_get self.now.values i) }
    {
        match &self.values {
            Values::Listed(list) => bits_among(list, i),
            Values::Texts(texts) => texts.bits_at(i),
        }
    }

    /// The bytes of the text of a channel, counted from 0, where a text stands there. Among texts alone
    /// it goes past those before, so for all of them [`SampleView::values`] of its view is the way.
    pub fn text_at(&self, i: usize) -> Option<&[u8]>
        ensures { option_copied result ≡ text_in (slice_get self.now.values i) }
    {
        match &self.values {
            Values::Listed(list) => text_in_list(list, i),
            Values::Texts(texts) => text_among(texts.walk(), i),
        }
    }

    /// The same sample, borrowed. Nothing is copied.
    pub fn view(&self) -> SampleView<'_>
        ensures { result ≡ self.now }
    {
        SampleView::kept(self)
    }

    pub(crate) fn values(&self) -> ValueWalk<'_>
        ensures { result ≡ self.now.values }
    {
        match &self.values {
            Values::Listed(list) => ValueWalk::kept(list),
            Values::Texts(texts) => texts.walk(),
        }
    }

    // Whether it is kept as so many texts.
    pub(crate) fn has_shape(&self, shape: &Shape) -> bool
        ensures { IsTrue result → FitsShape shape.now self.now }
    {
        match &self.values {
            Values::Listed(_) => false,
            Values::Texts(texts) => texts.fit(shape) && stamp_fits(self.stamp),
        }
    }

    // The texts with the least widths, where it is kept as such.
    pub(crate) fn least_texts(&self) -> Option<&[u8]>
        ensures { IfSome result (λ bytes. bytes.now ≡ flat_map (least_value_text 0) self.now.values) }
    {
        match &self.values {
            Values::Listed(_) => None,
            Values::Texts(texts) => Some(texts.bytes()),
        }
    }
}
