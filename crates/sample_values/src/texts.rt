//! Texts one behind the other, as they stand in a file.

ghost use Rattle.std.specs.Prelude.{◌≡◌, ◌+◌, ◌++◌, [], ◌∷◌, OnOk, OnErr, IfOk, IsTrue, length, map, slice_get};
ghost use Rattle.std.specs.List.{flat_map, AllByRecursion};
ghost use Rattle.xdf_model.specs.Varlen.{least_varlen};
ghost use Rattle.xdf_model.specs.Sample.{text, size_of, FitsValue, least_value_text};
ghost use Rattle.sample_values.specs.Texts.{texts_in, AreTexts};
ghost use Rattle.sample_values.specs.View.{bits_in, value_of, KeepsFront};

use crate::sample::Held;
use crate::size::size_of_format;
use crate::value::{ValueView, ValueWalk};
use rec_base::Memory;
use std::alloc::{AllocError, Global};
use std::marker::Model;
use xdf_lengths::{num_size, put_num};
use xdf_model::{Format, Shape};

// Appends a length with the least width, which is mostly 1. An `Err` may leave a part of it.
#[inline(always)]
#[tactic(auto, unfolding(xdf_model::specs::Varlen::least_varlen))]
fn append_length(len: usize, out: &mut Vec<u8>) -> Result<(), AllocError>
    ensures ok { OnOk result (out.new.items ≡ out.old.items ++ least_varlen len) }
    ensures kept { OnErr result (KeepsFront out.old.items out.new.items) }
{
    if len < 256 {
        out.push(1)?;
        out.push(len as u8)?;
        return Ok(());
    }
    put_num(len as u64, out)
}

// All memory is taken before anything is appended.
#[inline(always)]
fn append_parts(bytes: &[u8], out: &mut Vec<u8>) -> Result<(), AllocError>
    ensures ok { OnOk result (out.new.items ≡ out.old.items ++ least_value_text 0 (text bytes.now)) }
    ensures kept { OnErr result (KeepsFront out.old.items out.new.items) }
{
    let len = bytes.len();
    out.reserve(1 + num_size(len as u64) as usize + len)?;
    append_length(len, out)?;
    out.extend_from_slice(bytes)?;
    Ok(())
}

/// Appends a text behind its length in the least width. An `Err` leaves `out` as it was.
pub(crate) fn append_text(bytes: &[u8], out: &mut Vec<u8>) -> Result<(), AllocError>
    ensures ok { OnOk result (out.new.items ≡ out.old.items ++ least_value_text 0 (text bytes.now)) }
    ensures memory { OnErr result (out.new.items ≡ out.old.items) }
{
    let start = out.len();
    let put = append_parts(bytes, out);
    if put.is_err() {
        out.truncate(start);
        return Err(AllocError);
    }
    Ok(())
}

/// Texts in one vector, each behind its length in the least width. Contracts see the list of them.
#[derive(Debug, Drop)]
pub(crate) struct Texts {
    count: usize,
    bytes: Vec<u8>,
}

impl Model for Texts {
    ghost use Rattle.std.specs.Prelude.{List};
    ghost use Rattle.xdf_model.specs.Sample.{Value as SampleValue};
    ghost use Rattle.sample_values.specs.Texts.{texts_in, AreTexts};

    ghost Value = { List SampleValue };

    ghost view = { λ t. texts_in t.count t.bytes.items };

    ghost invariant = { λ t. AreTexts t.count t.bytes.items };
}

// One more than so many texts: each takes a byte at least, so there are no more than bytes.
fn one_more(count: usize, bytes: &[u8]) -> usize
    requires { AreTexts count bytes.now }
    ensures { result ≡ count + 1 }
{
    count + 1
}

// No number stands among texts.
fn no_number(count: usize, bytes: &[u8], i: usize) -> Option<u64>
    requires { AreTexts count bytes.now }
    ensures { result ≡ bits_in (slice_get (texts_in count bytes.now) i) }
{
    None
}

impl Texts {
    pub(crate) fn new(alloc: Global) -> Texts
        ensures { result ≡ [] }
    {
        Texts {
            count: 0,
            bytes: Vec::new(alloc),
        }
    }

    /// Appends a text. `Memory` leaves the texts as they were.
    pub(crate) fn push(&mut self, bytes: &[u8]) -> Result<(), Memory>
        ensures ok { OnOk result (self.new ≡ self.old ++ text bytes.now ∷ []) }
        ensures memory { OnErr result (self.new ≡ self.old) }
    {
        let count = one_more(self.count, &self.bytes);
        append_text(bytes, &mut self.bytes)?;
        self.count = count;
        Ok(())
    }

    /// Leaves no text, and keeps the memory.
    pub(crate) fn clear(&mut self)
        ensures { self.new ≡ [] }
    {
        self.count = 0;
        self.bytes.clear();
    }

    pub(crate) fn len(&self) -> usize
        ensures { result ≡ length self.now }
    {
        self.count
    }

    pub(crate) fn walk(&self) -> ValueWalk<'_>
        ensures { result ≡ self.now }
    {
        ValueWalk::raw(Format::Text, self.count, &self.bytes)
    }

    /// The texts as they stand in a file.
    pub(crate) fn bytes(&self) -> &[u8]
        ensures { result.now ≡ flat_map (least_value_text 0) self.now }
    {
        &self.bytes
    }

    /// The pattern of the number at a place: none, since a text stands at each.
    pub(crate) fn bits_at(&self, i: usize) -> Option<u64>
        ensures { result ≡ bits_in (slice_get self.now i) }
    {
        no_number(self.count, &self.bytes, i)
    }

    /// Whether a shape has texts, and so many.
    pub(crate) fn fit(&self, shape: &Shape) -> bool
        ensures count { IsTrue result → length self.now ≡ shape.now.count }
        ensures values { IsTrue result → AllByRecursion (FitsValue (size_of shape.now.format)) self.now }
    {
        size_of_format(shape.format) == 0 && self.count == shape.count as usize
    }

    /// The same texts in vectors of their own. `Memory` comes for want of memory alone.
    pub(crate) fn to_list(&self) -> Result<Vec<Held>, Memory>
        ensures { IfOk result (λ list. map value_of list.items ≡ self.now) }
    {
        let alloc = *self.bytes.allocator();
        let mut list = Vec::new(alloc);
        let mut rest = self.walk();
        while let Some(value) = rest.next() {
            match value {
                ValueView::Number(bits) => list.push(Held::Number(bits))?,
                ValueView::Text(bytes) => list.push(Held::Text(Vec::from_slice(alloc, bytes)?))?,
            }
        }
        Ok(list)
    }
}
