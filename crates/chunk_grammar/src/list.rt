ghost use Rattle.std.specs.Prelude.{◌≡◌, ◌++◌, [], ◌∷◌, None, OnOk, OnErr, false, length, option_to_list, slice_get};
ghost use Rattle.std.specs.List.{list_any};
ghost use Rattle.sample_values.specs.View.{is_text};
ghost use Rattle.chunk_grammar.specs.Front.{front_of};

use rec_base::Memory;
use sample_values::{RawSamples, RawWalk, Sample, SampleView};
use std::alloc::Global;
use std::marker::Model;

/// The samples of a chunk, in order (XDF 1.0, "Samples chunk"). Whether they have the shape of their
/// stream isn't known here.
///
/// Samples that were read may stand at the front as their bytes in a file; those that are pushed
/// stand behind them. Contracts see one list.
#[derive(Debug, Drop)]
pub struct SampleList {
    front: Option<RawSamples>,
    items: Vec<Sample>,
}

impl Model for SampleList {
    ghost use Rattle.std.specs.Prelude.{List, ◌++◌};
    ghost use Rattle.xdf_model.specs.Sample.{Sample as SampleValue};

    ghost Value = { List SampleValue };

    ghost use Rattle.chunk_grammar.specs.Front.{front_of};

    ghost view = { λ l. front_of l.front ++ l.items.items };
}

// The sample at a place of those that are still to come.
fn nth<'a>(samples: SampleWalk<'a>, i: usize) -> Option<SampleView<'a>>
    ensures { result ≡ slice_get samples.entry i }
{
    let mut rest = samples;
    for _ in 0..i {
        if rest.next().is_none() {
            return None;
        }
    }
    rest.next()
}

impl SampleList {
    /// No samples. It takes no memory before the first one.
    pub fn new(alloc: Global) -> SampleList
        ensures { result ≡ [] }
    {
        SampleList {
            front: None,
            items: Vec::new(alloc),
        }
    }

    /// Samples that stand as their bytes. They are moved, and no memory is taken.
    pub fn from_raw(alloc: Global, raw: RawSamples) -> SampleList
        ensures { result ≡ raw }
    {
        SampleList {
            front: Some(raw),
            items: Vec::new(alloc),
        }
    }

    /// Appends a sample, which is moved. `Memory` comes for want of memory alone, and leaves the list
    /// as it was; the sample is then gone.
    pub fn push(&mut self, item: Sample) -> Result<(), Memory>
        ensures ok { OnOk result (self.new ≡ self.old ++ item ∷ []) }
        ensures memory { OnErr result (self.new ≡ self.old) }
    {
        self.items.push(item)?;
        Ok(())
    }

    /// How many samples there are.
    pub fn len(&self) -> usize
        ensures { result ≡ length self.now }
    {
        match &self.front {
            Some(raw) => raw.len() + self.items.len(),
            None => self.items.len(),
        }
    }

    /// The sample at a place, counted from 0, where there is one. It is borrowed, and nothing is
    /// copied. Where samples stand as bytes it goes past those before, so for all of them
    /// [`walk`](SampleList::walk) is the way.
    pub fn get(&self, i: usize) -> Option<SampleView<'_>>
        ensures { result ≡ slice_get self.now i }
    {
        match &self.front {
            Some(_) => nth(self.walk(), i),
            None => match self.items.get(i) {
                Some(sample) => Some(sample.view()),
                None => None,
            },
        }
    }

    /// The samples in order. Nothing is copied, and no memory is taken.
    pub fn walk(&self) -> SampleWalk<'_>
        ensures { result ≡ self.now }
    {
        let front = match &self.front {
            Some(raw) => Some(raw.walk()),
            None => None,
        };
        SampleWalk {
            front,
            items: &self.items,
        }
    }

    /// Whether there may be a text among the values; no value is looked at. Of samples that stand as
    /// bytes the format tells it, and for others the answer is yes.
    pub fn has_texts(&self) -> bool
        ensures { result ≡ false → list_any (λ s. list_any is_text s.values) self.now ≡ false }
    {
        match &self.front {
            Some(raw) => raw.has_texts() || !self.items.is_empty(),
            None => !self.items.is_empty(),
        }
    }
}

/// The samples of a list that are still to come. Contracts see the list of them.
#[derive(Debug, Drop)]
pub struct SampleWalk<'a> {
    front: Option<RawWalk<'a>>,
    items: &'a [Sample],
}

impl<'a> Model for SampleWalk<'a> {
    ghost use Rattle.std.specs.Prelude.{List, ◌++◌};
    ghost use Rattle.xdf_model.specs.Sample.{Sample as SampleValue};

    ghost Value = { List SampleValue };

    ghost use Rattle.chunk_grammar.specs.Front.{front_of};

    ghost view = { λ w. front_of w.front ++ w.items.now };
}

// The next of those that were pushed.
fn next_item<'a>(items: &mut &'a [Sample]) -> Option<SampleView<'a>>
    ensures gives { items.old.now ≡ option_to_list result ++ items.new.now }
    ensures end { result ≡ None → items.old.now ≡ [] }
{
    match *items {
        [] => None,
        [first, rest @ ..] => {
            *items = rest;
            Some(first.view())
        }
    }
}

// The next of those that stand as bytes.
#[inline(always)]
fn next_raw<'a>(front: &mut Option<RawWalk<'a>>) -> Option<SampleView<'a>>
    ensures gives { front_of front.old ≡ option_to_list result ++ front_of front.new }
    ensures end { result ≡ None → front_of front.old ≡ [] }
{
    match front {
        Some(walk) => walk.next(),
        None => None,
    }
}

impl<'a> SampleWalk<'a> {
    /// The next sample, or `None` where none is left.
    #[inline(always)]
    pub fn next(&mut self) -> Option<SampleView<'a>>
        ensures gives { self.old ≡ option_to_list result ++ self.new }
        ensures end { result ≡ None → self.old ≡ [] }
    {
        match next_raw(&mut self.front) {
            Some(view) => Some(view),
            None => next_item(&mut self.items),
        }
    }
}
