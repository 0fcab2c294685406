ghost use Rattle.std.specs.Prelude.{◌≡◌, ◌-◌, ◌++◌, [], ◌∷◌, OnOk, OnErr, None, IfSome, length, slice_get, take, ◌↔◌};
ghost use Rattle.std.specs.Option.{option_copied};

use rec_base::Memory;
use std::alloc::Global;
use std::marker::Model;

/// The sources of the feeds, in the order of their streams. Contracts see the list of them. This
/// project's own.
#[derive(Debug, Drop)]
pub struct SourceList<S> {
    items: Vec<S>,
}

impl<S> Model for SourceList<S> {
    ghost use Rattle.std.specs.Prelude.{List};

    ghost Value = { List S };

    ghost view = { λ l. l.items.items };
}

impl<S> SourceList<S> {
    /// No sources. It takes no memory before the first one.
    pub fn new(alloc: Global) -> SourceList<S>
        ensures { result ≡ [] }
    {
        SourceList {
            items: Vec::new(alloc),
        }
    }

    /// The sources of a vector, which are moved.
    pub fn from_vec(items: Vec<S>) -> SourceList<S>
        ensures { result ≡ items.items }
    {
        SourceList { items }
    }

    /// How many sources there are.
    pub fn len(&self) -> usize
        ensures { result ≡ length self.now }
    {
        self.items.len()
    }

    /// The source at a place, counted from 0, where there is one.
    pub fn get(&self, i: usize) -> Option<&S>
        ensures { option_copied result ≡ slice_get self.now i }
    {
        self.items.get(i)
    }

    /// Takes the last source out; `None` comes exactly where there is none.
    pub fn pop(&mut self) -> Option<S>
        ensures last { IfSome result (λ source. self.old ≡ self.new ++ source ∷ []) }
        ensures none { result ≡ None ↔ self.old ≡ [] }
        ensures kept { result ≡ None → self.new ≡ self.old }
    {
        self.items.pop()
    }
}

impl<S: Drop> SourceList<S> {
    /// Appends a source. `Memory` comes for want of memory alone, and leaves the list as it was; the
    /// source is given up then.
    pub fn push(&mut self, item: S) -> Result<(), Memory>
        ensures ok { OnOk result (self.new ≡ self.old ++ item ∷ []) }
        ensures memory { OnErr result (self.new ≡ self.old) }
    {
        self.items.push(item)?;
        Ok(())
    }
}
