ghost use Rattle.std.specs.Prelude.{◌≡◌, ◌++◌, [], ◌∷◌, OnOk, OnErr, length, slice_get};
ghost use Rattle.std.specs.Option.{option_copied};

use crate::FeedLine;
use rec_base::Memory;
use std::alloc::Global;
use std::marker::Model;

/// The feeds of a plan, in order. Contracts see the list of them. This project's own.
#[derive(Debug, Drop)]
pub struct FeedLines {
    items: Vec<FeedLine>,
}

impl Model for FeedLines {
    ghost use Rattle.std.specs.Prelude.{List};
    ghost use Rattle.plan_model.specs.declared.plan.FeedLine.{FeedLine};

    ghost Value = { List FeedLine };

    ghost view = { λ l. l.items.items };
}

impl FeedLines {
    /// No feeds. It takes no memory before the first one.
    pub fn new(alloc: Global) -> FeedLines
        ensures { result ≡ [] }
    {
        FeedLines {
            items: Vec::new(alloc),
        }
    }

    /// Appends a feed, which is moved. `Memory` comes for want of memory alone, and leaves the list
    /// as it was; the feed is then gone.
    pub fn push(&mut self, item: FeedLine) -> Result<(), Memory>
        ensures ok { OnOk result (self.new ≡ self.old ++ item ∷ []) }
        ensures memory { OnErr result (self.new ≡ self.old) }
    {
        self.items.push(item)?;
        Ok(())
    }

    /// How many feeds there are.
    pub fn len(&self) -> usize
        ensures { result ≡ length self.now }
    {
        self.items.len()
    }

    /// The feed at a place, counted from 0, where there is one.
    pub fn get(&self, i: usize) -> Option<&FeedLine>
        ensures { option_copied result ≡ slice_get self.now i }
    {
        self.items.get(i)
    }
}
