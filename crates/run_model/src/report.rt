ghost use Rattle.std.specs.Prelude.{◌≡◌, ◌++◌, [], ◌∷◌, OnOk, OnErr, length, slice_get};
ghost use Rattle.std.specs.Option.{option_copied};

use inlet_model::FeedEnd;
use rec_base::Memory;
use std::alloc::Global;
use std::marker::Model;

/// What became of a feed. This project's own.
#[derive(Clone, Copy, Debug, PartialEq, Eq)]
pub struct FeedReport {
    /// The id of its stream.
    pub id: u32,
    /// How many samples were received.
    pub received: u64,
    /// How many of them are in the file.
    pub kept: u64,
    /// How many its ring dropped, which the ledger names.
    pub lost: u64,
    /// How it ended.
    pub end: FeedEnd,
}

/// What became of the feeds, in the order of their streams. Contracts see the list of it. This
/// project's own.
#[derive(Debug, Drop)]
pub struct ReportList {
    items: Vec<FeedReport>,
}

impl Model for ReportList {
    ghost use Rattle.std.specs.Prelude.{List};
    ghost use Rattle.run_model.specs.declared.report.FeedReport.{FeedReport};

    ghost Value = { List FeedReport };

    ghost view = { λ l. l.items.items };
}

impl ReportList {
    /// No reports. It takes no memory before the first one.
    pub fn new(alloc: Global) -> ReportList
        ensures { result ≡ [] }
    {
        ReportList {
            items: Vec::new(alloc),
        }
    }

    /// The reports of a vector, which are not copied.
    pub fn from_vec(items: Vec<FeedReport>) -> ReportList
        ensures { result ≡ items.items }
    {
        ReportList { items }
    }

    /// Appends a report. `Memory` comes for want of memory alone, and leaves the list as it was.
    pub fn push(&mut self, item: FeedReport) -> Result<(), Memory>
        ensures ok { OnOk result (self.new ≡ self.old ++ item ∷ []) }
        ensures memory { OnErr result (self.new ≡ self.old) }
    {
        self.items.push(item)?;
        Ok(())
    }

    /// How many reports there are.
    pub fn len(&self) -> usize
        ensures { result ≡ length self.now }
    {
        self.items.len()
    }

    /// The report at a place, counted from 0, where there is one.
    pub fn get(&self, i: usize) -> Option<&FeedReport>
        ensures { option_copied result ≡ slice_get self.now i }
    {
        self.items.get(i)
    }
}
