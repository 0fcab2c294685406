//! What the lines of a plan say together.

ghost use Rattle.std.specs.Prelude.{◌≡◌, ◌==◌, []};
ghost use Rattle.std.specs.List.{list_any};
ghost use Rattle.plan_words.specs.Drafts.{draft_of, feed_names, refused_beside, with_line, Adds, refused_with, with_text, finished};

use crate::fault::LineFault;
use crate::line::{PlanLine, read_line};
use crate::text::read_text;
use crate::words::LineWords;
use plan_model::{FeedFrom, FeedLine, FeedLines, Mode, Plan, PlanWhy};
use rec_base::Word;
use std::alloc::Global;

const MOST_FEEDS: usize = 64;

/// What the lines so far say.
#[derive(Drop)]
pub(crate) struct Draft {
    pub(crate) ring: Option<u64>,
    pub(crate) batch: Option<u64>,
    pub(crate) mode: Option<Mode>,
    pub(crate) feeds: FeedLines,
}

// Whether one of the feeds has this id.
fn has_id(feeds: &FeedLines, id: u32) -> bool
    ensures { result ≡ list_any (λ feed. feed.id == id) feeds.now }
{
    for i in 0..feeds.len() {
        let Some(feed) = feeds.get(i) else {
            return false;
        };
        if feed.id == id {
            return true;
        }
    }
    false
}

// Whether a path of the feed is the output's name.
fn names_output(feed: &FeedLine, out: &Word) -> bool
    ensures { result ≡ feed_names out.now feed.now }
{
    if feed.doc.bytes() == out.bytes() {
        return true;
    }
    match &feed.from {
        FeedFrom::File(path) => path.bytes() == out.bytes(),
        FeedFrom::Tcp { .. } => false,
    }
}

impl Draft {
    #[tactic(auto, unfolding(crate::specs::Drafts::draft_of))]
    pub(crate) fn new(alloc: Global) -> Draft
        ensures { result ≡ draft_of [] }
    {
        Draft {
            ring: None,
            batch: None,
            mode: None,
            feeds: FeedLines::new(alloc),
        }
    }

    fn add_feed(&mut self, out: &Word, feed: FeedLine) -> Result<(), LineFault>
        ensures { Adds result (refused_beside out.now self.old (PlanLine.Feed feed)) self.new (with_line self.old (PlanLine.Feed feed)) }
    {
        if has_id(&self.feeds, feed.id) {
            return Err(LineFault::Refused(PlanWhy::Repeated));
        }
        if self.feeds.len() >= MOST_FEEDS {
            return Err(LineFault::Refused(PlanWhy::TooManyFeeds));
        }
        if names_output(&feed, out) {
            return Err(LineFault::Refused(PlanWhy::OutputNamed));
        }
        self.feeds.push(feed)?;
        Ok(())
    }

    // Adds what a line says.
    fn add(&mut self, out: &Word, line: PlanLine) -> Result<(), LineFault>
        ensures { Adds result (refused_beside out.now self.old line) self.new (with_line self.old line) }
    {
        match line {
            PlanLine::Ring(n) => {
                if self.ring.is_some() {
                    return Err(LineFault::Refused(PlanWhy::Repeated));
                }
                self.ring = Some(n);
            }
            PlanLine::Batch(n) => {
                if self.batch.is_some() {
                    return Err(LineFault::Refused(PlanWhy::Repeated));
                }
                self.batch = Some(n);
            }
            PlanLine::Mode(mode) => {
                if self.mode.is_some() {
                    return Err(LineFault::Refused(PlanWhy::Repeated));
                }
                self.mode = Some(mode);
            }
            PlanLine::Feed(feed) => return self.add_feed(out, feed),
        }
        Ok(())
    }

    /// Adds a line that says something, or tells the first reason against it.
    #[tactic(auto, unfolding(crate::specs::Drafts::refused_with, crate::specs::Drafts::with_text))]
    pub(crate) fn take_line(
        &mut self,
        alloc: Global,
        out: &Word,
        line: &[u8],
    ) -> Result<(), LineFault>
        ensures { Adds result (refused_with out.now self.old line.now) self.new (with_text self.old line.now) }
    {
        let Some(text) = read_text(line) else {
            return Err(LineFault::Refused(PlanWhy::NotText));
        };
        let words = LineWords::split(alloc, text)?;
        let said = read_line(alloc, &words)?;
        self.add(out, said)
    }

    /// The plan, where nothing more is said.
    pub(crate) fn finish(self) -> Plan
        ensures { result ≡ finished self }
    {
        Plan {
            ring: self.ring.unwrap_or(4096),
            batch: self.batch.unwrap_or(512),
            mode: self.mode.unwrap_or(Mode::Threads),
            feeds: self.feeds,
        }
    }
}
