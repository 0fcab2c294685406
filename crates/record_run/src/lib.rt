//! A recording: feeds in, one file out.
//!
//! A [`Recorder`] is made of the streams of a recording and of the sources of their feeds, and takes
//! all memory of the run that doesn't depend on texts; a run whose feeds are all of numbers is never
//! stopped for want of it. `run_turns` reads the feeds by turns on one thread, through a ring each, and
//! writes the file. `run_threads` reads each in a thread of its own. Either promises, once it is done,
//! that the file is the recording of exactly the samples of its feeds without those that its ledger
//! names, and that these are the ones which the rings dropped. By turns the file is a function of the
//! feeds. Where a write failed, what the sink holds is part of a recording of these feeds.
//!
//! [`inlet_work`] is what the thread of a feed does, for who reads a feed into a lane by itself.
#![tactic(auto)]

mod cost;
mod inlet;
mod passes;
mod recorder;
mod ring;
#[cfg(test)]
mod tests;
mod thread_recorder;
mod turn_recorder;
mod turns;

pub use cost::ring_cost;
pub use recorder::Recorder;
pub use run_model::{FeedEnd, FeedReport, FeedSource, Outcome, ReportList, SourceList, StreamDoc};
pub use thread_run::{InletDone, inlet_work};
