//! The top call of `record`: from the words of the command line to the file and its lines.
//!
//! [`record_main`] works in a fixed order, and the first refusal decides: the words; the plan's text
//! and the plan; the header documents; the cost of the rings; the feeds;
//! the memory of the run; the output; the run; the lines. It promises that with status 0 or 1 the file
//! is the recording of the feeds that the plan names, each taken from its place among the inputs of one
//! name, and for every other status its cause, what was written, and the line that was said. The words,
//! the plan, the order and the lines are this project's own; the file is XDF 1.0.
#![tactic(auto)]

mod ask;
mod cost;
mod document;
mod end;
mod fault;
mod feed;
mod file;
mod lines;
mod plan;
mod ready;
mod record;
mod run;
mod say;
mod words;

pub use rec_base::{Dock, Word};
pub use record::record_main;

#[cfg(test)]
mod fault_tests;
#[cfg(test)]
mod live_tests;
#[cfg(test)]
mod peer_tests;
#[cfg(test)]
mod size_tests;
#[cfg(test)]
mod test_dock;
#[cfg(test)]
mod tests;
