//! A recording by threads: feeds in, each read in a thread of its own, one file out.
//!
//! Each feed has a thread, which owns its reader and the end of a lane that puts samples; the calling
//! thread owns the other ends, the sink and the writer. Nothing else is shared but a halt word, and a
//! count of the inlets that have ended, which is a hint. The joins bring both ends of each lane into the
//! calling thread again, which then writes what is left. So the file is the recording of exactly the
//! samples of its feeds without those that its ledger names, and these are the ones which the rings
//! dropped, however the threads ran.
//!
//! Where a write fails, the calling thread raises the halt word, at which each inlet looks before each
//! sample, and joins them. What stands in the sink is then part of a recording of these feeds.
#![tactic(auto)]

mod all;
mod conclude;
mod feeds;
mod lane;
mod rounds;
mod run;
mod settle;
mod started;
#[cfg(test)]
mod tests;
mod work;

pub use feeds::FeedThreads;
pub use work::{InletDone, inlet_work};
