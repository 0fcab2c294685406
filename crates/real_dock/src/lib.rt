//! The real outside: files, peers by TCP and standard output, as a dock.
//!
//! [`RealDock`] is proved of every [`System`] and every place for its lines, by what their files, peers
//! and writers tell of their bytes: a source gives just the bytes that its file gives, the output's file
//! gets just what is written, and standard output just the lines that were said, some of which wait until
//! [`Settle::flush`]. Those of the operating system tell nothing, so of them it is what the bodies do. An
//! output is never emptied, never one of the inputs, and never stands under the number of a standard
//! stream. Beside its contracts a dock keeps for people what failed first, and shows on a terminal that
//! it lives. All of it is this project's own.
#![tactic(auto)]

mod identity;
mod notes;
mod output;
mod peer;
mod pulse;
mod real_dock;
mod real_source;
mod retry;
mod said;
mod settle;
mod streams;
mod system;

pub use pulse::Pulse;
pub use real_dock::RealDock;
pub use real_source::RealSource;
pub use settle::Settle;
pub use system::System;

#[cfg(test)]
mod tests;
