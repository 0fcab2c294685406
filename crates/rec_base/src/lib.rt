//! The outside as this project sees it: sources that bytes are read from, sinks that they are written
//! to, lines that are said, and the dock that opens and creates them. Each is a trait that counts its
//! own failures, so that every answer `Failed` has a cause that a caller can name, and that may tell
//! or keep to itself which bytes it has. `MemSource` and `MemDock` are these things in memory: they do
//! exactly what their contracts say, and fail exactly at the calls that they are told. What runs on
//! them runs on the real things by the same clauses. `NeverFails` and `CountLines` can't fail at all,
//! and `MemSink` fails for want of memory alone. `read_document` reads a bounded input to its end.
#![tactic(auto)]

mod ask_log;
mod asked;
mod blob;
mod buffer;
mod calls;
mod copy;
mod count_lines;
mod dock;
mod document;
mod failed;
mod lines;
mod mem_dock;
mod mem_sink;
mod mem_source;
mod memory;
mod name;
mod never_fails;
mod piece;
mod sink;
mod source;
mod take_first;
#[cfg(test)]
mod tests;
mod word;

pub use asked::Asked;
pub use blob::Blob;
pub use count_lines::CountLines;
pub use dock::Dock;
pub use document::{DocFault, read_document};
pub use failed::Failed;
pub use lines::Lines;
pub use mem_dock::MemDock;
pub use mem_sink::MemSink;
pub use mem_source::MemSource;
pub use memory::Memory;
pub use name::Name;
pub use never_fails::NeverFails;
pub use piece::Piece;
pub use sink::Sink;
pub use source::Source;
pub use word::Word;
