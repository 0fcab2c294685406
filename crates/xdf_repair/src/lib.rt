//! Writes what is whole in a cut or damaged XDF file into another one.
//!
//! `repair_front` writes the magic and the whole chunks at the front of a file, byte for byte as they
//! stand there, up to the first place that holds none; then it reads the file to its end to count
//! what it leaves out. The crate promises that the chunks it writes are those at the front of the
//! file's bytes, that it writes no other byte, and that its three numbers are right. No chunk is
//! encoded again, and no value is made of one: the reader goes past it. A small chunk is copied once,
//! to those that wait for one write; a large one goes from where the reader holds it into the sink.
//!
//! `repair_search` goes on behind damage. It writes the magic and the whole chunks of all parts of the
//! file, byte for byte: where no whole chunk stands, it leaves out and counts the bytes up to the end of
//! the next boundary's bytes, or up to the file's end where there are none. The crate promises of it
//! that the chunks it writes are those of the file's parts, that it writes no other byte, and that its
//! three numbers are right.
#![tactic(auto)]

mod copied;
mod front;
mod repaired;
mod search;
mod turn;
mod waiting;

pub use front::repair_front;
pub use repaired::Repaired;
pub use search::repair_search;

#[cfg(test)]
mod tests;
