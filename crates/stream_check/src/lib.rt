//! Checks a file: what is to be noted of it, for people to read and for programs to compare.
//!
//! The notes and their lines are this project's own; `report_model` defines them. This crate promises
//! that exactly those lines are said, each once and in order, for whatever a reader gives, up to the
//! end of the reading; that where a line can't be said, or where there is no memory, no line behind it
//! is said; and that each of the two is told apart.
//!
//! The file is read once, front to back. What is kept is a record for each stream, so the memory
//! doesn't grow with the number of samples. A chunk costs a time that is linear in its bytes, and a
//! step for each stream that came before; in a ledger, a step for each row and stream.
#![tactic(auto)]

mod chunk;
mod file;
mod judge;
mod kept;
mod last;
mod next;
mod say;
mod survey;
mod table;

pub use file::{CheckEnd, check_file};

#[cfg(test)]
mod tests;
