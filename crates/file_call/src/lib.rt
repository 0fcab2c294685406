//! The top call of the commands on files: `show`, `check`, `repair` and `drill`.
//!
//! [`file_main`] does what the words of the command line ask for, and answers the status of the
//! program. It promises for each command what was said and written, by the bytes of the file, and for
//! each status its cause; status 2 comes exactly where the words ask for nothing. It returns always.
//! Each command has a module with two steps: the first does the work and answers how it ended, a
//! variant for each cause; the second says the line of a fault and answers the status. The words, the
//! lines and the statuses are this project's own; what a file is, is of XDF 1.0.
#![tactic(auto)]

mod check;
mod drill;
mod fault;
mod file;
mod noted;
mod open;
mod recorded;
mod repair;
mod show;

pub use file::file_main;
pub use rec_base::{Dock, Word};

#[cfg(test)]
mod tests;
