//! What every command does on a dock: reads an input whole, says a line, says the line of a fault.
//!
//! Each call says what it read, or what was said, and that nothing else of the dock changed.
//! `specs/Places.antt` says which bytes an input has where several inputs have one name. All of it
//! is this project's own.
#![tactic(auto)]

mod fault;
mod input;
mod output;

pub use fault::InputFault;
pub use input::read_input;
pub use output::{say_fault, say_line, usage_line};
pub use rec_base::{Blob, Dock, Word};

#[cfg(test)]
mod tests;
