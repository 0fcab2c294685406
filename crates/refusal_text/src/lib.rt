//! A sentence for people, of how a command ended: of which file, and why. Standard output has lines and
//! statuses for scripts; this is beside them, in no fixed form, and changes nothing. All of it is this
//! project's own.
#![tactic(auto)]

mod causes;
mod commands;
mod numbers;
mod places;
mod plan;
mod refusal;
mod sentence;
mod shown;
mod usage;

pub use numbers::refused_line;
pub use refusal::{Cause, Deed, Refusal, Trouble};
pub use sentence::refusal_text;

#[cfg(test)]
mod tests;
