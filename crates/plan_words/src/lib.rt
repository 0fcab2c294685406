//! The plan file and the words of the command line, read as `plan_model` defines them. All of it is
//! this project's own.
//!
//! `read_plan` promises exactly the plan of a text, or the first line that is refused with its
//! reason; `read_words` exactly the command of some words, or the first usage that they break, and
//! takes no memory. Each byte of a plan is read at most a fixed number of times, and what a plan
//! names is copied once.
#![tactic(auto)]

mod command;
mod draft;
mod fault;
mod line;
mod number;
mod plan;
mod reason;
mod text;
mod words;

pub use command::{Command, Usage, read_words};
pub use plan::{PlanError, read_plan};
pub use plan_model::{FeedFrom, FeedLine, FeedLines, Mode, Plan, PlanWhy, Top};
pub use reason::why_number;
pub use rec_base::{Memory, Word};

#[cfg(test)]
mod tests;
