//! What a plan and the words of the command line mean, apart from any code. All of it is this
//! project's own.
//!
//! The definitions stand in `specs/`: the first row of a table (`Table`), the lines of a text and
//! the words of a line (`Text`), the table by which a line of a plan is refused (`PlanLine`), the
//! plan of a text (`Plan`), what holds of every plan (`Sound`), and the command of some words
//! (`Commands`). Here are also the types that the definitions and the code share. Beside the list of
//! feeds this crate does nothing.
#![tactic(auto)]

mod list;
mod plan;
mod top;
mod why;

pub use list::FeedLines;
pub use plan::{FeedFrom, FeedLine, Mode, Plan};
pub use top::Top;
pub use why::PlanWhy;

#[cfg(test)]
mod tests;
