//! The ledger of positions that a full ring dropped: which positions are missing before one that
//! comes, the sample that says so in a file, that sample read again, and a count of what was kept
//! and lost.
//!
//! It promises that a row names exactly the positions between two that came, and that a sample is
//! read as a row exactly where it is the one of a row in range. The ledger is this project's own.
#![tactic(auto)]

mod expected;
mod row;
mod tally;

pub use expected::Expected;
pub use recording_model::Row;
pub use row::{read_row, read_row_view, row_sample};
pub use tally::Tally;

#[cfg(test)]
mod tests;
