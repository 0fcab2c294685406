//! What the file of a recording is, apart from any code.
//!
//! The definitions stand in `specs/`: the ledger of lost positions (`Ledger`), how the batches of
//! a recording are divided into groups (`Batch`), how groups, rows and boundaries are laid out
//! (`Layout`), and the whole file (`Recording`). All of it is this project's own; the chunks that
//! it is made of are XDF 1.0's. Here is also the plain data that the definitions and the code
//! share. This crate does nothing.
#![tactic(auto)]

mod row;
mod stream;

pub use row::Row;
pub use stream::StreamDoc;
