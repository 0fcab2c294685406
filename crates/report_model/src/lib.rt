//! What is said of a file, apart from any code.
//!
//! The definitions stand in `specs/`: the lines of a chunk (`Lines`), the chunks that stand at the
//! front of a file with their lines (`Shown`), which rows of a ledger count (`GoodRows`), what is to
//! be noted of a file (`Notes`), and the lines of a check (`Check`). All of it is this project's own;
//! the chunks are XDF 1.0's. Here is also the note that the definitions and the code share. This
//! crate does nothing.
#![tactic(auto)]

mod note;

pub use note::Note;
