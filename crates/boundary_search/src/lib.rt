//! The whole chunks of a damaged file, before the damage and behind it.
//!
//! A boundary's sixteen bytes stand in a file so that a reader finds its place again (XDF 1.0,
//! "Boundary chunk"). `find_boundary` finds them, and `Salvager` gives the parts of a file one by one:
//! a chunk where a whole one stands, and else a range that is skipped, up to the end of the next
//! boundary's bytes. It is a front of `file_reader`, which judges the chunks and holds the bytes; where
//! that one stops, this one goes on.
//!
//! What the parts of a file are, the definitions in `specs/Parts` say, and the laws say that each file
//! has one list of them, and which it is where a file was damaged between two chunks. The crate promises
//! that a `Salvager` gives just these, in whatever pieces the bytes come.
#![tactic(auto)]

mod find;
mod follow;
mod laws;
mod salvager;
mod search;
mod step;

pub use file_reader::FileFault;
pub use find::find_boundary;
pub use laws::{
    a_file_has_salvage_parts, counted_parts_are_determined, salvage_parts_are_determined,
    search_goes_over_the_damage,
};
pub use salvager::Salvager;
pub use step::{SalvageEnd, SalvageStep, Salvaged};

#[cfg(test)]
mod tests;
