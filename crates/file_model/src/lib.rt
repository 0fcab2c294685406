//! What a file holds for one who reads it from its front, apart from any code.
//!
//! The definitions stand in `specs/`: the chunks that lie whole within the first bytes of a file
//! (`Cut`), the answers of one who reads a file up to a limit (`Readings`), and the rules by which
//! it is read from left to right (`Reader`). The chunks are those of XDF 1.0; the rest is this
//! project's own. `file_laws` ties them together. This crate has the types of an answer and of an
//! end, and does nothing.
#![tactic(auto)]

mod end;
mod next;

pub use end::FileEnd;
pub use next::Next;
