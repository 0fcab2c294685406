//! What a recording made of its feeds, apart from how it was made.
//!
//! The definitions stand in `specs/`, and are one for both modes of a recording: what a feed gave,
//! what its ring dropped, and what the file holds of it (`Run`); which samples a writer takes
//! (`Fitting`, `Putting`); and how a run went (`Outcomes`). Which batches a run may have is all that
//! the mode decides. The lemmas that recording by turns and by threads have in common stand in
//! `proofs/`. Here is also the plain data that the definitions and the code share: feeds, reports,
//! sources and outcomes, and the lists of them.
#![tactic(auto)]

mod feed;
mod outcome;
mod report;
mod sources;

pub use feed::FeedSource;
pub use inlet_model::FeedEnd;
pub use outcome::Outcome;
pub use recording_model::StreamDoc;
pub use report::{FeedReport, ReportList};
pub use sources::SourceList;
