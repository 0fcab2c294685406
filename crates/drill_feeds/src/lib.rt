//! The three feeds of the drill, made by a fixed rule, with their header documents.
//!
//! A drill records feeds that nobody has to capture, and whose every byte is known: `specs/` says what
//! each sample is, and `drill_feed` makes just these bytes. Each document has the shape of its feed's
//! samples. The feeds are this project's own; what a feed is, is of the LSL data protocol 1.10.
#![tactic(auto)]

mod document;
mod feed;
mod put;
mod rule;

pub use document::drill_doc;
pub use feed::drill_feed;

#[cfg(test)]
mod tests;
