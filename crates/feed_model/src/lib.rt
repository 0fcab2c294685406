//! What the bytes of an LSL stream feed mean, apart from any code (LSL `streamfeed`, data protocol
//! 1.10): how a sample stands behind the outlet's reply.
//!
//! The definitions stand in `specs/`: a relation that says what a text of a sample is (`Feed`), and
//! a reader that tells from left to right what stands at the front of some bytes (`FeedReading`).
//! `feed_laws` ties them. Here is also the plain data that the definitions and the code share. This
//! crate does nothing.
#![tactic(auto)]

/// The order in which a feed sends the bytes of its numbers, as the outlet's reply tells it
/// (`Byte-Order`, LSL data protocol 1.10).
#[derive(Clone, Copy, Debug, PartialEq, Eq)]
pub enum Order {
    /// `1234`, the lowest byte first.
    Little,
    /// `4321`, the highest byte first.
    Big,
}
