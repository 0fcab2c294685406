//! What a request for a feed and an outlet's reply to it mean, apart from any code (LSL
//! `streamfeed`, data protocol 1.10).
//!
//! The definitions stand in `specs/`: the lines of some bytes (`Lines`), what a status line and a
//! header line say (`Header`), the reply or the first refusal (`Reply`), and the text of the request
//! (`Request`). Here is also the plain data that the definitions and the code share. This crate does
//! nothing.
#![tactic(auto)]

use feed_model::Order;

/// What an outlet agreed to.
#[derive(Clone, Copy, Debug, PartialEq, Eq)]
pub struct Reply {
    /// The order of the feed's numbers.
    pub order: Order,
}

/// Why a reply is refused. The reasons are this project's own, and are numbered from 1 in this
/// order.
#[derive(Clone, Copy, Debug, PartialEq, Eq)]
pub enum ReplyWhy {
    /// The first line is no status line.
    Malformed,
    /// The protocol's version is 2.00 or above.
    VersionTooNew,
    /// The outlet answered 404: there is no such stream.
    NotFound,
    /// The outlet answered another code of 400 or above.
    PeerError(u32),
    /// The outlet answered a code of 300 to 399.
    Redirect(u32),
    /// The stream has another uid than the one asked for.
    WrongUid,
    /// The byte order is neither `1234` nor `4321`.
    BadOrder,
    /// No byte order is told.
    NoOrder,
    /// Subnormal numbers are suppressed.
    Subnormals,
    /// The data protocol isn't 1.10.
    OldProtocol,
    /// A line is longer than 4096 bytes.
    LineTooLong,
    /// There are more than 64 lines.
    TooManyLines,
}

/// A refusal, and the place that it speaks of.
#[derive(Clone, Copy, Debug, PartialEq, Eq)]
pub struct Refusal {
    pub at: usize,
    pub why: ReplyWhy,
}

/// What some bytes are as the front of a reply.
#[derive(Clone, Copy, Debug, PartialEq, Eq)]
pub enum ReplyStep {
    /// A whole reply, and how many bytes it takes with its empty line.
    Done { reply: Reply, used: usize },
    /// No refusal so far, and no empty line.
    More,
    /// The first reason to refuse it, and the byte that it speaks of.
    Refused { at: usize, why: ReplyWhy },
}
