//! The request for an outlet's feed, and what the outlet answers (LSL `streamfeed`, data protocol
//! 1.10).
//!
//! The reply is a status line and header lines, and ends with an empty line. This crate promises
//! that what it reads is the reply that `reply_model` defines, or the first refusal with its place,
//! or that the bytes are no whole reply yet. More bytes change nothing but the last. And it writes
//! the request, exactly the text that is defined.
//!
//! Each byte of a reply is read at most a fixed number of times. Nothing is copied, and reading takes no
//! memory.
#![tactic(auto)]

mod header;
mod laws;
mod lines;
mod reason;
mod reply;
mod request;
mod scan;
mod status;

pub use feed_model::Order;
pub use laws::{more_bytes_change_nothing, more_bytes_keep_a_scan};
pub use reason::why_number;
pub use rec_base::Memory;
pub use reply::read_reply;
pub use reply_model::{Refusal, Reply, ReplyStep, ReplyWhy};
pub use request::request_text;
pub use scan::ReplyScan;
pub use xdf_model::Shape;

#[cfg(test)]
mod tests;
