//! What a reader gives of some bytes, and what it will still give, whatever the pieces in which the
//! bytes come, apart from any code. This project's own.
//!
//! The definitions stand in `specs/`: what a reader of a source will still answer, for whatever bytes
//! follow (`Outlook`), the rules by which bytes are read from left to right (`Rules`), and a reader as
//! it stands between two calls (`Reading`). Feeds and files are read by such rules. This crate does
//! nothing.
#![tactic(auto)]
