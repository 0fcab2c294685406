//! Which samples a recording by turns keeps, and in which batches, apart from any code.
//!
//! The definitions stand in `specs/` (`Turns`) and speak of positions alone: there is no ring in
//! them, and no loop. They make the batches whose file `recording_model` says. All of it is this
//! project's own. This crate does nothing.
#![tactic(auto)]
