//! A law of an outlet's reply, over the definitions of `reply_model` alone.
//!
//! A reply that isn't judged yet has few bytes. So a reader that has places for so many takes no
//! memory before the reply is judged. The law is the contract of a function that does nothing; the
//! lemmas behind it stand in `proofs/`, where the crates above cite them.
#![tactic(auto)]

mod laws;

pub use laws::unjudged_reply_is_short;
