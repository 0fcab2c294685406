//! Laws of what an inlet gets of a feed, over the definitions of `inlet_model` alone.
//!
//! What is got is the feed as a reader of the format would say it (`FeedOf`): a refused or a cut reply,
//! or the samples that stand behind it and the reason why no further one is given. An end by
//! bytes that no further byte changes is final, and each sample fits the shape. Each law is the
//! contract of a function that does nothing. The lemmas behind them stand in `proofs/`.
#![tactic(auto)]

mod laws;

pub use laws::{fault_is_final, feed_is_spelled, samples_fit};
