//! A law of the drill's feeds, over the definitions of `drill_feeds` and `inlet_model` alone: what an inlet
//! gets of such a feed is just the samples that its rule makes, and then the end of a whole feed. It is the
//! contract of a function that does nothing; the lemmas behind it stand in `proofs/`.
#![tactic(auto)]

mod laws;

pub use laws::drill_feed_is_its_samples;
