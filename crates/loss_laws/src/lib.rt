//! Laws of what a recording says of a feed, over the definitions of `loss_model` alone.
//!
//! The file of a recording holds of each feed the samples without those that its ledger names, and
//! the ledger names just the positions that the batches left out. A recording that was stopped
//! anywhere, and cut anywhere again, still holds the first samples of each feed without those that
//! its ledger names. What a ring drops are the positions that it didn't give. Each law is the contract
//! of a function that does nothing. The lemmas behind them stand in `proofs/`, where the crates above
//! cite them.
#![tactic(auto)]

mod laws;

pub use laws::{
    a_beginning_of_a_partial_recording_is_one, a_beginning_of_a_recording_is_partial,
    a_ring_drops_what_it_does_not_give, a_ring_gives_in_order, a_ring_loses_only_what_it_drops,
    recording_is_of_its_feeds,
};
