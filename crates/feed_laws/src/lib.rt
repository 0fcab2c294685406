//! Laws of a feed's samples, over the definitions of `feed_model` alone.
//!
//! A sample stands whole at the front exactly where the bytes spell it; no sample begins another;
//! a sample that is cut is short; more bytes change nothing but "short"; what is told stands within
//! the bytes; and a fault says what stands there and is final. Each law is the contract of a function that does nothing. The lemmas behind
//! them stand in `proofs/`, where the crates above cite them.
#![tactic(auto)]

mod laws;

pub use laws::{
    answers_stand_within, cut_sample_is_short, fault_is_final, more_bytes_change_nothing,
    text_has_one_sample, whole_is_spelled,
};
