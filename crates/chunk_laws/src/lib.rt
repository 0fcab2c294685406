//! Laws of chunks, over the definitions of `chunk_grammar` alone.
//!
//! A chunk is whole at a place exactly where a text of it stands; a cut chunk is torn; no chunk
//! begins another; what isn't torn stays the same for every longer input; the least text is a text.
//! Each law is the contract of a function that does nothing. The lemmas behind them stand in
//! `proofs/`, where the crates above cite them.
#![tactic(auto)]

mod laws;

pub use laws::{
    cut_chunk_is_torn, least_text_is_a_text, more_bytes_change_nothing, text_has_one_reading,
    whole_is_a_text,
};
