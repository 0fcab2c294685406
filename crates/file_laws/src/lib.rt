//! Laws of whole files, over the definitions of `chunk_grammar` and `file_model` alone.
//!
//! The chunks at the front of a file, and the rest behind them, are determined; so are the answers of
//! one who reads it, and a reader by rules gives just these. A file that is cut yields its whole
//! chunks. What is written is read. Each law is the contract of a function that does nothing. The
//! lemmas behind them stand in `proofs/`, where the crates above cite them.
#![tactic(auto)]

mod laws;

pub use laws::{
    answers_stand_within, cut_file_yields_its_whole_chunks, file_has_a_front, file_has_readings,
    file_is_read_whole, front_is_determined, least_file_is_a_file, readings_are_determined,
    readings_are_those_of_a_reader, written_file_is_read,
};
