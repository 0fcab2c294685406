//! Laws of variable-length integers and samples, over the definitions of `xdf_model` alone.
//!
//! Each law is the contract of a function that does nothing. The lemmas behind them stand in
//! `proofs/`, where the crates above cite them: bytes and numbers (`Bytes`), readers that fit a
//! relation (`Readers`, `Samples`), loops that read (`Loops`) and least texts (`LeastTexts`).
#![tactic(auto)]

mod laws;

pub use laws::{least_is_a_number, number_has_one_reading, sample_has_one_reading};
