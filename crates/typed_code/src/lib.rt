//! What decoding and typing owe to a machine that runs the code, as laws.
#![tactic(auto)]

mod laws;

pub use laws::{decoded_is_fine, typings_are_kept};
