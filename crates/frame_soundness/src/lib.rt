//! A frame that fits the verifier's typing: its step is possible, and leaves it fitting.
#![tactic(auto)]

mod laws;

pub use laws::{meets_condition, moves_fit};
