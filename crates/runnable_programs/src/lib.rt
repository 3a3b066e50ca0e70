//! What is accepted can be run, as laws.
#![tactic(auto)]

mod laws;

pub use laws::{accepted_can_run, accepted_have_code};
