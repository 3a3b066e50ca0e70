//! What acceptance owes to a machine that runs the program, as laws.
#![tactic(auto)]

mod laws;

pub use laws::accepted_is_kept;
