//! What the instructions of a linked program name, as laws.
#![tactic(auto)]

mod laws;

pub use laws::names_are_right;
