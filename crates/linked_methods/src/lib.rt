//! The methods of a linked program and their classes, as a law.
#![tactic(auto)]

mod laws;

pub use laws::methods_are_right;
