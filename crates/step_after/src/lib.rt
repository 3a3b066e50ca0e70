//! How a thread goes on after its step, in place, and that a thread of a sound machine can.
#![tactic(auto)]

mod after;
mod laws;

pub use after::{After, go_on};
pub use laws::{can_ask, can_go_on};
