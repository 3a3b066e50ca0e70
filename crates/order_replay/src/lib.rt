//! Takes the steps of an order one by one on the one machine, and tells how that ended.
#![tactic(auto)]

mod replay;

pub use replay::{Ending, Replay};
