//! The stacks of threads on one node, in segments.
#![tactic(auto)]

mod error;
mod segment;
mod stacks;

pub use error::StackErr;
pub use segment::Segment;
pub use stacks::Stacks;
