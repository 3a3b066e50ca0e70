//! The table of threads: numbers, starts, joins and ends.
#![tactic(auto)]

mod error;
mod threads;

pub use error::StartErr;
pub use threads::{Joined, Joining, Thread, Threads64};
