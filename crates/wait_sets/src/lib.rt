//! The threads of one node that wait for monitors: wait, notify and notifyAll.
#![tactic(auto)]

mod error;
mod wait_sets;
mod waiting;

pub use error::WaitErr;
pub use wait_sets::WaitSets;
pub use waiting::{notify, notify_all, wait};
