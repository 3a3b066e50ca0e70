//! The one machine: its state, what chooses a step, and what a step is, with the laws of every step and
//! every run.
#![tactic(auto)]

mod laws;
mod order;
mod request;
mod served;
mod state;

pub use laws::{keeps_bodies, last_write, legal_locks, one_home, one_next, other_threads};
pub use order::Order;
pub use request::{Answer, Request};
pub use served::{Effect, Effects, Served, Wish};
pub use state::{Choice, ClassState, End, Mode, MonitorState, Reason, ThreadState, Waiter};
