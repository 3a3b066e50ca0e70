//! What a thread's next step does: planned, served, and still to be done. Nothing is changed here.
#![tactic(auto)]

mod attempting;
mod going;
mod perform;
mod site;

pub use attempting::attempt;
pub use going::Going;
pub use site::{Site, thread_in};
