//! The monitors of one node: owners, counts and queued requests.
#![tactic(auto)]

mod monitors;

pub use monitors::{Entered, Held, Monitors, NotOwner, Request, first_place};
