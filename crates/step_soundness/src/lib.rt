//! A sound machine of an accepted program stays sound, and none of its threads is stuck.
#![tactic(auto)]

mod laws;

pub use laws::{blocked_waits, never_stuck, sound_step};
