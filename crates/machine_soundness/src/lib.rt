//! A sound machine: what its objects and threads are, where it begins, and what it must wait for.
#![tactic(auto)]

mod laws;

pub use laws::{refused_waits, sound_start};
