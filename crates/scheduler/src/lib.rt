//! Runs a program on the one machine: threads take turns, and the order of all steps is kept.
#![tactic(auto)]

mod run;

pub use run::{Run, Stop};
