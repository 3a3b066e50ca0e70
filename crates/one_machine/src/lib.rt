//! The one machine: a whole program's state, and its steps, each of which is done whole or not at all.
#![tactic(auto)]

mod able;
mod glide;
mod in_place;
mod machine;
mod perform;
mod taking;

pub use able::any_choice;
pub use machine::{Machine, StepErr};
pub use taking::{Took, Went};
