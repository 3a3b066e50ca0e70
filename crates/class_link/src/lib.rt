//! Linking: all its refusals in order, and the image where there are none.
#![tactic(auto)]

mod count;
mod laws;
mod linking;
mod main_class;
mod making;
mod names;
mod tables;

pub use laws::{boot_is_apart, natives_are_intrinsics};
pub use linking::link;
