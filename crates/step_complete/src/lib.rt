//! A thread after the answer to what it asked, in place, and the other changes of its levels.
#![tactic(auto)]

mod asked;
mod by_answer;
mod calls;
mod frames;
mod turns;

pub use asked::{Asked, asked_of};
pub use by_answer::complete;
pub use calls::{call, drop_top, leave, reserve_level};
pub use frames::new_frame;
pub use turns::{Turn, turn_top};
