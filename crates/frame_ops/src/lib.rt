//! The instructions that a frame runs by itself: what each does, as a table.
#![tactic(auto)]

mod answer;
mod asks;
mod families;
mod jumps;
mod locals;
mod moved;
mod numbers;
mod operands;
mod rows;
mod seen;
mod shuffles;
mod step;

pub use answer::{Fault, Given, Pure};
pub use numbers::{as_byte, as_short, as_unit};
pub use seen::answer_at;
pub use step::{call_count, complete, complete_at, placed_at, placed_near, pure_step, step_at};
