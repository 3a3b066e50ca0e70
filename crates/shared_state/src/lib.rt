//! What the threads of the one machine share, and their table.
#![tactic(auto)]

mod apply;
mod heap;
mod made;
mod owners;
mod shared;
mod start;
mod stored;
mod thread;

pub use shared::Shared;
pub use start::Opening;
pub use thread::{Thread, thread_of};
