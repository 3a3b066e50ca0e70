//! What a thread does next, from the program and the thread alone.
#![tactic(auto)]

mod bodies;
mod buffers;
mod calls;
mod fields;
mod intrinsic;
mod intrinsics;
mod lookups;
mod plan;
mod site;
mod strings;
mod texts;
mod top;
mod unwinding;
mod values;
mod who;

pub use bodies::given_to;
pub use plan::{Next, Plan};
pub use top::plan_of;
pub use who::{Texts, Who};
