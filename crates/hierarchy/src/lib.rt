//! Hierarchies by number: an order of them or a loop in them, and what lies above each number.
#![tactic(auto)]

mod closure_table;
mod join_table;
mod ranks;
mod upwards;
mod walk_table;

pub use closure_table::{closure, is_among};
pub use join_table::joins;
pub use ranks::order;
pub use upwards::is_on_loop;
pub use walk_table::walks;
