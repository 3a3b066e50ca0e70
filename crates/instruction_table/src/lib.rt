//! The one table of instructions: what each takes and gives, as data, and what a row does to the
//! types of a frame.
#![tactic(auto)]

mod begin;
mod class_types;
mod lowest;
mod need;
mod row;
pub mod rule;
mod stack;
mod table;
mod work;

pub use class_types::{class_type, desc_type, is_initialiser, is_static, owner_of, plain};
pub use lowest::lower;
pub use row::{Gives, Group, Need, Row, Slot};
pub use stack::Stack;
pub use table::{THROWABLE, dup_groups, falls, pop_group, row_of};
pub use work::Work;
