//! What is read of a program while it runs. No read searches through lists: what would, is kept in
//! tables.
#![tactic(auto)]

mod arrays;
pub mod boot;
mod constants;
mod lookups;
mod named;
mod tables;
mod totals;

pub use lookups::{
    NO_NODE, clinit_of, code_of, holder, instruction_at, instruction_near, super_of,
};
pub use tables::Tables;
pub use totals::{handler, is_sub, select};
