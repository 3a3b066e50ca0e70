//! Lists of types that share what they have in common.
#![tactic(auto)]

mod block;
mod tree;
mod types;

pub use types::Types;
