//! The classes of a linked program make a table that types may rest on, as a law.
#![tactic(auto)]

mod laws;

pub use laws::linked_is_table;
