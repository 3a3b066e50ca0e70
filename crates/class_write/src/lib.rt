//! Class files from their structure to bytes.
#![tactic(auto)]

mod item;
mod member;
mod number;
mod write;

pub use write::write_class;
