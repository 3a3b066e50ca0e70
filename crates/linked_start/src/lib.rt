//! What boot classes, `main` and the start of a linked program owe to a machine, as laws.
#![tactic(auto)]

mod laws;

pub use laws::{
    boot_is_right, entries_have_code, links_are_given, main_is_right, natives_fit, starts_are_right,
};
