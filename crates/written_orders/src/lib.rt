//! Every order of an accepted program can be written as text.
#![tactic(auto)]

mod laws;

pub use laws::{accepted_are_few, accepted_orders_have_text};
