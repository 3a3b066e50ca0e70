//! What the classes of a linked program owe to their types, as a law.
#![tactic(auto)]

mod laws;

pub use laws::classes_are_typed;
