//! What holds of every order of a run: its names, and its threads' objects.
#![tactic(auto)]

mod laws;

pub use laws::{names_are_of_classes, one_thread_an_object, orders_have_text};
