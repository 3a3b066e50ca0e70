//! How far each class of a node is initialised: each is run once.
#![tactic(auto)]

mod classes;
mod laws;

pub use classes::{Asked, ClassRequest, Classes};
pub use laws::run_once;
