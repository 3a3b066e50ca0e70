//! Orders as text: written, and read again.
#![tactic(auto)]

mod error;
mod laws;
mod read;
mod write;

pub use error::OrderErr;
pub use laws::{one_fault, one_order, read_again};
pub use read::read_order;
pub use write::write_order;
