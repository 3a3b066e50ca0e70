//! The classes that every program has: the boot classes, and which native method is which
//! intrinsic.
#![tactic(auto)]

mod build;
mod code;
mod exceptions;
mod laws;
mod op;
mod pool;
mod row;
mod table;

pub use build::boot_classes;
pub use laws::{boot_is_decoded, boot_is_formed};
