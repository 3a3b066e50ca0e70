//! Rules of linking on classes and what they declare, and what linking answers.
#![tactic(auto)]

mod above;
mod body;
mod classes;
mod decoding;
mod error;
mod known;
mod left_out;
mod marks;
mod named;
mod program;
mod refuse;

pub use above::{check_finals, check_kinds};
pub use body::{ops, table};
pub use classes::add_files;
pub use decoding::decode_files;
pub use error::{LinkErr, LinkWhy};
pub use left_out::check_descs;
pub use marks::{told_class, told_owner};
pub use named::check_files;
pub use program::Program;
pub use refuse::{refuse_class_if, refuse_member_if};
