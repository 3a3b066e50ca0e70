//! Array classes and literals of a program by number.
#![tactic(auto)]

mod array_class;
mod arrays;
mod desc_set;
mod desc_text;
mod elem;
mod error;
mod literals;
mod marks;
mod named;

pub use array_class::{array_classes, class_number};
pub use arrays::Arrays;
pub use error::ArraysErr;
pub use literals::{Literals, literal_name};
