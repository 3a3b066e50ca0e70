//! A class file by its names: the texts that its items name, the classes that it names, and names
//! by number.
#![tactic(auto)]

mod known;
mod names;
mod texts;

pub use known::{is_clinit, is_init, is_object};
pub use names::Names;
pub use texts::{
    Called, class_text, desc, is_array, is_name, member, method_desc, super_text, text, this_name,
};
