//! The linked program: its classes, methods and targets by number, subclasses, selection and
//! handlers.
#![tactic(auto)]

mod alike;
mod ancestry;
mod class_name;
mod handlers;
mod image;
mod info;
mod members;
mod packages;
mod select;
mod signs;
mod subclass;

pub use class_name::ClassName;
pub use image::Image;
pub use info::{ArrayInfo, Body, ClassInfo, FieldInfo, MethodInfo, Target};
pub use select::Selected;
