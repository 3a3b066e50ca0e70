//! The image of a program, made from its class files once no rule of linking is broken.
#![tactic(auto)]

mod backs;
mod bases;
mod classes;
mod constants;
mod fields;
mod image;
mod items;
mod lookup;
mod methods;
mod reversed;
mod signs;
mod targets;
mod texts;

pub use image::build;
