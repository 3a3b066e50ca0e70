//! What a step asks of what threads share, served from the part that it addresses: whether the choice's
//! pick and name fit, what changes, and the answer. Nothing is changed here.
#![tactic(auto)]

mod arrays;
mod blanks;
mod bodies;
mod boot;
mod buffers;
mod cell;
mod classes;
mod faults;
mod locks;
mod makes;
mod names;
mod serving;
mod telling;
mod threads;

pub use blanks::Blanks;
pub use cell::{BodyRef, Cell};
pub use faults::Server;
pub use locks::retake;
pub use names::Names;
pub use serving::serve;
pub use telling::quiet;
