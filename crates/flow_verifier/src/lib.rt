//! The data-flow verifier: a method's typing, or the first rule that it breaks.
#![tactic(auto)]

mod answer;
mod catches;
mod facts;
mod frames;
mod given;
mod handler_tree;
mod method;
mod ranges;
mod rising;
mod shared_frame;
mod solver;
mod successors;
mod verifying;
mod visit;

pub use answer::{FlowErr, VerifyErr};
pub use frames::Frames;
pub use method::{Edge, Handler, Method};
pub use shared_frame::SharedFrame;
pub use verifying::{verify, verify_counted};
