//! The types of the verifier, their order, and the frames of types at instructions.
#![tactic(auto)]

mod element;
mod flow_frame;
mod flow_list;
mod flow_type;
mod steps;
mod superclass;

pub use element::{Element, Primitive};
pub use flow_frame::{FlowFrame, merge, merge_counted};
pub use flow_type::{FlowType, fits, merge_type};
pub use steps::Steps;
pub use superclass::{is_sub, parent};
