//! Code of methods: from its bytes to instructions at addresses, or the first reason against it.
#![tactic(auto)]

mod bytes;
mod code;
mod decode;
mod descs;
pub mod element_kind;
mod error;
mod instruction;
mod items;
mod kind;
mod meaning;
mod members;
mod op;
pub mod opcode;
mod sequence;
mod switches;
mod target;

pub use code::{Code, Placed};
pub use decode::{
    decode_code, decode_code_with, one_answer, one_cover, one_instruction, target_is_sum,
};
pub use descs::Descs;
pub use error::CodeErr;
pub use kind::one_row;
pub use op::Op;
