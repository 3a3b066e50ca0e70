//! Decoded code.

use crate::op::Op;
use jvm_base::{List, TableItem};

/// An instruction in its place: its own address, and that of the byte behind it.
#[derive(Drop)]
pub struct Placed {
    pub at: u32,
    pub next: u32,
    pub op: Op,
}

/// Decoded code: its instructions by rising address, which cover its bytes, and its exception table
/// as the class file has it.
#[derive(Drop)]
pub struct Code {
    pub max_stack: u32,
    pub max_locals: u32,
    pub ops: List<Placed>,
    pub table: List<TableItem>,
}
