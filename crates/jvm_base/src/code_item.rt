//! A method's code as its class file has it.

use crate::list::List;

/// An entry of an exception table (JVMS2 4.7.3): addresses, and the pool index of a class or 0.
#[derive(Clone, Copy, Debug, PartialEq, Eq)]
pub struct TableItem {
    pub start: u16,
    pub end: u16,
    pub handler: u16,
    pub class: u16,
}

/// A Code attribute without its attributes.
#[derive(Drop)]
pub struct CodeItem {
    pub max_stack: u16,
    pub max_locals: u16,
    pub code: List<u8>,
    pub table: List<TableItem>,
}
