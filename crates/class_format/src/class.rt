//! Class files.

use jvm_base::{CodeItem, List, Pool};

/// Counts in a class file take two bytes, and are below this one.
pub(crate) const COUNT_LIMIT: usize = 65536;

/// A field of a class (JVMS2 4.5): its flags, the pool indices of its name and descriptor and, of a
/// static one, that of its constant.
#[derive(Drop)]
pub struct FieldItem {
    pub flags: u16,
    pub name: u16,
    pub desc: u16,
    pub constant: Option<u16>,
}

/// A method of a class (JVMS2 4.6): its flags, the pool indices of its name and descriptor and its
/// code, which is there exactly where it is neither native nor abstract.
#[derive(Drop)]
pub struct MethodItem {
    pub flags: u16,
    pub name: u16,
    pub desc: u16,
    pub code: Option<CodeItem>,
}

/// A class file (JVMS2 4.1) without the attributes that are skipped.
#[derive(Drop)]
pub struct ClassFile {
    pub minor: u16,
    pub major: u16,
    pub pool: Pool,
    pub flags: u16,
    pub this_class: u16,
    pub super_class: u16,
    pub interfaces: List<u16>,
    pub fields: List<FieldItem>,
    pub methods: List<MethodItem>,
}
