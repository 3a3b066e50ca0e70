//! A boot class by its names and flags.

use crate::op::BootOp;

/// A field. None of a boot class has a constant.
#[derive(Clone, Copy)]
pub(crate) struct BootField {
    pub(crate) flags: u16,
    pub(crate) name: &'static str,
    pub(crate) desc: &'static str,
}

/// Code without an exception table.
#[derive(Clone, Copy)]
pub(crate) struct BootCode<'o> {
    pub(crate) max_stack: u16,
    pub(crate) max_locals: u16,
    pub(crate) ops: &'o [BootOp],
}

/// A method, native or abstract where it has no code.
#[derive(Clone, Copy)]
pub(crate) struct BootMethod<'o> {
    pub(crate) flags: u16,
    pub(crate) name: &'static str,
    pub(crate) desc: &'static str,
    pub(crate) code: Option<BootCode<'o>>,
}

/// A class or interface. Only `java/lang/Object` has no superclass.
#[derive(Clone, Copy)]
pub(crate) struct BootClass<'m, 'o> {
    pub(crate) name: &'static str,
    pub(crate) super_class: Option<&'static str>,
    pub(crate) interfaces: &'static [&'static str],
    pub(crate) flags: u16,
    pub(crate) fields: &'static [BootField],
    pub(crate) methods: &'m [BootMethod<'o>],
}
