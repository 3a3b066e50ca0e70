//! The instructions of boot code.

/// A field or method that code names.
#[derive(Clone, Copy)]
pub(crate) struct Reference {
    pub(crate) class: &'static str,
    pub(crate) name: &'static str,
    pub(crate) desc: &'static str,
}

/// An instruction by its mnemonic (JVMS2 6). The number of a jump is that of the bytes from its
/// own address on.
#[derive(Clone, Copy)]
pub(crate) enum BootOp {
    Aload0,
    Aload1,
    Areturn,
    Return,
    Getfield(Reference),
    Putfield(Reference),
    Invokespecial(Reference),
    Invokeinterface(Reference),
    Ifnull(u16),
}
