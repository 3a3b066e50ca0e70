//! Fields and methods, and what their flags ask.

ghost use Rattle.std.specs.Prelude.{◌≡◌};
ghost use Rattle.class_format.specs.Members.{is_without_receiver, is_desc_of, flags_clash, code_count, is_code_len};

use crate::flags::{ABSTRACT, NATIVE, STATIC, field_flags_clash, has_flag, method_flags_clash};
use crate::known_texts::is_clinit;
use constant_pool::Texts;

/// Fields and methods have the same form (JVMS2 4.5, 4.6).
#[derive(Clone, Copy)]
pub enum MemberKind {
    Field,
    Method,
}

/// What a field or method begins with: its flags, and the pool indices of its name and descriptor.
#[derive(Clone, Copy)]
pub struct MemberHead {
    pub flags: u16,
    pub name: u16,
    pub desc: u16,
}

/// Whether no receiver comes with a call, by the flags of a method or by its name.
pub fn is_without_receiver(texts: &Texts, flags: u16, name: u16) -> bool
    ensures { result ≡ is_without_receiver texts.now flags name }
{
    has_flag(flags, STATIC) || is_clinit(texts.items(), name)
}

/// Whether the index is of a descriptor of that kind (JVMS2 4.3.2, 4.3.3).
pub fn is_desc_of(texts: &Texts, kind: MemberKind, without_receiver: bool, desc: u16) -> bool
    ensures { result ≡ is_desc_of kind without_receiver texts.now desc }
{
    match kind {
        MemberKind::Field => texts.is_field(desc),
        MemberKind::Method if without_receiver => texts.is_method(desc),
        MemberKind::Method => texts.is_instance_method(desc),
    }
}

/// Whether flags of a field or method contradict each other.
pub fn flags_clash(kind: MemberKind, without_receiver: bool, flags: u16) -> bool
    ensures { result ≡ flags_clash kind without_receiver flags }
{
    match kind {
        MemberKind::Field => field_flags_clash(flags),
        MemberKind::Method => method_flags_clash(without_receiver, flags),
    }
}

/// How many `Code` attributes a method of these flags has (JVMS2 4.7.3).
pub fn code_count(flags: u16) -> usize
    ensures { result ≡ code_count flags }
{
    if has_flag(flags, NATIVE) || has_flag(flags, ABSTRACT) {
        0
    } else {
        1
    }
}

/// Whether code may have so many bytes (JVMS2 4.8.1).
pub fn is_code_len(len: usize) -> bool
    ensures { result ≡ is_code_len len }
{
    0 < len && len < 65536
}
