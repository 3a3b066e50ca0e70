//! Access flags.

ghost use Rattle.std.specs.Prelude.{◌≡◌};
ghost use Rattle.class_format.specs.Flags.{has_flag, has_two_accesses, class_flags_clash, field_flags_clash, is_bound, method_flags_clash};

/// ACC_PUBLIC, of a class, field or method.
pub const PUBLIC: u16 = 0x0001;

/// ACC_PRIVATE, of a field or method.
pub const PRIVATE: u16 = 0x0002;

/// ACC_PROTECTED, of a field or method.
pub const PROTECTED: u16 = 0x0004;

/// ACC_STATIC, of a field or method.
pub const STATIC: u16 = 0x0008;

/// ACC_FINAL, of a class, field or method.
pub const FINAL: u16 = 0x0010;

/// ACC_SUPER, of a class; of a method the same bit is ACC_SYNCHRONIZED.
pub const SUPER: u16 = 0x0020;

/// ACC_SYNCHRONIZED, of a method.
const SYNCHRONIZED: u16 = 0x0020;

/// ACC_VOLATILE, of a field.
const VOLATILE: u16 = 0x0040;

/// ACC_NATIVE, of a method.
pub const NATIVE: u16 = 0x0100;

/// ACC_INTERFACE, of a class.
pub const INTERFACE: u16 = 0x0200;

/// ACC_ABSTRACT, of a class or method.
pub const ABSTRACT: u16 = 0x0400;

/// Whether the bit of that value is set.
pub fn has_flag(flags: u16, bit: u16) -> bool
    ensures { result ≡ has_flag flags bit }
{
    flags & bit != 0
}

fn has_two_accesses(flags: u16) -> bool
    ensures { result ≡ has_two_accesses flags }
{
    let public = has_flag(flags, PUBLIC);
    let private = has_flag(flags, PRIVATE);
    let protected = has_flag(flags, PROTECTED);
    public && private || public && protected || private && protected
}

/// Whether flags of a class or an interface contradict each other (JVMS2 4.1).
pub fn class_flags_clash(flags: u16) -> bool
    ensures { result ≡ class_flags_clash flags }
{
    let is_abstract = has_flag(flags, ABSTRACT) || has_flag(flags, INTERFACE);
    has_flag(flags, FINAL) && is_abstract || has_two_accesses(flags)
}

/// Whether flags of a field contradict each other (JVMS2 4.5).
pub fn field_flags_clash(flags: u16) -> bool
    ensures { result ≡ field_flags_clash flags }
{
    has_flag(flags, FINAL) && has_flag(flags, VOLATILE) || has_two_accesses(flags)
}

fn is_bound(without_receiver: bool, flags: u16) -> bool
    ensures { result ≡ is_bound without_receiver flags }
{
    has_flag(flags, PRIVATE)
        || without_receiver
        || has_flag(flags, FINAL)
        || has_flag(flags, SYNCHRONIZED)
        || has_flag(flags, NATIVE)
}

/// Whether flags of a method contradict each other (JVMS2 4.6).
pub fn method_flags_clash(without_receiver: bool, flags: u16) -> bool
    ensures { result ≡ method_flags_clash without_receiver flags }
{
    has_flag(flags, ABSTRACT) && is_bound(without_receiver, flags) || has_two_accesses(flags)
}
