//! What a class file begins with.

ghost use Rattle.std.specs.Prelude.{◌≡◌};
ghost use Rattle.class_format.specs.Versions.{is_other_version};

/// The number that a class file begins with (JVMS2 4.1).
pub const MAGIC: u32 = 0xCAFE_BABE;

/// Whether the version is none that is read: only 45 has minor ones.
pub fn is_other_version(major: u16, minor: u16) -> bool
    ensures { result ≡ is_other_version major minor }
{
    major < 45 || 48 < major || (45 < major && minor != 0)
}
