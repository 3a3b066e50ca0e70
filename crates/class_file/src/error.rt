//! Why a class file is refused.

ghost use Rattle.std.specs.Prelude.{◌≡◌, Some};
ghost use Rattle.class_file.specs.declared.error.ClassErr.TheVariants.{NoMemory as OutOfMemory};
ghost use Rattle.class_file.specs.Reasons.{reason};

use jvm_base::NoMemory;
use std::alloc::{AllocError, AllocFailed};
use std::fmt;
use thiserror::Error;

/// The first refusal of a file that is read from front to back. Offsets count bytes from 0, pool
/// indices and methods are numbers of the file.
#[derive(Clone, Copy, Debug, PartialEq, Eq, Error)]
pub enum ClassErr {
    /// The first four bytes are others than a class file's (JVMS2 4.1).
    Magic,
    /// A version that isn't read: its major number and its minor one.
    Version(u16, u16),
    /// The next field ends past the end of the file, which has this length.
    Cut(u64),
    /// The tag at this index is none (JVMS2 4.4), or its item's second index isn't there.
    PoolTag(u16),
    /// The text at this index isn't modified UTF-8 (JVMS2 4.4.7).
    PoolText(u16),
    /// The lowest index of an item that names an item of another kind, or a text of no use there.
    PoolLink(u16),
    /// The number at this offset isn't the index of an item of the needed kind.
    ItemLink(u64),
    /// The flags at this offset contradict each other (JVMS2 4.1, 4.5, 4.6).
    Flags(u64),
    /// The length at this offset isn't what the contents of its attribute took.
    AttrLength(u64),
    /// The code of this method is empty or longer than 65,535 bytes (JVMS2 4.8.1).
    CodeLength(u16),
    /// This method has a number of Code attributes that its flags don't allow (JVMS2 4.7.3).
    CodeCount(u16),
    /// A second field, or a second method, of one name and one descriptor stands at this offset.
    Twice(u64),
    /// Bytes follow the class file, the first of them at this offset.
    Extra(u64),
    /// No memory was left.
    NoMemory,
}

/// What a report says of the file.
impl fmt::Display for ClassErr {
    ghost output = { λ e. Some (reason e) };

    fn fmt<W: fmt::Write>(&self, f: &mut fmt::Formatter<W>) -> fmt::Result {
        match self {
            ClassErr::Magic => write!(f, "magic"),
            ClassErr::Version(major, minor) => write!(f, "version {major}.{minor}"),
            ClassErr::Cut(at) => write!(f, "cut {at}"),
            ClassErr::PoolTag(index) => write!(f, "pool tag {index}"),
            ClassErr::PoolText(index) => write!(f, "pool text {index}"),
            ClassErr::PoolLink(index) => write!(f, "pool link {index}"),
            ClassErr::ItemLink(at) => write!(f, "item link {at}"),
            ClassErr::Flags(at) => write!(f, "flags {at}"),
            ClassErr::AttrLength(at) => write!(f, "attribute length {at}"),
            ClassErr::CodeLength(method) => write!(f, "code length {method}"),
            ClassErr::CodeCount(method) => write!(f, "code count {method}"),
            ClassErr::Twice(at) => write!(f, "twice {at}"),
            ClassErr::Extra(at) => write!(f, "extra {at}"),
            ClassErr::NoMemory => write!(f, "want of memory"),
        }
    }
}

impl From<NoMemory> for ClassErr {
    ghost from_gives = { λ _ e. e ≡ OutOfMemory };

    fn from(_error: NoMemory) -> ClassErr {
        ClassErr::NoMemory
    }
}

impl From<AllocError> for ClassErr {
    ghost from_gives = { λ _ e. e ≡ OutOfMemory };

    fn from(_error: AllocError) -> ClassErr {
        ClassErr::NoMemory
    }
}

impl<T: Drop> From<AllocFailed<T>> for ClassErr {
    ghost from_gives = { λ _ e. e ≡ OutOfMemory };

    fn from(_error: AllocFailed<T>) -> ClassErr {
        ClassErr::NoMemory
    }
}
