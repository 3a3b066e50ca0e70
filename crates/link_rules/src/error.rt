//! Why files aren't linked.

ghost use Rattle.std.specs.Prelude.{◌≡◌, Some};
ghost use Rattle.link_rules.specs.declared.error.LinkErr.TheVariants.{NoMemory as OutOfMemory};
ghost use Rattle.link_rules.specs.Reasons.{why_text};

use code_table::CodeErr;
use jvm_base::{NoMemory, Units};
use std::fmt;
use thiserror::Error;

/// The kind of a refusal of linking.
#[derive(Clone, Copy, Debug, PartialEq, Eq, Error)]
pub enum LinkWhy {
    /// The name is that of a boot class or of an earlier file's class.
    SameClass,
    /// A class that is named isn't there.
    NoClass,
    /// A class, field or method is of another kind than its use asks.
    WrongKind,
    /// The superclass is final.
    FinalSuper,
    /// The class lies above itself.
    SuperLoop,
    /// A descriptor has a float or a double.
    LeftOutDesc,
    /// A method may not stand in place of a superclass's.
    BadOverride,
    /// A field that code uses isn't found.
    NoField,
    /// A method that code uses isn't found.
    NoMethod,
    /// A class or member that code uses isn't accessible.
    NoAccess,
    /// The main class or its `main` isn't there.
    NoMain,
    /// There are too many classes.
    TooMany,
}

impl fmt::Display for LinkWhy {
    ghost output = { λ w. Some (why_text w) };

    fn fmt<W: fmt::Write>(&self, f: &mut fmt::Formatter<W>) -> fmt::Result {
        f.write_str(match self {
            LinkWhy::SameClass => "same-class",
            LinkWhy::NoClass => "no-class",
            LinkWhy::WrongKind => "wrong-kind",
            LinkWhy::FinalSuper => "final-super",
            LinkWhy::SuperLoop => "super-loop",
            LinkWhy::LeftOutDesc => "left-out-desc",
            LinkWhy::BadOverride => "bad-override",
            LinkWhy::NoField => "no-field",
            LinkWhy::NoMethod => "no-method",
            LinkWhy::NoAccess => "no-access",
            LinkWhy::NoMain => "no-main",
            LinkWhy::TooMany => "too-many",
        })
    }
}

/// Why files aren't linked. `Code` names a method by the place of its file and its place there, both
/// from 0. `Bad` names the class that is refused, and in `other` what it is refused for: a class, a
/// member as its name and descriptor, or nothing.
#[derive(Debug, Drop, Error)]
pub enum LinkErr {
    #[error("code isn't decoded")]
    Code {
        class: u32,
        method: u32,
        why: CodeErr,
    },
    #[error("{why}")]
    Bad {
        why: LinkWhy,
        class: Units,
        other: Units,
    },
    #[error("want of memory")]
    NoMemory,
}

impl From<NoMemory> for LinkErr {
    ghost from_gives = { λ _ e. e ≡ OutOfMemory };

    fn from(_error: NoMemory) -> LinkErr {
        LinkErr::NoMemory
    }
}
