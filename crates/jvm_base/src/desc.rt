//! Descriptors.

ghost use Rattle.std.specs.Prelude.{◌≡◌, ◌≤◌};
ghost use Rattle.jvm_base.specs.Descriptors.{desc_slots, args_slots};

use crate::list::List;
use crate::units::Units;
use std::hash::{Hash, Hasher};

/// What a field's descriptor is of, below its array dimensions (JVMS2 4.3.2).
#[derive(Drop, PartialEq, Eq, Hash)]
pub enum Elem {
    Byte,
    Char,
    Double,
    Float,
    Int,
    Long,
    Short,
    Boolean,
    Object(Units),
}

/// The type of a field: an element type under 0 to 255 array dimensions.
#[derive(Drop, PartialEq, Eq, Hash)]
pub struct Desc {
    pub dims: u8,
    pub elem: Elem,
}

impl Desc {
    /// How many local variables a value of the type takes (JVMS2 3.6.1): 2 for a long or double,
    /// and 1 for any other, arrays too.
    pub fn slots(&self) -> u32
        ensures { result ≡ desc_slots self.now }
    {
        match self.elem {
            Elem::Long | Elem::Double if self.dims == 0 => 2,
            _ => 1,
        }
    }
}

/// The type of a method (JVMS2 4.3.3); `ret` is `None` for `V`.
#[derive(Drop, PartialEq, Eq, Hash)]
pub struct MethodDesc {
    pub args: List<Desc>,
    pub ret: Option<Desc>,
}

impl MethodDesc {
    /// How many local variables the parameters take, no receiver counted.
    pub fn args_slots(&self) -> u32
        requires { args_slots self.now.args ≤ 255 }
        ensures { result ≡ args_slots self.now.args }
    {
        self.args.as_slice().iter().map(|desc| desc.slots()).sum()
    }
}
