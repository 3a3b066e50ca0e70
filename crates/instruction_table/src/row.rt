//! What an instruction takes and gives, as data.

use flow_types::{FlowType, Primitive};
use jvm_base::List;

/// What an operand must be.
#[derive(Clone, Copy)]
pub enum Need {
    Int,
    Long,
    /// An initialised reference that fits the type; this rule is broken where it doesn't.
    Fitting { rule: u8, of: FlowType },
    /// Null or an array of the primitive type; for `Byte` one of booleans too.
    Primitives(Primitive),
    /// Null or an array of references.
    References,
    /// Null or an array.
    Array,
    /// An initialised reference that fits the class, or the receiver that the class's own
    /// initialiser is still to initialise.
    Own(u32),
}

/// What an instruction pushes: nothing, a value of a type, or an element of the array of
/// references that it took.
#[derive(Clone, Copy)]
pub enum Gives {
    Nothing,
    One(FlowType),
    Part,
}

/// What a local holds that is read or written.
#[derive(Clone, Copy)]
pub enum Slot {
    Int,
    Long,
    Reference,
}

/// How much is moved about on the stack: nothing, one value of one slot, or two slots' worth, a
/// long or two values of one slot each.
#[derive(Clone, Copy)]
pub enum Group {
    Nothing,
    One,
    Wide,
}

/// What an instruction takes and gives. Needs and what is taken go from the newest operand down.
#[derive(Drop)]
pub enum Row {
    /// Takes operands and pushes what they give.
    Acts {
        needs: List<Need>,
        gives: Gives,
    },
    /// Pushes a local.
    Reads {
        slot: Slot,
        local: u16,
    },
    /// Takes an operand into a local.
    Writes {
        slot: Slot,
        local: u16,
    },
    /// Changes an int in a local.
    Bumps(u16),
    /// Takes a group.
    Drops(Group),
    /// Puts a copy of the top group below the one under it.
    Doubles {
        top: Group,
        below: Group,
    },
    /// Turns two values of one slot each.
    Swaps,
    /// Calls an initialiser of the class, with the object below the arguments.
    Inits {
        needs: List<Need>,
        class: u32,
        gives: Gives,
    },
    /// Returns; `fits` says that the method's result is of the instruction's kind.
    Ends {
        needs: List<Need>,
        fits: bool,
    },
}
