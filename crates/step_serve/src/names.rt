//! Which names are taken, and whether a name is one that a step can give.

ghost use Rattle.std.specs.Prelude.{◌≡◌, [], ◌∷◌, is_some};
ghost use Rattle.jvm_base.specs.Names.{name_eq};
ghost use Rattle.machine_state.specs.State.{Heap, body_at};
ghost use Rattle.machine_state.specs.Serve.{name_fits};

use jvm_base::Name;

/// The objects that there are, by name.
pub trait Names {
    /// Their bodies.
    ghost heap: { Self → Heap };

    /// Whether there is an object of the name.
    fn has(&self, name: Name) -> bool
        ensures { result ≡ is_some (body_at (heap self.now) name) };
}

/// The node of names that no step makes.
pub(crate) const NO_NODE: u8 = 255;

/// The name that a step which makes nothing is given.
pub(crate) const NO_NAME: Name = Name {
    node: 0,
    class: 0,
    index: 0,
};

/// Whether two names are one.
pub(crate) fn is_name(a: Name, b: Name) -> bool
    ensures { result ≡ name_eq a b }
{
    a == b
}

/// Whether a name is one for a single new object of the class.
pub(crate) fn fits_one<N: Names>(names: &N, name: Name, class: u32) -> bool
    ensures { result ≡ name_fits (N.heap names.now) name (class ∷ []) }
{
    let taken = Name {
        node: name.node,
        class,
        index: name.index,
    };
    name.node != NO_NODE && name.class == class && !names.has(taken)
}
