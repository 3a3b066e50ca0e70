//! Who is about to step.

ghost use Rattle.std.specs.Prelude.{◌≡◌, ℕ, List, Option, Some, None, MatchOption};
ghost use Rattle.jvm_base.specs.declared.name.Name.{Name as Named};

use jvm_base::Name;

/// The contents of Strings and buffers that are known where a thread stands.
pub trait Texts {
    /// The content of an object, where it is known.
    ghost known: { Self → Named → Option (List ℕ) };

    /// The content of an object; `None` exactly where it isn't known.
    fn text(&self, name: Name) -> Option<&[u16]>
        ensures { MatchOption result (known self.now name ≡ None) (λ units. known self.now name
            ≡ Some units.now) };
}

/// A thread that is about to step: whether it is thread 0, its Thread object, how many frames lie
/// below the levels that are at hand, and the texts that are known.
#[derive(Drop)]
pub struct Who<'a, T> {
    pub first: bool,
    pub object: Name,
    pub base: u32,
    pub texts: &'a T,
}
