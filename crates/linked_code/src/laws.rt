//! What the rules on code owe.

ghost use Rattle.linked_code.specs.Linking.{LinksLaw};

/// Where no rule of linking refuses the files, what each instruction names is there, and of its
/// kind.
pub fn names_are_right()
    ensures { LinksLaw }
{}
