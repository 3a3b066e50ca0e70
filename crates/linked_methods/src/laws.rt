//! What the rules on declared members owe.

ghost use Rattle.linked_methods.specs.Linking.{MethodsLaw};

/// Where no rule on declared members refuses the files, methods belong to their classes, and
/// initialisers are as the machine calls them.
pub fn methods_are_right()
    ensures { MethodsLaw }
{}
