//! From the table of classes to their types.

ghost use Rattle.typed_classes.specs.Tables.{ClassesLaw};

/// Subclasses are of the types of their classes, and objects of subclasses have the fields of
/// their classes.
pub fn classes_are_typed()
    ensures { ClassesLaw }
{}
