//! What the rules on superclasses and interfaces owe.

ghost use Rattle.linked_classes.specs.Linking.{TableLaw};

/// Where no rule on superclasses and interfaces refuses the files, the classes of their image make
/// a table.
pub fn linked_is_table()
    ensures { TableLaw }
{}
