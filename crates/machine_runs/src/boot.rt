//! The boot classes as programs have them here.

ghost use Rattle.machine_runs.specs.BootTable.{BootIsTheTable};

/// Their names, flags, superclasses, fields and methods are those of the table of boot classes, in
/// its order.
pub fn boot_classes_are_the_table()
    ensures { BootIsTheTable }
{}
