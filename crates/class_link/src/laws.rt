//! What holds of the boot classes among the classes of a program.

ghost use Rattle.std.specs.Prelude.{◌≡◌, ◌++◌, List, [], length};
ghost use Rattle.boot_table.specs.Files.{boot_files};
ghost use Rattle.boot_table.specs.Intrinsics.{intrinsics};
ghost use Rattle.class_format.specs.declared.class.ClassFile.{ClassFile as Class};
ghost use Rattle.link_members.specs.Rows.{IsFalling};
ghost use Rattle.link_rules.specs.Classes.{same_class};
ghost use Rattle.link_rules.specs.Numbers.{above_rows};
ghost use Rattle.class_link.specs.Natives.{natives};
ghost use Rattle.class_link.specs.Mains.{first_number};

/// The boot classes have distinct names, and each has only boot classes before it above it.
pub fn boot_is_apart()
    ensures count { length boot_files ≡ first_number }
    ensures names { same_class [] boot_files ≡ [] }
    ensures falls { (files : List Class)
        → IsFalling (above_rows (boot_files ++ files)) first_number }
{}

/// The native method of the boot classes at k, counted from 0, is intrinsic k.
pub fn natives_are_intrinsics()
    ensures { natives boot_files ≡ intrinsics }
{}
