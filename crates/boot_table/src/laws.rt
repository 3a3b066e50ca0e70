//! What holds of the boot classes.

ghost use Rattle.std.specs.Prelude.{◌≡◌, true, All};
ghost use Rattle.std.specs.List.{list_all};
ghost use Rattle.boot_table.specs.Decoding.{are_decoded};
ghost use Rattle.boot_table.specs.Files.{boot_files};
ghost use Rattle.class_format.specs.Meaning.{IsClass};

/// Each boot class is spelled by some bytes.
pub fn boot_is_formed()
    ensures { All IsClass boot_files }
{}

/// The code of each boot class's methods is decoded.
pub fn boot_is_decoded()
    ensures { list_all are_decoded boot_files ≡ true }
{}
