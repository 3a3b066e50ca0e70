//! What the boot classes, `main` and the objects that are there at first owe.

ghost use Rattle.linked_start.specs.Coding.{CodeLaw};
ghost use Rattle.linked_start.specs.Linking.{BootLaw, EntriesLaw, NativesLaw, StartsLaw};
ghost use Rattle.linked_start.specs.Premises.{PremisesLaw};

/// Where linking refuses nothing, there is what the other laws ask for: arrays of Strings and a
/// method to begin with.
pub fn links_are_given()
    ensures { PremisesLaw }
{}

/// The boot classes that a machine names are as it uses them.
pub fn boot_is_right()
    ensures { BootLaw }
{}

/// Where no file declares a native method, a method that has no code is declared as its intrinsic.
pub fn natives_fit()
    ensures { NativesLaw }
{}

/// The objects that are there before the first step are of their types.
pub fn starts_are_right()
    ensures { StartsLaw }
{}

/// The methods that no instruction calls take what a machine gives them.
pub fn main_is_right()
    ensures { EntriesLaw }
{}

/// Where all code is decoded, initialisers of classes, `main` and what may be selected as the `run`
/// of a thread have code.
pub fn entries_have_code()
    ensures { CodeLaw }
{}
