//! Programs with numbers, jumps and texts.

ghost use Rattle.std.specs.Prelude.{[], ◌∷◌, codes};
ghost use Rattle.machine_state.specs.declared.state.End.TheVariants.{AllEnded};
ghost use Rattle.machine_state.specs.BootClasses.{string_index};
ghost use Rattle.machine_runs.specs.Driving.{ComesTo, Prints};
ghost use Rattle.machine_runs.specs.Programs.Values.{numbers, texts};

/// Numbers wrap, are cut and are shifted; switches lead to their cases.
#[tactic(auto, unfolding(crate::specs::Driving::outcome))]
pub fn numbers_run()
    ensures { Prints numbers
        (codes "-2147483648 0 -4 15 1099511627776 0 -56 A -25536 6 1 2147483647") }
{}

/// A buffer gathers texts; Strings are compared by their text.
#[tactic(auto, unfolding(crate::specs::Driving::outcome))]
pub fn texts_run()
    ensures { ComesTo texts (codes "n=7ctruenull b true false 2") AllEnded ((0, string_index) ∷ []) }
{}
