//! Programs with fields and arrays.

ghost use Rattle.std.specs.Prelude.{[], ◌∷◌, codes};
ghost use Rattle.machine_state.specs.declared.state.End.TheVariants.{AllEnded};
ghost use Rattle.machine_state.specs.BootClasses.{null_pointer, array_index};
ghost use Rattle.machine_runs.specs.Driving.{ComesTo};
ghost use Rattle.machine_runs.specs.Programs.Objects.{fields, arrays};

/// Fields hold what was put, and null has none.
#[tactic(auto, unfolding(crate::specs::Driving::outcome))]
pub fn fields_run()
    ensures { ComesTo fields (codes "7") AllEnded ((0, null_pointer) ∷ []) }
{}

/// Elements hold what was stored; an array keeps its element type and its length.
#[tactic(auto, unfolding(crate::specs::Driving::outcome))]
pub fn arrays_run()
    ensures { ComesTo arrays (codes "15 12 1") AllEnded ((0, array_index) ∷ []) }
{}
