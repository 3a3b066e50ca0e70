//! A step that a thread can take, as it is told.

ghost use Rattle.std.specs.Prelude.{◌≡◌, None, option_map};
ghost use Rattle.program_image.specs.Program.{Program};
ghost use Rattle.machine_state.specs.declared.request.Answer.TheVariants.{Gives};
ghost use Rattle.machine_state.specs.declared.state.ThreadState.{ThreadState};
ghost use Rattle.machine_state.specs.State.{State};
ghost use Rattle.machine_state.specs.Complete.{Stand};
ghost use Rattle.machine_state.specs.Step.{taken_alone};
ghost use Rattle.step_after.specs.Going.{stand_of};
ghost use Rattle.step_after.specs.Laws.{GoesSo};
ghost use Rattle.step_attempt.specs.Going.{IsGoing};

use machine_state::{Served, Wish};
use step_after::After;
use step_serve::quiet;

/// A step that a thread can take and that is still to be done: the choice that it follows, whether
/// that choice's pick and name are those that it wants, its changes and its answer; and how its
/// thread goes on.
#[derive(Drop)]
pub struct Going {
    pub served: Served,
    pub after: After,
}

/// A request that was served, and how its thread goes on.
pub(crate) fn going_on(served: Option<Served>, after: After) -> Option<Going>
    ensures { result ≡ option_map (λ s. record { served = s; after = after }) served }
{
    match served {
        None => None,
        Some(served) => Some(Going { served, after }),
    }
}

/// A step that touches nothing that threads share.
pub(crate) fn alone(wish: Wish, after: After) -> Going
    ensures { (p : Program) (m : State) (th : ThreadState) (s : Stand) →
        s ≡ stand_of p after (Gives None) th.mode th.levels →
        GoesSo p after (Gives None) th.levels →
        IsGoing p m wish th (taken_alone s) result }
{
    Going {
        served: quiet(wish, None),
        after,
    }
}
