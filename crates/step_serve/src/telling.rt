//! What is told of a deed.

ghost use Rattle.std.specs.Prelude.{◌≡◌, ℕ, List, [], ◌∷◌, None};
ghost use Rattle.machine_state.specs.declared.request.Answer.TheVariants.{Gives};
ghost use Rattle.machine_state.specs.declared.served.Effects.TheVariants.{Nothing, One};
ghost use Rattle.machine_state.specs.declared.served.Wish.{Wish as AnyWish};
ghost use Rattle.machine_state.specs.Deeds.{Deed};
ghost use Rattle.machine_state.specs.Serving.{Meets};
ghost use Rattle.machine_state.specs.State.{Heap};
ghost use Rattle.step_serve.specs.Telling.{Tells, IsPlain, IsMaking};

use crate::names::{NO_NAME, Names, fits_one, is_name};
use jvm_base::{Name, Value};
use machine_state::{Answer, Choice, Effect, Effects, Served, Wish};

/// The choice for a deed that makes nothing and picks nobody.
fn plain_choice(wish: Wish) -> Choice
    ensures { (d : Deed) → d.makes ≡ [] → d.waiters ≡ [] → Meets wish d result }
{
    match wish {
        Wish::Exactly(choice) => choice,
        Wish::Fresh {
            thread,
            node: _,
            index: _,
        } => Choice {
            thread,
            pick: 0,
            name: NO_NAME,
        },
    }
}

/// The choice for a deed that makes one or more objects, the first one of the class.
pub(crate) fn making_choice(wish: Wish, class: u32) -> Choice
    ensures { (d : Deed) (cs : List ℕ) → d.makes ≡ class ∷ cs → d.waiters ≡ []
        → Meets wish d result }
{
    match wish {
        Wish::Exactly(choice) => choice,
        Wish::Fresh {
            thread,
            node,
            index,
        } => Choice {
            thread,
            pick: 0,
            name: Name { node, class, index },
        },
    }
}

/// What is told of a deed that makes nothing and picks nobody.
pub(crate) fn plain(wish: Wish, effects: Effects, answer: Answer) -> Served
    ensures { (heap : Heap) (d : Deed) → IsPlain heap effects answer d → Tells heap wish d result }
{
    let choice = plain_choice(wish);
    Served {
        choice,
        pick_fits: choice.pick == 0,
        name_fits: is_name(choice.name, NO_NAME),
        effects,
        answer,
    }
}

/// What is told of a deed that changes nothing: its answer, for the choice that is wished.
pub fn quiet(wish: Wish, value: Option<Value>) -> Served
    ensures { (heap : Heap) (d : Deed) → IsPlain heap Nothing (Gives value) d
        → Tells heap wish d result }
{
    plain(wish, Effects::Nothing, Answer::Gives(value))
}

/// What is told of a deed with one change.
pub(crate) fn changing(wish: Wish, effect: Effect) -> Served
    ensures { (heap : Heap) (d : Deed) → IsPlain heap (One effect) (Gives None) d
        → Tells heap wish d result }
{
    plain(wish, Effects::One(effect), Answer::Gives(None))
}

/// What is told of a deed that makes one object of the class under the choice's name.
pub(crate) fn making<N: Names>(
    names: &N,
    choice: Choice,
    class: u32,
    effects: Effects,
    answer: Answer,
) -> Served
    ensures choice { result.choice ≡ choice }
    ensures told { (wish : AnyWish) (d : Deed) → Meets wish d choice
        → IsMaking (N.heap names.now) class effects answer d
        → Tells (N.heap names.now) wish d result }
{
    Served {
        choice,
        pick_fits: choice.pick == 0,
        name_fits: fits_one(names, choice.name, class),
        effects,
        answer,
    }
}
