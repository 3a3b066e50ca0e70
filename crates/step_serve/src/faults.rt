//! Objects that a request makes for itself: exceptions and Strings.

ghost use Rattle.std.specs.Prelude.{◌≡◌, List, ◌∷◌, map, IfOk};
ghost use Rattle.std.specs.Option.{option_to_list};
ghost use Rattle.machine_state.specs.Deeds.{faulted, making_text};
ghost use Rattle.machine_state.specs.Events.{Place, Held};
ghost use Rattle.machine_state.specs.Serving.{change_of, changes_of};
ghost use Rattle.machine_state.specs.State.{Heap};
ghost use Rattle.step_serve.specs.Blank.{AreBlanks};
ghost use Rattle.step_serve.specs.Telling.{Tells, with_changes};

use crate::blanks::Blanks;
use crate::boot::STRING;
use crate::names::Names;
use crate::telling::{making, making_choice};
use jvm_base::{NoMemory, ObjectBody, Units, Value};
use machine_state::{Answer, Effect, Effects, Served, Wish};
use program_image::Image;
use std::alloc::Global;

/// What serves a request: the program, what its objects hold at first, which names are taken, and which
/// choice is followed.
#[derive(Drop)]
pub struct Server<'a, N> {
    pub image: &'a Image,
    pub blanks: &'a Blanks,
    pub names: &'a N,
    pub wish: Wish,
}

/// The effects of an exception that is made, and a further one.
fn fault_effects(made: Effect, more: Option<Effect>) -> Effects
    ensures { (heap : Heap) → changes_of heap result ≡ change_of heap made
        ∷ map (change_of heap) (option_to_list more) }
{
    match more {
        None => Effects::One(made),
        Some(more) => Effects::Two(made, more),
    }
}

/// An exception of a class is made and raised, with a further effect.
pub(crate) fn fault_with<N: Names>(
    alloc: Global,
    server: &Server<N>,
    class: u32,
    more: Option<Effect>,
) -> Result<Served, NoMemory>
    requires { AreBlanks server.now.image.now server.now.blanks.now }
    ensures { IfOk result (λ s. Tells (N.heap server.now.names.now) server.now.wish
        (with_changes (map (change_of (N.heap server.now.names.now)) (option_to_list more))
        (faulted server.now.image.now s.choice.name class)) s) }
{
    let choice = making_choice(server.wish, class);
    let body = ObjectBody::Fields(server.blanks.zeros(alloc, server.image, class)?);
    let effects = fault_effects(Effect::Made(choice.name, body), more);
    Ok(making(
        server.names,
        choice,
        class,
        effects,
        Answer::Raises(choice.name),
    ))
}

/// An exception of a class is made and raised.
pub(crate) fn fault<N: Names>(
    alloc: Global,
    server: &Server<N>,
    class: u32,
) -> Result<Served, NoMemory>
    requires { AreBlanks server.now.image.now server.now.blanks.now }
    ensures { IfOk result (λ s. Tells (N.heap server.now.names.now) server.now.wish
        (faulted server.now.image.now s.choice.name class) s) }
{
    fault_with(alloc, server, class, None)
}

/// A String of these units is made.
pub(crate) fn text<N: Names>(server: &Server<N>, units: Units) -> Served
    ensures { (reads : List (Place × Held)) → Tells (N.heap server.now.names.now) server.now.wish
        (making_text result.choice.name reads units) result }
{
    let choice = making_choice(server.wish, STRING);
    let effects = Effects::One(Effect::Made(choice.name, ObjectBody::Text(units)));
    let answer = Answer::Gives(Some(Value::Ref(choice.name)));
    making(server.names, choice, STRING, effects, answer)
}
