//! A thread after its answer.

ghost use Rattle.std.specs.Prelude.{◌≡◌, ◌<◌, true, reverse, vec_len, vec_capacity};
ghost use Rattle.machine_state.specs.declared.request.Answer.TheVariants.{Gives};
ghost use Rattle.machine_state.specs.Complete.{complete, below_init, after_init};
ghost use Rattle.step_complete.specs.Asked.{request_like};
ghost use Rattle.program_reads.specs.Whole.{IsWhole};
ghost use Rattle.step_complete.specs.Condition.{CanTurn, CanComplete, given_turn, begins};

use crate::asked::Asked;
use crate::turns::{Turn, turn_top};
use jvm_base::{Level, Value};
use machine_state::{Answer, Mode};
use program_image::Image;

/// An initialisation on top goes.
fn drop_init(levels: &mut Vec<Level>)
    ensures { reverse levels.new.items ≡ below_init (reverse levels.old.items) }
{
    if let Some(Level::Init { .. }) = levels.last() {
        levels.pop();
    }
}

/// Where the last initialisation has gone, the thread is about to enter again.
fn after_init(levels: &[Level]) -> Mode
    ensures { result ≡ after_init (reverse levels.now) }
{
    if levels.is_empty() {
        Mode::Entry
    } else {
        Mode::Running
    }
}

/// After a value, or after none.
#[tactic(auto, unfolding(machine_state::specs::Complete::complete))]
fn give(image: &Image, asked: Asked, value: Option<Value>, mode: &mut Mode, levels: &mut Vec<Level>)
    requires whole { IsWhole image.now }
    requires can { CanTurn image.now (given_turn asked value) (reverse levels.old.items) }
    requires room { begins asked (Gives value) ≡ true
        → vec_len levels.old < vec_capacity levels.old }
    ensures { complete image.now (request_like asked) (Gives value) mode.old
        (reverse levels.old.items)
        ≡ (mode.new, reverse levels.new.items) }
{
    match asked {
        Asked::Enter => turn_top(image, Turn::Enters, levels),
        Asked::Exit { raising: true } => turn_top(image, Turn::Unlocks, levels),
        Asked::Exit { raising: false } => turn_top(image, Turn::Leaves, levels),
        Asked::Wait(_) => {
            turn_top(image, Turn::Answers(value), levels);
            *mode = Mode::Running;
        }
        Asked::Begin(class) => {
            levels.push_reserved(Level::Init {
                class,
                begun: false,
            });
            *mode = Mode::Running;
        }
        Asked::InitDone => {
            drop_init(levels);
            *mode = after_init(levels.as_slice());
        }
        Asked::InitFail => drop_init(levels),
        Asked::Finish => {}
        Asked::Other => turn_top(image, Turn::Answers(value), levels),
    }
}

/// A thread's mode and levels after an answer. It takes no memory: where a class's initialisation
/// begins, room for a level was made before.
#[tactic(auto, unfolding(machine_state::specs::Complete::complete))]
pub fn complete(
    image: &Image,
    asked: Asked,
    answer: Answer,
    mode: &mut Mode,
    levels: &mut Vec<Level>,
)
    requires whole { IsWhole image.now }
    requires can { CanComplete image.now asked answer (reverse levels.old.items) }
    requires room { begins asked answer ≡ true → vec_len levels.old < vec_capacity levels.old }
    ensures { complete image.now (request_like asked) answer mode.old (reverse levels.old.items)
        ≡ (mode.new, reverse levels.new.items) }
{
    match (answer, asked) {
        (Answer::Gives(value), _) => give(image, asked, value, mode, levels),
        (Answer::Raises(exception), Asked::InitFail) => {
            drop_init(levels);
            *mode = Mode::Raising(exception);
        }
        (Answer::Raises(exception), _) => *mode = Mode::Raising(exception),
        (Answer::Slept(count), Asked::Wait(lock)) => {
            turn_top(image, Turn::Answers(None), levels);
            *mode = Mode::Waiting { lock, count };
        }
        (Answer::Slept(_), _) => {}
    }
}
