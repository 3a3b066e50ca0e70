//! How a thread goes on after its step.

ghost use Rattle.std.specs.Prelude.{◌≡◌, ◌∷◌, ◌<◌, reverse, vec_len, vec_capacity};
ghost use Rattle.jvm_base.specs.declared.frame.Level.TheVariants.{Code};
ghost use Rattle.machine_state.specs.Frames.{noted};
ghost use Rattle.program_reads.specs.Whole.{IsWhole};
ghost use Rattle.step_after.specs.Going.{stand_of, CanGoOn};

use jvm_base::{Frame, Level, Name, Value};
use machine_state::{Answer, Mode};
use program_image::Image;
use step_complete::{Asked, Turn, complete, drop_top, leave, turn_top};

/// How a thread goes on: its top frame changes; it throws; it calls, with this frame; its top frame
/// leaves with a result, or is dropped; what it asked is answered; or it has its lock again.
#[derive(Drop)]
pub enum After {
    Turns(Turn),
    Throws(Name),
    Calls(Frame),
    Leaves(Option<Value>),
    Drops,
    Completes(Asked),
    Retakes,
}

/// A frame is put on top; an initialisation below notes that its initialiser was called.
fn call(image: &Image, frame: Frame, levels: &mut Vec<Level>)
    requires whole { IsWhole image.now }
    requires room { vec_len levels.old < vec_capacity levels.old }
    ensures { reverse levels.new.items ≡ Code frame ∷ noted (reverse levels.old.items) }
{
    turn_top(image, Turn::Notes, levels);
    levels.push_reserved(Level::Code(frame));
}

/// The thread goes on so, after an answer. It takes no memory: room for a level was made before.
#[tactic(auto, unfolding(crate::specs::Going::stand_of))]
pub fn go_on(image: &Image, after: After, answer: Answer, mode: &mut Mode, levels: &mut Vec<Level>)
    requires whole { IsWhole image.now }
    requires can { CanGoOn image.now after answer (reverse levels.old.items) }
    requires room { vec_len levels.old < vec_capacity levels.old }
    ensures { stand_of image.now after answer mode.old (reverse levels.old.items)
        ≡ (mode.new, reverse levels.new.items) }
{
    match after {
        After::Turns(turn) => {
            turn_top(image, turn, levels);
            *mode = Mode::Running;
        }
        After::Throws(exception) => *mode = Mode::Raising(exception),
        After::Calls(frame) => {
            call(image, frame, levels);
            *mode = Mode::Running;
        }
        After::Leaves(value) => leave(image, value, levels),
        After::Drops => drop_top(levels),
        After::Completes(asked) => complete(image, asked, answer, mode, levels),
        After::Retakes => *mode = Mode::Running,
    }
}
