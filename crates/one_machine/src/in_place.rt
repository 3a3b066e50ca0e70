//! A frame's instruction that touches nothing else, done in place and without a plan.

ghost use Rattle.std.specs.Prelude.{◌≡◌, is_some};
ghost use Rattle.jvm_base.specs.Words.{from};
ghost use Rattle.jvm_base.specs.declared.frame.Phase.TheVariants as phase;
ghost use Rattle.frame_ops.specs.Stepping.{CanRun};
ghost use Rattle.program_reads.specs.Whole.{IsWhole};
ghost use Rattle.step_plan.specs.Condition.{CanPlanIn};
ghost use Rattle.one_machine.specs.InPlace.{body_next, frame_next, placed_next};

use code_table::Placed;
use frame_ops::{Given, Pure, step_at};
use jvm_base::{Frame, Phase};
use program_image::Image;
use program_reads::instruction_near;
use step_plan::given_to;

/// The frame goes on, if its instruction touches nothing else.
fn move_placed(placed: &Placed, frame: &mut Frame, given: Given) -> bool
    requires { CanRun placed.now given frame.old }
    ensures moved { result ≡ is_some (placed_next placed.now given frame.old) }
    ensures frame { frame.new
        ≡ from frame.old (λ f. f) (placed_next placed.now given frame.old) }
{
    matches!(step_at(placed, frame, given), Pure::Next)
}

/// The frame goes on at its instruction.
fn move_body(image: &Image, frame: &mut Frame, place: &mut usize) -> bool
    requires whole { IsWhole image.now }
    requires body { frame.old.phase ≡ phase.Body }
    requires can { CanPlanIn image.now frame.old }
    ensures moved { result ≡ is_some (body_next image.now frame.old) }
    ensures frame { frame.new ≡ from frame.old (λ f. f) (body_next image.now frame.old) }
{
    let Some(placed) = instruction_near(image, frame.method, frame.at, place) else {
        return false;
    };
    let given = given_to(image, frame, &placed.op);
    move_placed(placed, frame, given)
}

/// The frame goes on, where it runs its code. The instruction is looked for at the place first.
pub(crate) fn move_frame(image: &Image, frame: &mut Frame, place: &mut usize) -> bool
    requires whole { IsWhole image.now }
    requires can { CanPlanIn image.now frame.old }
    ensures moved { result ≡ is_some (frame_next image.now frame.old frame.old.phase) }
    ensures frame { frame.new
        ≡ from frame.old (λ f. f) (frame_next image.now frame.old frame.old.phase) }
{
    match frame.phase {
        Phase::Body => move_body(image, frame, place),
        _ => false,
    }
}
