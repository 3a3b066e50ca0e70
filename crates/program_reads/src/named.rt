//! What the machine itself names in a program.

ghost use Rattle.std.specs.Prelude.{◌≡◌, ◌+◌, length, slice_get, IfOk, Some, codes};
ghost use Rattle.program_image.specs.Signatures.{same_text};
ghost use Rattle.instruction_table.specs.ClassTypes.{name_of};
ghost use Rattle.machine_state.specs.Classes.{thread_run};
ghost use Rattle.machine_state.specs.PreMade.{arguments, behind_literals};
ghost use Rattle.program_reads.specs.Kept.{AreOver};
ghost use Rattle.program_reads.specs.Whole.{IsWhole};

use crate::boot::{STRING, THREAD};
use crate::lookups::NO_NODE;
use jvm_base::{Name, NoMemory};
use program_image::Image;

/// The name of what a thread runs.
const RUN: [u16; 3] = [114, 117, 110];

/// Whether a method is called `run`.
fn is_run(image: &Image, method: u32) -> bool
    ensures { result ≡ same_text (name_of image.now method) (codes "run") }
{
    method < image.methods() && image.method(method).name.get().as_slice() == RUN.as_slice()
}

/// `run` of `java/lang/Thread`.
pub(crate) fn run(image: &Image) -> u32
    requires { IsWhole image.now }
    ensures { result ≡ thread_run image.now }
{
    let methods = image.class(THREAD).methods.as_slice();
    for method in methods {
        if is_run(image, *method) {
            return *method;
        }
    }
    0
}

/// The number of the array that `main` is given. So many literals that it had no number would be
/// want of memory.
fn arguments_index(image: &Image) -> Result<u32, NoMemory>
    ensures { IfOk result (λ index. index ≡ behind_literals image.now + 1) }
{
    let Ok(literals) = u32::try_from(image.literals().len()) else {
        return Err(NoMemory);
    };
    let Some(behind) = image.classes().checked_add(literals) else {
        return Err(NoMemory);
    };
    match behind.checked_add(1) {
        Some(index) => Ok(index),
        None => Err(NoMemory),
    }
}

/// The array that `main` is given.
pub(crate) fn arguments(image: &Image, over: &[u32]) -> Result<Name, NoMemory>
    requires whole { IsWhole image.now }
    requires over { AreOver image.now over.now }
    ensures { IfOk result (λ name. name ≡ arguments image.now) }
{
    let index = arguments_index(image)?;
    Ok(Name {
        node: NO_NODE,
        class: over[STRING as usize],
        index,
    })
}
