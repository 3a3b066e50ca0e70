//! Tables of what is looked for in a program.

ghost use Rattle.std.specs.Prelude.{◌≡◌, ◌<◌, length, IfOk};
ghost use Rattle.program_image.specs.Program.{Program};
ghost use Rattle.machine_state.specs.Classes.{array_class_of, array_class_over, is_constant, thread_run};
ghost use Rattle.machine_state.specs.PreMade.{arguments};
ghost use Rattle.program_reads.specs.Kept.{IsKept};
ghost use Rattle.program_reads.specs.Whole.{IsWhole};

use crate::arrays::{kinds, over};
use crate::constants::{constants, has_constant};
use crate::named::{arguments, run};
use jvm_base::{List, Name, NoMemory};
use program_image::Image;
use std::alloc::Global;

/// What is looked for in a program, found once. `kinds` has the classes of arrays of the kinds of
/// `newarray`, by their numbers; `over` for each class the class of arrays of it; `constants` for each
/// class by its statics' places whether they are final with a constant.
#[derive(Drop)]
pub struct Tables {
    kinds: List<u32>,
    over: List<u32>,
    constants: List<List<bool>>,
    run: u32,
    arguments: Name,
}

impl Tables {
    /// The tables of a program.
    pub fn new(alloc: Global, image: &Image) -> Result<Tables, NoMemory>
        requires { IsWhole image.now }
        ensures { IfOk result (λ tables. IsKept image.now tables) }
    {
        let kinds = kinds(alloc, image)?;
        let over = over(alloc, image)?;
        let constants = constants(alloc, image)?;
        let arguments = arguments(image, over.as_slice())?;
        Ok(Tables {
            kinds,
            over,
            constants,
            run: run(image),
            arguments,
        })
    }

    /// The class of arrays of the kind that `newarray` has under a number.
    pub fn array_of(&self, kind: u8) -> u32
        ensures { (p : Program) → IsKept p self.now → result ≡ array_class_of p kind }
    {
        match self.kinds.get(kind as usize) {
            Some(class) => *class,
            None => 0,
        }
    }

    /// The class of arrays of a class.
    pub fn array_over(&self, class: u32) -> u32
        ensures { (p : Program) → IsKept p self.now → class < length p.classes → result
            ≡ array_class_over p class }
    {
        match self.over.get(class as usize) {
            Some(array) => *array,
            None => 0,
        }
    }

    /// Whether the static at a place of a class is final and has a constant. Only a place that no
    /// field has is looked for in the fields.
    #[tactic(auto, using(crate::proofs::MarkLaws::mark_is))]
    pub fn is_constant(&self, image: &Image, class: u32, place: u32) -> bool
        requires { IsKept image.now self.now }
        ensures { result ≡ is_constant image.now class place }
    {
        let Some(marks) = self.constants.get(class as usize) else {
            return false;
        };
        match marks.get(place as usize) {
            Some(mark) => *mark,
            None => has_constant(image.class(class).fields.as_slice(), place),
        }
    }

    /// The number of `run` of `java/lang/Thread`.
    pub fn run(&self) -> u32
        ensures { (p : Program) → IsKept p self.now → result ≡ thread_run p }
    {
        self.run
    }

    /// The array that `main` is given.
    pub fn arguments(&self) -> Name
        ensures { (p : Program) → IsKept p self.now → result ≡ arguments p }
    {
        self.arguments
    }
}
