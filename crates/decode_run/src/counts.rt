//! How much the code of a class's methods is decoded to.

ghost use Rattle.std.specs.Prelude.{◌≡◌, ◌+◌, min, IfOk, IfErr, Ok};
ghost use Rattle.jvm_base.specs.Told.{Gives, itself};
ghost use Rattle.code_table.specs.Told.{told};
ghost use Rattle.std.specs.Option.{unwrap_or};
ghost use Rattle.decode_run.specs.Counts.{instructions_of, one_if, most, IsCounted, IsRefusedAt};

use class_file::MethodItem;
use code_table::{CodeErr, Descs, decode_code_with};
use std::alloc::Global;

/// How many methods have code, and how many instructions all of it is. Each is `usize::MAX` where it
/// would be more.
#[derive(Clone, Copy, Debug, PartialEq, Eq)]
pub(crate) struct Counts {
    pub(crate) methods: usize,
    pub(crate) instructions: usize,
}

/// The first method, counted from 0, whose code isn't decoded, and why.
#[derive(Clone, Copy, Debug, PartialEq, Eq)]
pub(crate) struct Refused {
    pub(crate) method: usize,
    pub(crate) why: CodeErr,
}

impl Counts {
    /// With one more method, which has so many instructions, or no code.
    fn with(self, instructions: Option<usize>) -> Counts
        ensures methods { result.methods ≡ min (self.methods + one_if instructions) most }
        ensures instructions { result.instructions ≡ min (self.instructions + unwrap_or instructions 0) most }
    {
        match instructions {
            Some(instructions) => Counts {
                methods: self.methods.saturating_add(1),
                instructions: self.instructions.saturating_add(instructions),
            },
            None => self,
        }
    }
}

/// How many instructions the code of a method has, if it has code.
fn instructions(
    alloc: Global,
    method: &MethodItem,
    descs: &Descs<'_>,
) -> Result<Option<usize>, CodeErr>
    ensures { Gives told itself result (instructions_of descs.now method.now.code) }
{
    match &method.code {
        Some(item) => {
            let code = decode_code_with(alloc, item, descs)?;
            Ok(Some(code.ops.len()))
        }
        None => Ok(None),
    }
}

/// Decodes the code of each method and counts it.
pub(crate) fn count_all(
    alloc: Global,
    methods: &[MethodItem],
    descs: &Descs<'_>,
) -> Result<Counts, Refused>
    ensures counted { IfOk result (IsCounted descs.now methods.now) }
    ensures refused { IfErr result (IsRefusedAt descs.now methods.now) }
{
    let mut counts = Counts {
        methods: 0,
        instructions: 0,
    };
    for at in 0..methods.len() {
        match instructions(alloc, &methods[at], descs) {
            Ok(count) => counts = counts.with(count),
            Err(why) => return Err(Refused { method: at, why }),
        }
    }
    Ok(counts)
}
