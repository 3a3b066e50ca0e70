//! How many classes there are, array classes among them.

ghost use Rattle.std.specs.Prelude.{◌≡◌, ◌≤◌, length, map, IfOk};
ghost use Rattle.class_names.specs.Classes.{codes_of};
ghost use Rattle.link_arrays.specs.Arrays.{array_types};
ghost use Rattle.link_rules.specs.Answers.{IsAnswer};
ghost use Rattle.class_link.specs.Refusals.{too_many_classes};

use crate::main_class::refusal;
use crate::tables::FIRST;
use class_format::ClassFile;
use code_table::Code;
use jvm_base::List;
use link_arrays::{Arrays, ArraysErr};
use link_rules::{LinkErr, LinkWhy};
use std::alloc::Global;

/// The array types that the files name. With their classes there aren't too many.
pub(crate) fn array_types(
    alloc: Global,
    files: &[ClassFile],
    codes: &[List<Option<Code>>],
    main: &[u16],
) -> Result<Arrays, LinkErr>
    requires few { length files.now ≤ 1024 }
    requires codes { codes.now ≡ map codes_of files.now }
    ensures types { IfOk result (λ types. types ≡ array_types files.now) }
    ensures answer { IsAnswer (too_many_classes files.now main.now) result }
{
    let declared = FIRST as usize + files.len();
    match Arrays::of(alloc, declared, files, codes) {
        Ok(arrays) => Ok(arrays),
        Err(ArraysErr::TooMany) => Err(refusal(alloc, LinkWhy::TooMany, main, &[])?),
        Err(ArraysErr::NoMemory) => Err(LinkErr::NoMemory),
    }
}
