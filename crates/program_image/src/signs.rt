//! Names and descriptors of methods as numbers.

ghost use Rattle.std.specs.Prelude.{IfOk};
ghost use Rattle.program_image.specs.Built.Signs.{AreSigns};

use crate::info::MethodInfo;
use jvm_base::{List, NoMemory};
use numbering::Numbers;
use std::alloc::Global;

/// For each method the number of its name and that of its descriptor. Two methods have the same
/// numbers exactly where they have one name and one descriptor.
pub(crate) fn signs(alloc: Global, methods: &[MethodInfo]) -> Result<List<(usize, usize)>, NoMemory>
    ensures { IfOk result (λ signs. AreSigns methods.now signs) }
{
    let mut names = Numbers::new(alloc);
    let mut descs = Numbers::new(alloc);
    let mut signs = List::new(alloc);
    for method in methods {
        let name = names.number(method.name.get())?;
        let desc = descs.number(method.desc.get())?;
        signs.push((name, desc))?;
    }
    Ok(signs)
}
