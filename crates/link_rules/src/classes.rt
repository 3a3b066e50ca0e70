//! Rules on classes as wholes: their names, their superclasses and interfaces.

ghost use Rattle.std.specs.Prelude.{◌≡◌, ◌++◌, [], map, IfOk};
ghost use Rattle.std.specs.List.{flat_map};
ghost use Rattle.class_names.specs.Classes.{this_name};
ghost use Rattle.class_names.specs.Named.{named_by, desc_names, op_names, entry_names, field_names, method_names, method_desc_names};
ghost use Rattle.link_rules.specs.Answers.{IsAnswer};
ghost use Rattle.link_rules.specs.Classes.{same_class, missing, no_class};

use crate::error::{LinkErr, LinkWhy};
use crate::refuse::refuse_class_if;
use class_format::ClassFile;
use class_names::{Names, this_name};
use std::alloc::Global;

/// Adds the names of some classes, each of which is new.
#[tactic(auto, using(crate::proofs::Firsts::first_front))]
pub fn add_files<'a>(
    alloc: Global,
    names: &mut Names<'a>,
    files: &'a [ClassFile],
) -> Result<(), LinkErr>
    ensures named { IfOk result (λ _. names.new ≡ names.old ++ map this_name files.now) }
    ensures answer { IsAnswer (same_class names.old files.now) result }
{
    for file in files {
        let fresh = names.add(this_name(file))?;
        refuse_class_if(alloc, !fresh, LinkWhy::SameClass, file, this_name(file))?;
    }
    Ok(())
}
