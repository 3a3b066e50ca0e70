//! The classes of a program by name.

ghost use Rattle.std.specs.Prelude.{◌≡◌, ◌++◌, [], map, IfOk};
ghost use Rattle.std.specs.List.{flat_map};
ghost use Rattle.boot_table.specs.Files.{boot_files};
ghost use Rattle.class_names.specs.Classes.{this_name, codes_of};
ghost use Rattle.link_rules.specs.Answers.{IsAnswer};
ghost use Rattle.link_rules.specs.Classes.{same_class, no_class};
ghost use Rattle.class_link.specs.Refusals.{name_refusals};

use class_format::ClassFile;
use class_names::Names;
use code_table::Code;
use jvm_base::List;
use link_rules::{LinkErr, Program, add_files, check_files};
use std::alloc::Global;

/// The names of all classes. No two boot classes have one name.
#[tactic(auto, using(crate::proofs::Stages::none_first, crate::proofs::BootLaws::boot_apart, crate::proofs::Stages::names_joined))]
fn all_names<'a>(
    alloc: Global,
    boot: &'a [ClassFile],
    files: &'a [ClassFile],
) -> Result<Names<'a>, LinkErr>
    requires { boot.now ≡ boot_files }
    ensures names { IfOk result (λ names. names ≡ map this_name (boot.now ++ files.now)) }
    ensures answer { IsAnswer (same_class (map this_name boot.now) files.now) result }
{
    let mut names = Names::new(alloc);
    add_files(alloc, &mut names, boot)?;
    add_files(alloc, &mut names, files)?;
    Ok(names)
}

/// The program of the boot classes and the files, of which each has a name of its own and names only
/// classes that are there.
#[tactic(auto, using(link_rules::proofs::Firsts::answer_back), unfolding(crate::specs::Refusals::name_refusals))]
pub(crate) fn named_program<'a>(
    alloc: Global,
    boot: &'a [ClassFile],
    files: &'a [ClassFile],
    codes: &[List<Option<Code>>],
) -> Result<Program<'a>, LinkErr>
    requires boot { boot.now ≡ boot_files }
    requires codes { codes.now ≡ map codes_of files.now }
    ensures program { IfOk result (λ program. program ≡ boot.now ++ files.now) }
    ensures answer { IsAnswer (name_refusals boot.now files.now) result }
{
    let names = all_names(alloc, boot, files)?;
    check_files(alloc, &names, files, codes)?;
    Ok(Program::new(boot, files, names))
}
