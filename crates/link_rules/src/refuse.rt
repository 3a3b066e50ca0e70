//! Refusals of a file.

ghost use Rattle.std.specs.Prelude.{◌≡◌, ◌++◌, ◌∷◌, [], IfOk};
ghost use Rattle.link_rules.specs.Answers.{IsAnswer, IsFirst, refusal, refused_if};

use crate::error::{LinkErr, LinkWhy};
use class_format::ClassFile;
use class_names::this_name;
use jvm_base::{NoMemory, Units};
use std::alloc::Global;

/// A text behind another.
fn joined(alloc: Global, text: &[u16], more: &[u16]) -> Result<Units, NoMemory>
    ensures { IfOk result (λ u. u ≡ text.now ++ more.now) }
{
    let mut units = Vec::from_slice(alloc, text)?;
    units.extend_from_slice(more)?;
    Units::from_slice(alloc, &units)
}

fn refusal(alloc: Global, why: LinkWhy, file: &ClassFile, other: Units) -> Result<LinkErr, NoMemory>
    ensures { IfOk result (λ e. e ≡ refusal why file.now other) }
{
    Ok(LinkErr::Bad {
        why,
        class: Units::from_slice(alloc, this_name(file))?,
        other,
    })
}

fn refuse(alloc: Global, why: LinkWhy, file: &ClassFile, other: &[u16], more: &[u16]) -> LinkErr
    ensures { IsFirst (refusal why file.now (other.now ++ more.now) ∷ []) result }
{
    let other = match joined(alloc, other, more) {
        Ok(other) => other,
        Err(_) => return LinkErr::NoMemory,
    };
    match refusal(alloc, why, file, other) {
        Ok(refusal) => refusal,
        Err(_) => LinkErr::NoMemory,
    }
}

/// Refuses a file for a class, where a test says so.
#[tactic(auto, using(crate::proofs::Firsts::alone))]
pub fn refuse_class_if(
    alloc: Global,
    broken: bool,
    why: LinkWhy,
    file: &ClassFile,
    class: &[u16],
) -> Result<(), LinkErr>
    ensures { IsAnswer (refused_if broken why file.now class.now) result }
{
    if broken {
        Err(refuse(alloc, why, file, class, &[]))
    } else {
        Ok(())
    }
}

/// Refuses a file for a member, where a test says so.
pub fn refuse_member_if(
    alloc: Global,
    broken: bool,
    why: LinkWhy,
    file: &ClassFile,
    name: &[u16],
    desc: &[u16],
) -> Result<(), LinkErr>
    ensures { IsAnswer (refused_if broken why file.now (name.now ++ desc.now)) result }
{
    if broken {
        Err(refuse(alloc, why, file, name, desc))
    } else {
        Ok(())
    }
}
