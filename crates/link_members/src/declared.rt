//! What a class may declare.

ghost use Rattle.std.specs.Prelude.{◌≡◌};
ghost use Rattle.std.specs.List.{flat_map};
ghost use Rattle.link_rules.specs.Answers.{IsAnswer};
ghost use Rattle.link_rules.specs.Members.{method_name, method_desc, wrong_field, is_wrong_method, wrong_method, wrong_members};

use class_format::{
    ABSTRACT, ClassFile, FieldItem, INTERFACE, MethodItem, NATIVE, STATIC, has_flag,
};
use class_names::{is_clinit, text};
use link_rules::{LinkErr, LinkWhy, refuse_member_if};
use std::alloc::Global;

/// The name of a method.
pub(crate) fn method_name<'a>(file: &'a ClassFile, method: &MethodItem) -> &'a [u16]
    ensures { result.now ≡ method_name file.now method.now }
{
    text(file.pool.as_slice(), method.name)
}

/// The text of a method's descriptor.
pub(crate) fn method_desc<'a>(file: &'a ClassFile, method: &MethodItem) -> &'a [u16]
    ensures { result.now ≡ method_desc file.now method.now }
{
    text(file.pool.as_slice(), method.desc)
}

#[tactic(auto, unfolding(link_rules::specs::Members::wrong_field))]
fn check_field(alloc: Global, file: &ClassFile, field: &FieldItem) -> Result<(), LinkErr>
    ensures { IsAnswer (wrong_field file.now field.now) result }
{
    let is_wrong = has_flag(file.flags, INTERFACE) && !has_flag(field.flags, STATIC);
    let name = text(file.pool.as_slice(), field.name);
    let desc = text(file.pool.as_slice(), field.desc);
    refuse_member_if(alloc, is_wrong, LinkWhy::WrongKind, file, name, desc)
}

#[tactic(auto, using(link_rules::proofs::Firsts::items_break))]
fn check_fields(alloc: Global, file: &ClassFile, fields: &[FieldItem]) -> Result<(), LinkErr>
    ensures { IsAnswer (flat_map (wrong_field file.now) fields.now) result }
{
    for field in fields {
        check_field(alloc, file, field)?;
    }
    Ok(())
}

fn is_wrong_method(file: &ClassFile, method: &MethodItem) -> bool
    ensures { result ≡ is_wrong_method file.now method.now }
{
    has_flag(method.flags, NATIVE)
        || has_flag(file.flags, INTERFACE)
            && !has_flag(method.flags, ABSTRACT)
            && !is_clinit(method_name(file, method))
}

#[tactic(auto, unfolding(link_rules::specs::Members::wrong_method))]
fn check_method(alloc: Global, file: &ClassFile, method: &MethodItem) -> Result<(), LinkErr>
    ensures { IsAnswer (wrong_method file.now method.now) result }
{
    let is_wrong = is_wrong_method(file, method);
    let name = method_name(file, method);
    let desc = method_desc(file, method);
    refuse_member_if(alloc, is_wrong, LinkWhy::WrongKind, file, name, desc)
}

#[tactic(auto, using(link_rules::proofs::Firsts::places_break))]
fn check_methods(alloc: Global, file: &ClassFile, methods: &[MethodItem]) -> Result<(), LinkErr>
    ensures { IsAnswer (flat_map (wrong_method file.now) methods.now) result }
{
    for method in methods {
        check_method(alloc, file, method)?;
    }
    Ok(())
}

#[tactic(auto, using(link_rules::proofs::Firsts::answer_back), unfolding(link_rules::specs::Members::wrong_members))]
fn check_members(alloc: Global, file: &ClassFile) -> Result<(), LinkErr>
    ensures { IsAnswer (wrong_members file.now) result }
{
    check_fields(alloc, file, file.fields.as_slice())?;
    check_methods(alloc, file, file.methods.as_slice())
}

/// No method is native, and an interface declares only what it may.
#[tactic(auto, using(link_rules::proofs::Firsts::places_break))]
pub fn check_declared(alloc: Global, files: &[ClassFile]) -> Result<(), LinkErr>
    ensures { IsAnswer (flat_map wrong_members files.now) result }
{
    for file in files {
        check_members(alloc, file)?;
    }
    Ok(())
}
