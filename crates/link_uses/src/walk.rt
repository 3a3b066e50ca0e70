//! One walk over the code of files, for the rules that look at instructions alone.

ghost use Rattle.std.specs.Prelude.{◌≡◌, map, IfOk};
ghost use Rattle.std.specs.List.{flat_map};
ghost use Rattle.class_names.specs.Classes.{code_of, codes_of};
ghost use Rattle.link_rules.specs.Answers.{IsAnswer};
ghost use Rattle.link_uses.specs.Items.{AreItems, HaveItems};
ghost use Rattle.link_uses.specs.Told.{AreTold};
ghost use Rattle.link_uses.specs.Uses.{no_members, wrong_uses};
ghost use Rattle.link_uses.specs.Walk.{broken, broken_placed, broken_in, broken_file};

use crate::lookup::{Found, Resolver};
use crate::told::Told;
use crate::{kinds, missing};
use class_format::{ClassFile, MethodItem};
use code_table::{Code, Op, Placed};
use jvm_base::{List, NoMemory, PoolItem};
use link_rules::{LinkErr, Program, ops};
use std::alloc::Global;

/// A rule on instructions: that members are found, or that what is used is of the right kind.
#[derive(Clone, Copy)]
pub(crate) enum Rule {
    Members,
    Kinds,
}

fn check_op(
    alloc: Global,
    resolver: &Resolver,
    rule: Rule,
    file: &ClassFile,
    items: &[Option<Found>],
    told: &Told,
    op: &Op,
) -> Result<(), LinkErr>
    requires items { AreItems resolver.now file.now.pool items.now }
    requires told { AreTold resolver.now file.now.pool told.now }
    ensures { IsAnswer (broken rule resolver.now file.now op.now) result }
{
    match rule {
        Rule::Members => missing::check_op(alloc, resolver, file, items, op),
        Rule::Kinds => kinds::check_op(alloc, resolver, file, items, told, op),
    }
}

#[tactic(auto, using(link_rules::proofs::Firsts::places_break))]
fn check_ops(
    alloc: Global,
    resolver: &Resolver,
    rule: Rule,
    file: &ClassFile,
    items: &[Option<Found>],
    told: &Told,
    ops: &[Placed],
) -> Result<(), LinkErr>
    requires items { AreItems resolver.now file.now.pool items.now }
    requires told { AreTold resolver.now file.now.pool told.now }
    ensures { IsAnswer (flat_map (broken_placed rule resolver.now file.now) ops.now) result }
{
    for placed in ops {
        check_op(alloc, resolver, rule, file, items, told, &placed.op)?;
    }
    Ok(())
}

#[tactic(auto, unfolding(crate::specs::Walk::broken_in))]
fn check_method(
    alloc: Global,
    resolver: &Resolver,
    rule: Rule,
    file: &ClassFile,
    items: &[Option<Found>],
    told: &Told,
    method: &MethodItem,
    code: &Option<Code>,
) -> Result<(), LinkErr>
    requires code { code.now ≡ code_of file.now.pool method.now }
    requires items { AreItems resolver.now file.now.pool items.now }
    requires told { AreTold resolver.now file.now.pool told.now }
    ensures { IsAnswer (broken_in rule resolver.now file.now method.now) result }
{
    let _flags = method.flags;
    check_ops(alloc, resolver, rule, file, items, told, ops(code))
}

/// What is told of the texts of a pool, as far as the rule asks it.
fn told_for(
    alloc: Global,
    rule: Rule,
    program: &Program,
    pool: &[PoolItem],
) -> Result<Told, NoMemory>
    ensures { IfOk result (λ told. AreTold program.now pool.now told) }
{
    match rule {
        Rule::Members => Ok(Told::nothing(alloc, program, pool)),
        Rule::Kinds => Told::new(alloc, program, pool),
    }
}

#[tactic(auto, using(link_rules::proofs::Firsts::places_break), unfolding(crate::specs::Walk::broken_file))]
fn check_file(
    alloc: Global,
    resolver: &Resolver,
    rule: Rule,
    file: &ClassFile,
    items: &[Option<Found>],
    codes: &[Option<Code>],
) -> Result<(), LinkErr>
    requires items { AreItems resolver.now file.now.pool items.now }
    requires codes { codes.now ≡ codes_of file.now }
    ensures { IsAnswer (broken_file rule resolver.now file.now) result }
{
    let told = told_for(alloc, rule, resolver.program(), file.pool.as_slice())?;
    let methods = file.methods.as_slice();
    for i in 0..methods.len() {
        let (method, code) = (&methods[i], &codes[i]);
        check_method(alloc, resolver, rule, file, items, &told, method, code)?;
    }
    Ok(())
}

/// No instruction of the files breaks the rule.
#[tactic(auto, using(link_rules::proofs::Firsts::places_break, crate::proofs::ItemLaws::items_at))]
fn check_files(
    alloc: Global,
    resolver: &Resolver,
    rule: Rule,
    files: &[ClassFile],
    items: &[List<Option<Found>>],
    codes: &[List<Option<Code>>],
) -> Result<(), LinkErr>
    requires items { HaveItems resolver.now files.now items.now }
    requires codes { codes.now ≡ map codes_of files.now }
    ensures { IsAnswer (flat_map (broken_file rule resolver.now) files.now) result }
{
    for i in 0..files.len() {
        let (file, found) = (&files[i], items[i].as_slice());
        check_file(alloc, resolver, rule, file, found, codes[i].as_slice())?;
    }
    Ok(())
}

/// Each field and method that the files' code uses is found.
#[tactic(auto, unfolding(crate::specs::Uses::lacking_in, crate::specs::Uses::no_members, crate::specs::Walk::broken_in, crate::specs::Walk::broken_file))]
pub fn check_members(
    alloc: Global,
    resolver: &Resolver,
    files: &[ClassFile],
    items: &[List<Option<Found>>],
    codes: &[List<Option<Code>>],
) -> Result<(), LinkErr>
    requires items { HaveItems resolver.now files.now items.now }
    requires codes { codes.now ≡ map codes_of files.now }
    ensures { IsAnswer (flat_map (no_members resolver.now) files.now) result }
{
    check_files(alloc, resolver, Rule::Members, files, items, codes)
}

/// What the files' code uses is of the kind that its instruction asks.
#[tactic(auto, unfolding(crate::specs::Uses::wrong_uses_in, crate::specs::Uses::wrong_uses, crate::specs::Walk::broken_in, crate::specs::Walk::broken_file))]
pub fn check_uses(
    alloc: Global,
    resolver: &Resolver,
    files: &[ClassFile],
    items: &[List<Option<Found>>],
    codes: &[List<Option<Code>>],
) -> Result<(), LinkErr>
    requires items { HaveItems resolver.now files.now items.now }
    requires codes { codes.now ≡ map codes_of files.now }
    ensures { IsAnswer (flat_map (wrong_uses resolver.now) files.now) result }
{
    check_files(alloc, resolver, Rule::Kinds, files, items, codes)
}
