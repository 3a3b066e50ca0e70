//! What instructions and exception tables name.

ghost use Rattle.std.specs.Prelude.{◌≡◌, ◌+◌, ◌++◌, ◌<◌, ◌^◌, length, map, IfOk, OnOk};
ghost use Rattle.std.specs.List.{AllByRecursion, flat_map};
ghost use Rattle.class_names.specs.Classes.{code_of, codes_of};
ghost use Rattle.link_rules.specs.Numbers.{numbered};
ghost use Rattle.link_uses.specs.Items.{AreItems, HaveItems};
ghost use Rattle.link_image.specs.Kept.Items.{AreTold};
ghost use Rattle.link_image.specs.Methods.{count_methods};
ghost use Rattle.link_image.specs.Seen.{seen_lookup, IsFit};
ghost use Rattle.link_image.specs.Sizes.{IsShort, HasShortCode};
ghost use Rattle.link_image.specs.Targets.{op_target, placing, placed_target, caught, entry_target, method_targets, class_targets, all_targets};

use crate::items::{Told, item_class, item_constant, item_field, item_method};
use crate::lookup::Lookup;
use class_format::{ClassFile, MethodItem};
use class_names::{class_text, is_array};
use code_table::{Code, Op, Placed};
use jvm_base::{List, NoMemory, TableItem};
use link_rules::{ops, table};
use link_uses::Found;
use program_image::Target;
use std::alloc::Global;

/// The address at which the class of a table's first entry stands: behind all code.
const ENTRIES: u32 = 65_536;

/// Targets, each with a method and an address.
pub(crate) type Targets = List<(u32, u32, Target)>;

/// What an instruction of a class names, of whose items this is told.
fn op_target(
    alloc: Global,
    lookup: &Lookup<'_, '_, '_>,
    file: &ClassFile,
    told: &Told<'_>,
    op: &Op,
) -> Result<Option<Target>, NoMemory>
    requires fit { IsFit lookup.now }
    requires told { AreTold (seen_lookup lookup.now) file.now told.now }
    ensures { IfOk result (λ target. target ≡ op_target (seen_lookup lookup.now) file.now op.now) }
{
    match op {
        Op::Static { item, .. } | Op::Field { item, .. } => {
            Ok(item_field(lookup, file, told, *item))
        }
        Op::Invoke { item, .. } => Ok(item_method(lookup, file, told, *item)),
        Op::New(item)
        | Op::AnewArray(item)
        | Op::Cast { item, .. }
        | Op::MultiNewArray { item, .. } => item_class(alloc, lookup, file, told, *item),
        Op::Ldc(item) | Op::Ldc2(item) => Ok(item_constant(lookup, file, told, *item)),
        _ => Ok(None),
    }
}

/// Adds a target, if there is one.
fn add(targets: &mut Targets, method: u32, at: u32, target: Option<Target>) -> Result<(), NoMemory>
    ensures { OnOk result (targets.new ≡ targets.old ++ placing method at target) }
{
    match target {
        Some(target) => targets.push((method, at, target)),
        None => Ok(()),
    }
}

/// Adds what some instructions of a method name.
fn add_ops(
    alloc: Global,
    targets: &mut Targets,
    lookup: &Lookup<'_, '_, '_>,
    file: &ClassFile,
    told: &Told<'_>,
    method: u32,
    ops: &[Placed],
) -> Result<(), NoMemory>
    requires fit { IsFit lookup.now }
    requires told { AreTold (seen_lookup lookup.now) file.now told.now }
    ensures { OnOk result
        (targets.new ≡ targets.old
        ++ flat_map (placed_target (seen_lookup lookup.now) file.now method) ops.now) }
{
    for placed in ops {
        let target = op_target(alloc, lookup, file, told, &placed.op)?;
        add(targets, method, placed.at, target)?;
    }
    Ok(())
}

/// The class of an entry of an exception table.
fn caught(
    alloc: Global,
    lookup: &Lookup<'_, '_, '_>,
    file: &ClassFile,
    told: &Told<'_>,
    entry: TableItem,
) -> Result<Option<Target>, NoMemory>
    requires fit { IsFit lookup.now }
    requires told { AreTold (seen_lookup lookup.now) file.now told.now }
    ensures { IfOk result (λ target. target ≡ caught (seen_lookup lookup.now) file.now entry) }
{
    let text = class_text(file.pool.as_slice(), entry.class);
    if entry.class == 0 || is_array(text) {
        Ok(None)
    } else {
        item_class(alloc, lookup, file, told, entry.class)
    }
}

/// Adds the classes of the entries of a method's exception table.
fn add_table(
    alloc: Global,
    targets: &mut Targets,
    lookup: &Lookup<'_, '_, '_>,
    file: &ClassFile,
    told: &Told<'_>,
    method: u32,
    table: &[TableItem],
) -> Result<(), NoMemory>
    requires fit { IsFit lookup.now }
    requires told { AreTold (seen_lookup lookup.now) file.now told.now }
    requires short { length table.now < 2 ^ 16 }
    ensures { OnOk result
        (targets.new ≡ targets.old
        ++ numbered (entry_target (seen_lookup lookup.now) file.now method) 0 table.now) }
{
    let mut at = ENTRIES;
    for entry in table {
        let target = caught(alloc, lookup, file, told, *entry)?;
        add(targets, method, at, target)?;
        at += 1;
    }
    Ok(())
}

/// Adds what a method names that has this code.
#[tactic(auto, unfolding(crate::specs::Targets::method_targets))]
fn add_method(
    alloc: Global,
    targets: &mut Targets,
    lookup: &Lookup<'_, '_, '_>,
    file: &ClassFile,
    told: &Told<'_>,
    number: u32,
    method: &MethodItem,
    code: &Option<Code>,
) -> Result<(), NoMemory>
    requires fit { IsFit lookup.now }
    requires told { AreTold (seen_lookup lookup.now) file.now told.now }
    requires code { code.now ≡ code_of file.now.pool method.now }
    requires short { IsShort method.now.code }
    ensures { OnOk result
        (targets.new ≡ targets.old
        ++ method_targets (seen_lookup lookup.now) file.now number method.now) }
{
    add_ops(alloc, targets, lookup, file, told, number, ops(code))?;
    add_table(alloc, targets, lookup, file, told, number, table(method))
}

/// Adds what the methods of a class name, of which the first has a number and which have this code;
/// `found` are the members that its items lead to.
#[tactic(auto, unfolding(crate::specs::Targets::class_targets))]
fn add_class(
    alloc: Global,
    targets: &mut Targets,
    lookup: &Lookup<'_, '_, '_>,
    first: u32,
    file: &ClassFile,
    found: &[Option<Found>],
    codes: &[Option<Code>],
) -> Result<(), NoMemory>
    requires fit { IsFit lookup.now }
    requires found { AreItems lookup.now.resolver.now file.now.pool found.now }
    requires codes { codes.now ≡ codes_of file.now }
    requires short { HasShortCode file.now }
    requires few { first + length file.now.methods < 2 ^ 32 }
    ensures { OnOk result
        (targets.new ≡ targets.old ++ class_targets (seen_lookup lookup.now) first file.now) }
{
    let told = Told::new(alloc, lookup, file, found)?;
    let methods = file.methods.as_slice();
    let mut number = first;
    for i in 0..methods.len() {
        let (method, code) = (&methods[i], &codes[i]);
        add_method(alloc, targets, lookup, file, &told, number, method, code)?;
        number += 1;
    }
    Ok(())
}

/// What all methods name, which have this code; `items` are the members that the items of each class
/// lead to.
pub(crate) fn all_targets(
    alloc: Global,
    lookup: &Lookup<'_, '_, '_>,
    items: &[List<Option<Found>>],
    codes: &[List<Option<Code>>],
) -> Result<Targets, NoMemory>
    requires fit { IsFit lookup.now }
    requires items { HaveItems lookup.now.resolver.now lookup.now.resolver.now items.now }
    requires codes { codes.now ≡ map codes_of lookup.now.resolver.now }
    requires short { AllByRecursion HasShortCode lookup.now.resolver.now }
    requires few { count_methods lookup.now.resolver.now < 2 ^ 32 }
    ensures { IfOk result (λ targets. targets ≡ all_targets (seen_lookup lookup.now)) }
{
    let mut targets = List::new(alloc);
    let mut first = 0;
    let program = lookup.resolver.program();
    for c in 0..codes.len() {
        let Some(file) = program.class(c) else {
            continue;
        };
        let found = items[c].as_slice();
        let code = codes[c].as_slice();
        add_class(alloc, &mut targets, lookup, first, file, found, code)?;
        first += file.methods.len() as u32;
    }
    Ok(targets)
}
