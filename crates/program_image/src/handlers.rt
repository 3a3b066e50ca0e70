//! Which handler an exception meets.

ghost use Rattle.std.specs.Prelude.{◌≡◌, ◌<◌, length};
ghost use Rattle.program_image.specs.Handlers.{entry_target, is_below_target, takes, handler_from};
ghost use Rattle.program_image.specs.Places.{target_at};
ghost use Rattle.program_image.specs.Built.Ancestry.{IsAncestry};

use crate::ancestry::Ancestry;
use crate::info::{ClassInfo, Target};
use crate::subclass::is_below;
use jvm_base::TableItem;
use std::collections::BTreeMap;

/// Targets by method and address.
pub(crate) type Targets = BTreeMap<(u32, u32), Target>;

/// Where the classes of table entries begin among the addresses of targets: behind all code.
const ENTRIES: u32 = 65_536;

/// How many entries have an address of their own.
const ENTRY_COUNT: usize = 4_294_901_760;

/// The target at an address of a method.
pub(crate) fn target(targets: &Targets, method: u32, at: u32) -> Option<Target>
    ensures { result ≡ target_at targets.now.entries method at }
{
    targets.get(&(method, at)).copied()
}

/// The class of the entry at a place of a method's table.
fn entry_target(targets: &Targets, method: u32, i: usize) -> Option<Target>
    ensures { result ≡ entry_target targets.now.entries method i }
{
    if i < ENTRY_COUNT {
        target(targets, method, ENTRIES + i as u32)
    } else {
        None
    }
}

/// Whether the class is the target or lies below it.
fn is_below_target(
    classes: &[ClassInfo],
    ancestry: &Ancestry,
    class: u32,
    target: Option<Target>,
) -> bool
    requires ancestry { IsAncestry classes.now ancestry.now }
    requires class_in { class < length classes.now }
    ensures { result ≡ is_below_target classes.now class target }
{
    match target {
        Some(Target::Class(k)) => is_below(classes, ancestry, class, k),
        _ => false,
    }
}

/// Whether the entry at a place takes what the class throws at an address.
fn takes(
    classes: &[ClassInfo],
    ancestry: &Ancestry,
    targets: &Targets,
    method: u32,
    at: u32,
    class: u32,
    i: usize,
    entry: TableItem,
) -> bool
    requires ancestry { IsAncestry classes.now ancestry.now }
    requires class_in { class < length classes.now }
    ensures { result ≡ takes classes.now targets.now.entries method at class i entry }
{
    u32::from(entry.start) <= at
        && at < u32::from(entry.end)
        && (entry.class == 0
            || is_below_target(classes, ancestry, class, entry_target(targets, method, i)))
}

/// The handler of the first entry that does.
pub(crate) fn handler(
    classes: &[ClassInfo],
    ancestry: &Ancestry,
    targets: &Targets,
    method: u32,
    at: u32,
    class: u32,
    table: &[TableItem],
) -> Option<u32>
    requires ancestry { IsAncestry classes.now ancestry.now }
    requires class_in { class < length classes.now }
    ensures { result ≡ handler_from classes.now targets.now.entries method at class 0 table.now }
{
    for i in 0..table.len() {
        let entry = table[i];
        if takes(classes, ancestry, targets, method, at, class, i, entry) {
            return Some(u32::from(entry.handler));
        }
    }
    None
}
