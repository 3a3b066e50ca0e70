//! Each field and method that code uses is found.

ghost use Rattle.link_rules.specs.Answers.{IsAnswer};
ghost use Rattle.link_uses.specs.Items.{AreItems};
ghost use Rattle.link_uses.specs.Uses.{lacking};

use crate::items::{field_at, method_at};
use crate::lookup::{Found, Resolver};
use class_format::ClassFile;
use class_names::member;
use code_table::Op;
use link_rules::{LinkErr, LinkWhy, refuse_member_if};
use std::alloc::Global;

/// An instruction's member is found.
pub(crate) fn check_op(
    alloc: Global,
    resolver: &Resolver,
    file: &ClassFile,
    items: &[Option<Found>],
    op: &Op,
) -> Result<(), LinkErr>
    requires items { AreItems resolver.now file.now.pool items.now }
    ensures { IsAnswer (lacking resolver.now file.now op.now) result }
{
    let pool = file.pool.as_slice();
    match op {
        Op::Static { item, .. } | Op::Field { item, .. } => {
            let m = member(pool, *item);
            let lacks = field_at(resolver, pool, items, *item).is_none();
            refuse_member_if(alloc, lacks, LinkWhy::NoField, file, m.name, m.desc)
        }
        Op::Invoke { item, .. } => {
            let m = member(pool, *item);
            let lacks = method_at(resolver, pool, items, *item).is_none();
            refuse_member_if(alloc, lacks, LinkWhy::NoMethod, file, m.name, m.desc)
        }
        _ => Ok(()),
    }
}
