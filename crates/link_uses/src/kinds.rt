//! What code uses is of the kind that its instruction asks.

ghost use Rattle.std.specs.Prelude.{◌≡◌, ◌==◌};
ghost use Rattle.class_names.specs.Seen.{seen_member};
ghost use Rattle.class_names.specs.Texts.{class_text, member_in};
ghost use Rattle.link_rules.specs.Answers.{IsAnswer};
ghost use Rattle.link_rules.specs.Classes.{names_interface};
ghost use Rattle.link_rules.specs.Marks.{AreTested};
ghost use Rattle.link_uses.specs.Items.{AreItems};
ghost use Rattle.link_uses.specs.Lookups.{found_field, found_method};
ghost use Rattle.link_uses.specs.Told.{AreTold};
ghost use Rattle.link_uses.specs.Uses.{is_wrong_field_use, wrong_name, wrong_method_flags, finds_wrong_method, is_wrong_call, is_wrong_new, wrong_field_use, wrong_call, wrong_new, wrong_use};

use crate::flags::{field_flags, method_flags};
use crate::items::{field_at, method_at};
use crate::lookup::{Found, Resolver};
use crate::told::{Told, is_of_interface, is_wrong_new_at};
use class_format::{ABSTRACT, ClassFile, STATIC, has_flag};
use class_names::{Called, class_text, is_clinit, is_init, member};
use code_table::Op;
use code_table::opcode::{INVOKEINTERFACE, INVOKESPECIAL, INVOKESTATIC};
use jvm_base::PoolItem;
use link_rules::{LinkErr, LinkWhy, Program, refuse_class_if, refuse_member_if};
use std::alloc::Global;

fn is_wrong_field_use(
    resolver: &Resolver,
    is_static: bool,
    m: &Called,
    found: Option<Found>,
) -> bool
    requires { found ≡ found_field resolver.now (seen_member m.now) }
    ensures { result ≡ is_wrong_field_use resolver.now is_static (seen_member m.now) }
{
    match found {
        Some(found) => has_flag(field_flags(resolver.program(), &found), STATIC) != is_static,
        None => false,
    }
}

#[tactic(auto, unfolding(crate::specs::Uses::wrong_name))]
fn is_wrong_name(op: u8, name: &[u16]) -> bool
    ensures { result ≡ wrong_name op name.now }
{
    is_clinit(name) || is_init(name) && op != INVOKESPECIAL
}

#[tactic(auto, unfolding(crate::specs::Uses::wrong_method_flags))]
fn are_wrong_flags(op: u8, flags: u16) -> bool
    ensures { result ≡ wrong_method_flags op flags }
{
    has_flag(flags, STATIC) != (op == INVOKESTATIC)
        || op == INVOKESPECIAL && has_flag(flags, ABSTRACT)
}

fn finds_wrong_method(resolver: &Resolver, op: u8, m: &Called, found: Option<Found>) -> bool
    requires { found ≡ found_method resolver.now (seen_member m.now) }
    ensures { result ≡ finds_wrong_method resolver.now op (seen_member m.now) }
{
    match found {
        Some(found) => are_wrong_flags(op, method_flags(resolver.program(), &found)),
        None => false,
    }
}

/// Whether a call is of another kind than what it names, of which this is told.
#[tactic(auto, unfolding(crate::specs::Uses::wrong_holder))]
fn is_wrong_call(
    resolver: &Resolver,
    is_interface: bool,
    op: u8,
    m: &Called,
    found: Option<Found>,
) -> bool
    requires holder { is_interface ≡ names_interface resolver.now (seen_member m.now).class }
    requires found { found ≡ found_method resolver.now (seen_member m.now) }
    ensures { result ≡ is_wrong_call resolver.now op (seen_member m.now) }
{
    is_interface != (op == INVOKEINTERFACE)
        || is_wrong_name(op, m.name)
        || finds_wrong_method(resolver, op, m, found)
}

#[tactic(auto, unfolding(crate::specs::Uses::wrong_field_use))]
fn check_field(
    alloc: Global,
    resolver: &Resolver,
    file: &ClassFile,
    is_static: bool,
    m: &Called,
    found: Option<Found>,
) -> Result<(), LinkErr>
    requires { found ≡ found_field resolver.now (seen_member m.now) }
    ensures { IsAnswer (wrong_field_use resolver.now file.now is_static (seen_member m.now)) result }
{
    let is_wrong = is_wrong_field_use(resolver, is_static, m, found);
    refuse_member_if(alloc, is_wrong, LinkWhy::WrongKind, file, m.name, m.desc)
}

#[tactic(auto, unfolding(crate::specs::Uses::wrong_call))]
fn check_call(
    alloc: Global,
    resolver: &Resolver,
    file: &ClassFile,
    is_interface: bool,
    op: u8,
    m: &Called,
    found: Option<Found>,
) -> Result<(), LinkErr>
    requires holder { is_interface ≡ names_interface resolver.now (seen_member m.now).class }
    requires found { found ≡ found_method resolver.now (seen_member m.now) }
    ensures { IsAnswer (wrong_call resolver.now file.now op (seen_member m.now)) result }
{
    let is_wrong = is_wrong_call(resolver, is_interface, op, m, found);
    refuse_member_if(alloc, is_wrong, LinkWhy::WrongKind, file, m.name, m.desc)
}

#[tactic(auto, unfolding(crate::specs::Uses::wrong_new))]
fn check_new(
    alloc: Global,
    resolver: &Resolver,
    file: &ClassFile,
    wrong_news: &[bool],
    item: u16,
) -> Result<(), LinkErr>
    requires { AreTested (is_wrong_new resolver.now) file.now.pool wrong_news.now }
    ensures { IsAnswer (wrong_new resolver.now file.now (class_text file.now.pool item)) result }
{
    let pool = file.pool.as_slice();
    let is_wrong = is_wrong_new_at(resolver.program(), pool, wrong_news, item);
    refuse_class_if(
        alloc,
        is_wrong,
        LinkWhy::WrongKind,
        file,
        class_text(pool, item),
    )
}

/// What an instruction uses is of the kind that it asks.
pub(crate) fn check_op(
    alloc: Global,
    resolver: &Resolver,
    file: &ClassFile,
    items: &[Option<Found>],
    told: &Told,
    op: &Op,
) -> Result<(), LinkErr>
    requires items { AreItems resolver.now file.now.pool items.now }
    requires told { AreTold resolver.now file.now.pool told.now }
    ensures { IsAnswer (wrong_use resolver.now file.now op.now) result }
{
    let pool = file.pool.as_slice();
    match op {
        Op::Static { item, .. } => {
            let found = field_at(resolver, pool, items, *item);
            check_field(alloc, resolver, file, true, &member(pool, *item), found)
        }
        Op::Field { item, .. } => {
            let found = field_at(resolver, pool, items, *item);
            check_field(alloc, resolver, file, false, &member(pool, *item), found)
        }
        Op::Invoke { op, item, .. } => {
            let found = method_at(resolver, pool, items, *item);
            let interfaces = told.interfaces.as_slice();
            let is_interface = is_of_interface(resolver.program(), pool, interfaces, *item);
            let m = member(pool, *item);
            check_call(alloc, resolver, file, is_interface, *op, &m, found)
        }
        Op::New(item) => check_new(alloc, resolver, file, told.wrong_news.as_slice(), *item),
        _ => Ok(()),
    }
}
