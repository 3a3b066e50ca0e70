//! Whether fields and methods can be spelled.

ghost use Rattle.std.specs.Prelude.{◌≡◌, ◌↔◌, ◌<◌, ◌^◌, length, true, IsTrue, All};
ghost use Rattle.std.specs.List.{AllByRecursion};
ghost use Rattle.class_format.specs.Flags.{is_static};
ghost use Rattle.constant_pool.specs.Items.{text_of, is_text_that};
ghost use Rattle.class_format.specs.KnownTexts.{is_named, is_code, is_constant_value, is_constant_at};
ghost use Rattle.class_format.specs.Members.{is_without_receiver, is_desc_of, flags_clash, code_count, is_code_len};
ghost use Rattle.class_format.specs.Meaning.{AreBytes, FitsEntry, FitsSizes, IsHead};
ghost use Rattle.class_format.specs.Judging.Formed.{has_text_that, constant_passes, FitsConstant, FormedField, FormedCode, FormedCodeOf, FormedMethod};

use crate::class::{COUNT_LIMIT, FieldItem, MethodItem};
use crate::flags::{STATIC, has_flag};
use crate::known_texts::{is_constant_at, is_named};
use crate::member_kind::{
    MemberHead, MemberKind, code_count, flags_clash, is_code_len, is_desc_of, is_without_receiver,
};
use constant_pool::{Texts, is_class_at};
use jvm_base::{CodeItem, TableItem};

/// Which names of attributes the pool has.
#[derive(Clone, Copy)]
pub(crate) struct AttributeNames {
    pub(crate) constant_value: bool,
    pub(crate) code: bool,
}

fn is_head(texts: &Texts, kind: MemberKind, head: MemberHead) -> bool
    ensures { IsTrue result ↔ IsHead kind texts.now head }
{
    let without_receiver = is_without_receiver(texts, head.flags, head.name);
    is_named(texts.items(), head.name)
        && is_desc_of(texts, kind, without_receiver, head.desc)
        && !flags_clash(kind, without_receiver, head.flags)
}

fn constant_passes(
    texts: &Texts,
    names: AttributeNames,
    flags: u16,
    desc: u16,
    constant: Option<u16>,
) -> bool
    requires { names.constant_value ≡ has_text_that is_constant_value texts.now }
    ensures passes { result ≡ constant_passes texts.now flags desc constant }
    ensures fits { FitsConstant constant }
{
    match constant {
        None => true,
        Some(value) => {
            has_flag(flags, STATIC)
                && names.constant_value
                && is_constant_at(texts.items(), desc, value)
        }
    }
}

fn is_formed_field(texts: &Texts, names: AttributeNames, field: &FieldItem) -> bool
    requires { names.constant_value ≡ has_text_that is_constant_value texts.now }
    ensures { IsTrue result ↔ FormedField texts.now field.now }
{
    let head = MemberHead {
        flags: field.flags,
        name: field.name,
        desc: field.desc,
    };
    let constant = constant_passes(texts, names, field.flags, field.desc, field.constant);
    is_head(texts, MemberKind::Field, head) && constant
}

/// Whether each field can be spelled, but for those alike.
pub(crate) fn are_formed_fields(texts: &Texts, names: AttributeNames, fields: &[FieldItem]) -> bool
    requires { names.constant_value ≡ has_text_that is_constant_value texts.now }
    ensures { IsTrue result ↔ All (FormedField texts.now) fields.now }
{
    for field in fields {
        if !is_formed_field(texts, names, field) {
            return false;
        }
    }
    true
}

fn is_entry(texts: &Texts, item: TableItem) -> bool
    ensures { IsTrue result ↔ FitsEntry texts.now item }
{
    item.class == 0 || is_class_at(texts.items(), item.class)
}

#[tactic(auto, using(crate::proofs::Recursion::all_of, crate::proofs::Recursion::by_recursion))]
fn are_entries(texts: &Texts, table: &[TableItem]) -> bool
    ensures { IsTrue result ↔ AllByRecursion (FitsEntry texts.now) table.now }
{
    for item in table {
        if !is_entry(texts, *item) {
            return false;
        }
    }
    true
}

/// What the bytes of a code are is known of their slice.
fn fits_code(max_stack: u16, max_locals: u16, code: &[u8]) -> bool
    ensures { IsTrue result ↔ (FitsSizes max_stack max_locals (length code.now)
        × AreBytes code.now) }
{
    is_code_len(code.len())
}

fn is_formed_code(texts: &Texts, names: AttributeNames, code: &CodeItem) -> bool
    requires { names.code ≡ has_text_that is_code texts.now }
    ensures { IsTrue result ↔ FormedCode texts.now code.now }
{
    let table = code.table.as_slice();
    names.code
        && fits_code(code.max_stack, code.max_locals, code.code.as_slice())
        && table.len() < COUNT_LIMIT
        && are_entries(texts, table)
}

fn is_formed_code_of(
    texts: &Texts,
    names: AttributeNames,
    flags: u16,
    code: &Option<CodeItem>,
) -> bool
    requires { names.code ≡ has_text_that is_code texts.now }
    ensures { IsTrue result ↔ FormedCodeOf texts.now flags code.now }
{
    match code {
        None => code_count(flags) == 0,
        Some(code) => code_count(flags) == 1 && is_formed_code(texts, names, code),
    }
}

fn is_formed_method(texts: &Texts, names: AttributeNames, method: &MethodItem) -> bool
    requires { names.code ≡ has_text_that is_code texts.now }
    ensures { IsTrue result ↔ FormedMethod texts.now method.now }
{
    let head = MemberHead {
        flags: method.flags,
        name: method.name,
        desc: method.desc,
    };
    is_head(texts, MemberKind::Method, head)
        && is_formed_code_of(texts, names, method.flags, &method.code)
}

/// Whether each method can be spelled, but for those alike.
pub(crate) fn are_formed_methods(
    texts: &Texts,
    names: AttributeNames,
    methods: &[MethodItem],
) -> bool
    requires { names.code ≡ has_text_that is_code texts.now }
    ensures { IsTrue result ↔ All (FormedMethod texts.now) methods.now }
{
    for method in methods {
        if !is_formed_method(texts, names, method) {
            return false;
        }
    }
    true
}
