//! The rules that operands break.

ghost use Rattle.std.specs.Prelude.{◌≡◌};
ghost use Rattle.flow_types.specs.Tree.{superclasses};
ghost use Rattle.instruction_table.specs.LowestRule.{lowest};
ghost use Rattle.instruction_table.specs.Needs.{is_long, is_reference, is_uninitialised, is_array_of, is_reference_array, is_array, judged, own_rules, need_rules};

use crate::row::Need;
use crate::rule;
use flow_types::{Element, FlowType, Primitive, fits};
use program_image::Image;

pub(crate) fn is_long(t: &FlowType) -> bool
    ensures { result ≡ is_long t.now }
{
    matches!(t, FlowType::Long)
}

/// Whether a type is of references, initialised or not.
pub(crate) fn is_reference(t: &FlowType) -> bool
    ensures { result ≡ is_reference t.now }
{
    match t {
        FlowType::Unusable => false,
        FlowType::Int => false,
        FlowType::Long => false,
        FlowType::High => false,
        _ => true,
    }
}

pub(crate) fn is_uninitialised(t: &FlowType) -> bool
    ensures { result ≡ is_uninitialised t.now }
{
    matches!(t, FlowType::Fresh(_) | FlowType::FreshThis)
}

fn is_array_of(kind: Primitive, t: &FlowType) -> bool
    ensures { result ≡ is_array_of kind t.now }
{
    match t {
        FlowType::Null => true,
        FlowType::Array {
            dims,
            elem: Element::Primitive(of),
        } => {
            let is_byte = kind.number() == Primitive::Byte.number();
            let is_boolean = of.number() == Primitive::Boolean.number();
            *dims == 1 && (kind.number() == of.number() || (is_byte && is_boolean))
        }
        _ => false,
    }
}

fn is_reference_array(t: &FlowType) -> bool
    ensures { result ≡ is_reference_array t.now }
{
    match t {
        FlowType::Null => true,
        FlowType::Array {
            dims,
            elem: Element::Primitive(_),
        } => 1 < *dims,
        FlowType::Array {
            dims,
            elem: Element::Object(_),
        } => 0 < *dims,
        _ => false,
    }
}

fn is_array(t: &FlowType) -> bool
    ensures { result ≡ is_array t.now }
{
    matches!(t, FlowType::Null | FlowType::Array { dims: _, elem: _ })
}

/// The rule that a type breaks as an initialised reference, which `fine` says it may be.
fn judge(t: &FlowType, fine: bool, broken: u8) -> Option<u8>
    ensures { result ≡ lowest (judged t.now fine broken) }
{
    if !is_reference(t) {
        Some(rule::OPERAND)
    } else if is_uninitialised(t) {
        Some(rule::UNINITIALISED)
    } else if fine {
        None
    } else {
        Some(broken)
    }
}

fn own_rule(image: &Image, owner: u32, class: u32, t: &FlowType) -> Option<u8>
    ensures { result ≡ lowest (own_rules (superclasses image.now) owner class t.now) }
{
    match t {
        FlowType::FreshThis if class == owner => None,
        FlowType::FreshThis => Some(rule::UNINITIALISED),
        _ => judge(t, fits(image, t, &FlowType::Class(class)), rule::REFERENCE),
    }
}

/// The lowest rule that an operand breaks, in a method of the owner.
pub(crate) fn need_rule(image: &Image, owner: u32, need: &Need, t: &FlowType) -> Option<u8>
    ensures { result ≡ lowest (need_rules (superclasses image.now) owner need.now t.now) }
{
    match need {
        Need::Int => match t {
            FlowType::Int => None,
            _ => Some(rule::OPERAND),
        },
        Need::Long => match t {
            FlowType::Long => None,
            _ => Some(rule::OPERAND),
        },
        Need::Fitting { rule, of } => judge(t, fits(image, t, of), *rule),
        Need::Primitives(kind) => judge(t, is_array_of(*kind, t), rule::ARRAY),
        Need::References => judge(t, is_reference_array(t), rule::ARRAY),
        Need::Array => judge(t, is_array(t), rule::ARRAY),
        Need::Own(class) => own_rule(image, owner, *class, t),
    }
}
