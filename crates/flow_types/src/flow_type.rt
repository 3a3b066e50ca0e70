//! A type of the verifier.

ghost use Rattle.std.specs.Prelude.{◌≡◌};
ghost use Rattle.flow_types.specs.Tree.{superclasses, IsTree};
ghost use Rattle.flow_types.specs.Types.{elem_fits, array_fits, type_fits, joined, levels_of, objects_of, arrays_above, unlike_joined};

use crate::element::Element;
use crate::superclass::{common, is_sub};
use program_image::Image;

/// A type of a local or a stack place.
#[derive(Clone, Copy, PartialEq, Eq)]
pub enum FlowType {
    Unusable,
    Int,
    Long,
    High,
    Null,
    Class(u32),
    Array { dims: u8, elem: Element },
    Fresh(u32),
    FreshThis,
}

fn is_elem_sub(image: &Image, low: Element, high: Element) -> bool
    ensures { result ≡ elem_fits (superclasses image.now) low high }
{
    match (low, high) {
        (Element::Primitive(a), Element::Primitive(b)) => a.number() == b.number(),
        (Element::Object(a), Element::Object(b)) => is_sub(image, a, b),
        _ => false,
    }
}

fn is_array_sub(image: &Image, dims: u8, elem: Element, high_dims: u8, high: Element) -> bool
    ensures { result ≡ array_fits (superclasses image.now) dims elem high_dims high }
{
    if dims == high_dims {
        is_elem_sub(image, elem, high)
    } else {
        match high {
            Element::Object(0) => high_dims < dims,
            _ => false,
        }
    }
}

/// Whether a value of the type `low` may stand for one of `high`.
pub fn fits(image: &Image, low: &FlowType, high: &FlowType) -> bool
    ensures { result ≡ type_fits (superclasses image.now) low.now high.now }
{
    if let FlowType::Unusable = high {
        return true;
    }
    match low {
        FlowType::Unusable => false,
        FlowType::Int => matches!(high, FlowType::Int),
        FlowType::Long => matches!(high, FlowType::Long),
        FlowType::High => matches!(high, FlowType::High),
        FlowType::Null => matches!(
            high,
            FlowType::Null | FlowType::Class(_) | FlowType::Array { dims: _, elem: _ }
        ),
        FlowType::Class(class) => match high {
            FlowType::Class(up) => is_sub(image, *class, *up),
            _ => false,
        },
        FlowType::Array { dims, elem } => match high {
            FlowType::Class(up) => *up == 0,
            FlowType::Array {
                dims: up,
                elem: part,
            } => is_array_sub(image, *dims, *elem, *up, *part),
            _ => false,
        },
        FlowType::Fresh(at) => match high {
            FlowType::Fresh(other) => at == other,
            _ => false,
        },
        FlowType::FreshThis => matches!(high, FlowType::FreshThis),
    }
}

fn levels(dims: u8, elem: Element) -> u8
    ensures { result ≡ levels_of dims elem }
{
    match elem {
        Element::Primitive(_) => dims.saturating_sub(1),
        Element::Object(_) => dims,
    }
}

fn objects(levels: u8) -> FlowType
    ensures { result ≡ objects_of levels }
{
    if levels == 0 {
        FlowType::Class(0)
    } else {
        FlowType::Array {
            dims: levels,
            elem: Element::Object(0),
        }
    }
}

fn merge_arrays(image: &Image, dims: u8, elem: Element, other: u8, part: Element) -> FlowType
    requires tree { IsTree (superclasses image.now) }
    ensures { result ≡ arrays_above (superclasses image.now) dims elem other part }
{
    if let (Element::Object(a), Element::Object(b)) = (elem, part)
        && dims == other
    {
        return FlowType::Array {
            dims,
            elem: Element::Object(common(image, a, b)),
        };
    }
    objects(levels(dims, elem).min(levels(other, part)))
}

fn merge_unlike(image: &Image, a: FlowType, b: FlowType) -> FlowType
    requires tree { IsTree (superclasses image.now) }
    ensures { result ≡ unlike_joined (superclasses image.now) a b }
{
    match (a, b) {
        (FlowType::Class(low), FlowType::Class(other)) => FlowType::Class(common(
            image, low, other,
        )),
        (
            FlowType::Array { dims, elem },
            FlowType::Array {
                dims: other,
                elem: part,
            },
        ) => { merge_arrays(image, dims, elem, other, part) }
        (FlowType::Class(_), FlowType::Array { dims: _, elem: _ }) => FlowType::Class(0),
        (FlowType::Array { dims: _, elem: _ }, FlowType::Class(_)) => FlowType::Class(0),
        _ => FlowType::Unusable,
    }
}

/// The least type that both fit.
pub fn merge_type(image: &Image, a: FlowType, b: FlowType) -> FlowType
    requires tree { IsTree (superclasses image.now) }
    ensures { result ≡ joined (superclasses image.now) a b }
{
    if fits(image, &a, &b) {
        b
    } else if fits(image, &b, &a) {
        a
    } else {
        merge_unlike(image, a, b)
    }
}
