//! The types of classes, descriptors and constants.

ghost use Rattle.std.specs.Prelude.{◌≡◌, ◌<◌, length};
ghost use Rattle.program_image.specs.Program.{target_of};
ghost use Rattle.flow_types.specs.Primitives.{primitive_of};
ghost use Rattle.instruction_table.specs.ClassTypes.{is_an_interface, plain, class_named, element_type, array_at, class_type, ground_type, desc_type, array_over, class_in, field_class_in, method_in, value_type, constant_type, owner_of, name_of, flags_of, result_of, is_initialiser, is_static_method, is_private_method, is_super, init_name, new_class};

use class_format::{CLINIT, PRIVATE, STATIC, has_flag};
use code_table::element_kind;
use flow_types::{Element, FlowType, Primitive};
use jvm_base::{Desc, Elem, Units, Value};
use program_image::{Image, Target};

/// `<init>`, the name of instance initialisers (JVMS2 3.9).
const INIT: [u16; 6] = [60, 105, 110, 105, 116, 62];

const INTERFACE: u16 = 0x0200;

const SUPER: u16 = 0x0020;

/// The class, with Object in place of an interface.
pub fn plain(image: &Image, class: u32) -> u32
    ensures { result ≡ plain image.now class }
{
    if class < image.classes() && has_flag(image.class(class).flags, INTERFACE) {
        0
    } else {
        class
    }
}

/// The first class of a name.
#[tactic(auto, using(crate::proofs::Naming::named_some, crate::proofs::Naming::named_none))]
fn class_named(image: &Image, name: &Units) -> u32
    ensures { result ≡ class_named image.now name.now }
{
    match image.named(name) {
        Some(class) => class,
        None => 0,
    }
}

fn element_type(image: &Image, elem: &Elem) -> Element
    ensures { result ≡ element_type image.now elem.now }
{
    match elem {
        Elem::Byte => Element::Primitive(Primitive::Byte),
        Elem::Char => Element::Primitive(Primitive::Char),
        Elem::Double => Element::Primitive(Primitive::Double),
        Elem::Float => Element::Primitive(Primitive::Float),
        Elem::Int => Element::Primitive(Primitive::Int),
        Elem::Long => Element::Primitive(Primitive::Long),
        Elem::Short => Element::Primitive(Primitive::Short),
        Elem::Boolean => Element::Primitive(Primitive::Boolean),
        Elem::Object(name) => Element::Object(plain(image, class_named(image, name))),
    }
}

/// The type of a reference to an object of the class.
pub fn class_type(image: &Image, class: u32) -> FlowType
    ensures { result ≡ class_type image.now class }
{
    if class >= image.classes() {
        return FlowType::Class(class);
    }
    match &image.class(class).array {
        Some(array) => FlowType::Array {
            dims: array.dims,
            elem: element_type(image, array.elem.get()),
        },
        None => FlowType::Class(plain(image, class)),
    }
}

/// The type of a descriptor's values; an int stands for boolean, byte, char and short too.
pub fn desc_type(image: &Image, desc: &Desc) -> FlowType
    ensures { result ≡ desc_type image.now desc.now }
{
    if desc.dims != 0 {
        return FlowType::Array {
            dims: desc.dims,
            elem: element_type(image, &desc.elem),
        };
    }
    match &desc.elem {
        Elem::Object(name) => FlowType::Class(plain(image, class_named(image, name))),
        Elem::Long => FlowType::Long,
        _ => FlowType::Int,
    }
}

/// The type of an array of such references.
pub fn array_over(part: FlowType) -> FlowType
    ensures { result ≡ array_over part }
{
    match part {
        FlowType::Array { dims, elem } => FlowType::Array {
            dims: dims.saturating_add(1),
            elem,
        },
        FlowType::Class(class) => FlowType::Array {
            dims: 1,
            elem: Element::Object(class),
        },
        _ => FlowType::Array {
            dims: 1,
            elem: Element::Object(0),
        },
    }
}

/// The primitive type of a number at `newarray` (JVMS2 6, newarray).
pub fn primitive_of(number: u8) -> Primitive
    ensures { result ≡ primitive_of number }
{
    match number {
        element_kind::T_BOOLEAN => Primitive::Boolean,
        element_kind::T_CHAR => Primitive::Char,
        element_kind::T_FLOAT => Primitive::Float,
        element_kind::T_DOUBLE => Primitive::Double,
        element_kind::T_BYTE => Primitive::Byte,
        element_kind::T_SHORT => Primitive::Short,
        element_kind::T_INT => Primitive::Int,
        _ => Primitive::Long,
    }
}

/// The class that a place in the code names.
pub fn class_named_at(image: &Image, method: u32, at: u32) -> u32
    requires { method < length image.now.methods }
    ensures { result ≡ class_in (target_of image.now method at) }
{
    match image.target(method, at) {
        Some(Target::Class(class)) => class,
        _ => 0,
    }
}

/// The class that declares the field that a place in the code names.
pub fn field_class_at(image: &Image, method: u32, at: u32) -> u32
    requires { method < length image.now.methods }
    ensures { result ≡ field_class_in (target_of image.now method at) }
{
    match image.target(method, at) {
        Some(
            Target::Field {
                class,
                place: _,
                fixed: _,
            },
        ) => class,
        _ => 0,
    }
}

/// The method that a place in the code names.
pub fn method_named_at(image: &Image, method: u32, at: u32) -> u32
    requires { method < length image.now.methods }
    ensures { result ≡ method_in (target_of image.now method at) }
{
    match image.target(method, at) {
        Some(Target::Method(named)) => named,
        _ => 0,
    }
}

/// The type of the constant that a place in the code names.
pub fn constant_type(image: &Image, method: u32, at: u32) -> FlowType
    requires { method < length image.now.methods }
    ensures { result ≡ constant_type image.now (target_of image.now method at) }
{
    match image.target(method, at) {
        Some(Target::Constant(Value::Int(_))) => FlowType::Int,
        Some(Target::Constant(Value::Long(_))) => FlowType::Long,
        Some(Target::Constant(Value::Ref(name))) => class_type(image, name.class),
        Some(Target::Constant(Value::Null)) => FlowType::Null,
        _ => FlowType::Int,
    }
}

/// The class that declares a method.
pub fn owner_of(image: &Image, method: u32) -> u32
    ensures { result ≡ owner_of image.now method }
{
    if method < image.methods() {
        image.method(method).owner
    } else {
        0
    }
}

/// The type of a method's result; `None` for `V`.
pub fn result_of(image: &Image, method: u32) -> Option<FlowType>
    ensures { result ≡ result_of image.now method }
{
    if method >= image.methods() {
        return None;
    }
    match &image.method(method).desc.get().ret {
        Some(desc) => Some(desc_type(image, desc)),
        None => None,
    }
}

/// Whether a method is `<init>` (JVMS2 3.9).
pub fn is_initialiser(image: &Image, method: u32) -> bool
    ensures { result ≡ is_initialiser image.now method }
{
    method < image.methods() && image.method(method).name.get().as_slice() == INIT.as_slice()
}

/// Whether a call of a method has no receiver. `<clinit>` counts as static, whatever its flags.
pub fn is_static(image: &Image, method: u32) -> bool
    ensures { result ≡ is_static_method image.now method }
{
    if method >= image.methods() {
        return false;
    }
    let info = image.method(method);
    has_flag(info.flags, STATIC) || info.name.get().as_slice() == CLINIT.as_slice()
}

/// Whether a method is private.
pub fn is_private(image: &Image, method: u32) -> bool
    ensures { result ≡ is_private_method image.now method }
{
    method < image.methods() && has_flag(image.method(method).flags, PRIVATE)
}

/// Whether a class has the super flag (JVMS2 4.1).
pub fn is_super(image: &Image, class: u32) -> bool
    ensures { result ≡ is_super image.now class }
{
    class < image.classes() && has_flag(image.class(class).flags, SUPER)
}
