//! The table: the row of each instruction.

ghost use Rattle.std.specs.Prelude.{◌≡◌, ◌<◌, length, ◌∷◌, ◌++◌, ◌%◌, [], drop, reverse, replicate, map, IfOk, OnOk};
ghost use Rattle.program_image.specs.Program.{target_of};
ghost use Rattle.instruction_table.specs.ClassTypes.{class_in, field_class_in, method_in, owner_of, result_of};
ghost use Rattle.instruction_table.specs.declared.row.Row.TheVariants as rows;
ghost use Rattle.instruction_table.specs.Rows.{row, number, number_type, value, reference, object_of, load_slot, store_slot, array_load, array_store, pop_row, dup_row, resize_row, return_row, return_need, is_of_kind, static_row, field_row, is_direct, receiver_class, arguments, result as result_given, invoke_row, cast_row, acts, sizes_row, falls};

use crate::class_types::{
    array_over, class_named_at, class_type, constant_type, desc_type, field_class_at,
    is_initialiser, is_private, is_super, method_named_at, owner_of, plain, primitive_of,
    result_of,
};
use crate::need::is_reference;
use crate::row::{Gives, Group, Need, Row, Slot};
use crate::rule;
use code_table::{Op, opcode};
use flow_types::{Element, FlowType, Primitive, is_sub};
use jvm_base::{Desc, List, MethodDesc, NoMemory};
use program_image::Image;
use std::alloc::Global;

/// The class of what is thrown (java/lang/Throwable).
pub const THROWABLE: u32 = 8;

/// An initialised reference.
const REFERENCE: Need = Need::Fitting {
    rule: rule::REFERENCE,
    of: FlowType::Class(0),
};

/// A row that takes these operands, the newest first.
fn acts(alloc: Global, needs: &[Need], gives: Gives) -> Result<Row, NoMemory>
    ensures { IfOk result (λ r. r ≡ acts needs.now gives) }
{
    let mut list = List::new(alloc);
    list.append(needs)?;
    Ok(Row::Acts { needs: list, gives })
}

/// An int or a long: ints have an even opcode, longs the odd one behind it (JVMS2 9).
fn number(op: u8) -> Need
    ensures { result ≡ number op }
{
    if op % 2 == 0 { Need::Int } else { Need::Long }
}

fn number_type(op: u8) -> FlowType
    ensures { result ≡ number_type op }
{
    if op % 2 == 0 {
        FlowType::Int
    } else {
        FlowType::Long
    }
}

/// A value of a type; a reference that doesn't fit breaks the rule.
fn value(rule: u8, of: FlowType) -> Need
    ensures { result ≡ value rule of }
{
    match of {
        FlowType::Int => Need::Int,
        FlowType::Long => Need::Long,
        _ => Need::Fitting { rule, of },
    }
}

/// An object of the class.
fn object_of(image: &Image, class: u32) -> Need
    ensures { result ≡ object_of image.now class }
{
    Need::Fitting {
        rule: rule::REFERENCE,
        of: FlowType::Class(plain(image, class)),
    }
}

fn load_slot(op: u8) -> Slot
    ensures { result ≡ load_slot op }
{
    match op {
        opcode::LLOAD => Slot::Long,
        opcode::ILOAD => Slot::Int,
        _ => Slot::Reference,
    }
}

fn store_slot(op: u8) -> Slot
    ensures { result ≡ store_slot op }
{
    match op {
        opcode::LSTORE => Slot::Long,
        opcode::ISTORE => Slot::Int,
        _ => Slot::Reference,
    }
}

fn array_load(alloc: Global, op: u8) -> Result<Row, NoMemory>
    ensures { IfOk result (λ r. r ≡ array_load op) }
{
    let (array, gives) = match op {
        opcode::IALOAD => (Need::Primitives(Primitive::Int), Gives::One(FlowType::Int)),
        opcode::LALOAD => (
            Need::Primitives(Primitive::Long),
            Gives::One(FlowType::Long),
        ),
        opcode::BALOAD => (Need::Primitives(Primitive::Byte), Gives::One(FlowType::Int)),
        opcode::CALOAD => (Need::Primitives(Primitive::Char), Gives::One(FlowType::Int)),
        opcode::SALOAD => (
            Need::Primitives(Primitive::Short),
            Gives::One(FlowType::Int),
        ),
        _ => (Need::References, Gives::Part),
    };
    acts(alloc, &[Need::Int, array], gives)
}

fn array_store(alloc: Global, op: u8) -> Result<Row, NoMemory>
    ensures { IfOk result (λ r. r ≡ array_store op) }
{
    let (value, array) = match op {
        opcode::IASTORE => (Need::Int, Need::Primitives(Primitive::Int)),
        opcode::LASTORE => (Need::Long, Need::Primitives(Primitive::Long)),
        opcode::BASTORE => (Need::Int, Need::Primitives(Primitive::Byte)),
        opcode::CASTORE => (Need::Int, Need::Primitives(Primitive::Char)),
        opcode::SASTORE => (Need::Int, Need::Primitives(Primitive::Short)),
        _ => (REFERENCE, Need::References),
    };
    acts(alloc, &[value, Need::Int, array], Gives::Nothing)
}

/// What an instruction drops.
pub fn pop_group(op: u8) -> Group
    ensures { rows.Drops result ≡ pop_row op }
{
    match op {
        opcode::POP => Group::One,
        _ => Group::Wide,
    }
}

fn pop_row(op: u8) -> Row
    ensures { result ≡ pop_row op }
{
    Row::Drops(pop_group(op))
}

/// What an instruction doubles, and what lies below that.
pub fn dup_groups(op: u8) -> (Group, Group)
    ensures { rows.Doubles result.0 result.1 ≡ dup_row op }
{
    match op {
        opcode::DUP => (Group::One, Group::Nothing),
        opcode::DUP_X1 => (Group::One, Group::One),
        opcode::DUP_X2 => (Group::One, Group::Wide),
        opcode::DUP2 => (Group::Wide, Group::Nothing),
        opcode::DUP2_X1 => (Group::Wide, Group::One),
        _ => (Group::Wide, Group::Wide),
    }
}

fn dup_row(op: u8) -> Row
    ensures { result ≡ dup_row op }
{
    let (top, below) = dup_groups(op);
    Row::Doubles { top, below }
}

fn resize_row(alloc: Global, op: u8) -> Result<Row, NoMemory>
    ensures { IfOk result (λ r. r ≡ resize_row op) }
{
    match op {
        opcode::I2L => acts(alloc, &[Need::Int], Gives::One(FlowType::Long)),
        opcode::L2I => acts(alloc, &[Need::Long], Gives::One(FlowType::Int)),
        _ => acts(alloc, &[Need::Int], Gives::One(FlowType::Int)),
    }
}

fn return_need(op: u8, of: Option<FlowType>) -> Need
    ensures { result ≡ return_need op of }
{
    match op {
        opcode::IRETURN => Need::Int,
        opcode::LRETURN => Need::Long,
        _ => match of {
            Some(of) if is_reference(&of) => Need::Fitting {
                rule: rule::RETURN,
                of,
            },
            _ => Need::Fitting {
                rule: rule::RETURN,
                of: FlowType::Class(0),
            },
        },
    }
}

fn is_of_kind(op: u8, of: FlowType) -> bool
    ensures { result ≡ is_of_kind op of }
{
    match op {
        opcode::IRETURN => matches!(of, FlowType::Int),
        opcode::LRETURN => matches!(of, FlowType::Long),
        _ => is_reference(&of),
    }
}

fn return_row(alloc: Global, op: u8, of: Option<FlowType>) -> Result<Row, NoMemory>
    ensures { IfOk result (λ r. r ≡ return_row op of) }
{
    let mut needs = List::new(alloc);
    if op == opcode::RETURN {
        return Ok(Row::Ends {
            needs,
            fits: of.is_none(),
        });
    }
    needs.push(return_need(op, of))?;
    let fits = match of {
        Some(of) => is_of_kind(op, of),
        None => false,
    };
    Ok(Row::Ends { needs, fits })
}

fn static_row(alloc: Global, op: u8, of: FlowType) -> Result<Row, NoMemory>
    ensures { IfOk result (λ r. r ≡ static_row op of) }
{
    match op {
        opcode::GETSTATIC => acts(alloc, &[], Gives::One(of)),
        _ => acts(alloc, &[value(rule::REFERENCE, of)], Gives::Nothing),
    }
}

/// Of a field of a type, declared by the class.
fn field_row(
    alloc: Global,
    image: &Image,
    op: u8,
    of: FlowType,
    class: u32,
) -> Result<Row, NoMemory>
    ensures { IfOk result (λ r. r ≡ field_row image.now op of class) }
{
    match op {
        opcode::GETFIELD => acts(alloc, &[object_of(image, class)], Gives::One(of)),
        _ => acts(
            alloc,
            &[value(rule::REFERENCE, of), Need::Own(class)],
            Gives::Nothing,
        ),
    }
}

/// Whether `invokespecial` in a class calls the named method itself: a private one, or one that no
/// superclass of a class with the super flag declares.
fn is_direct(image: &Image, current: u32, method: u32) -> bool
    ensures { result ≡ is_direct image.now current method }
{
    let owner = owner_of(image, method);
    is_private(image, method)
        || !is_super(image, current)
        || owner == current
        || !is_sub(image, current, owner)
}

/// The class that the receiver of a call must fit.
fn receiver_class(image: &Image, current: u32, op: u8, method: u32) -> u32
    ensures { result ≡ receiver_class image.now current op method }
{
    if op == opcode::INVOKESPECIAL && !is_direct(image, current, method) {
        current
    } else {
        owner_of(image, method)
    }
}

/// What a call takes for the parameters, the last one first.
#[tactic(auto, using(crate::proofs::Listing::one_argument, crate::proofs::Listing::no_arguments, crate::proofs::Listing::all_arguments))]
fn arguments(alloc: Global, image: &Image, args: &[Desc]) -> Result<List<Need>, NoMemory>
    ensures { IfOk result (λ needs. needs ≡ arguments image.now args.now) }
{
    let mut needs = List::new(alloc);
    for i in 0..args.len() {
        let arg = &args[args.len() - 1 - i];
        needs.push(value(rule::REFERENCE, desc_type(image, arg)))?;
    }
    Ok(needs)
}

fn result_given(image: &Image, ret: &Option<Desc>) -> Gives
    ensures { result ≡ result_given image.now ret.now }
{
    match ret {
        Some(desc) => Gives::One(desc_type(image, desc)),
        None => Gives::Nothing,
    }
}

/// Of a call of a method, with the descriptor of its name, in a class.
fn invoke_row(
    alloc: Global,
    image: &Image,
    current: u32,
    op: u8,
    desc: &MethodDesc,
    method: u32,
) -> Result<Row, NoMemory>
    ensures { IfOk result (λ r. r ≡ invoke_row image.now current op desc.now method) }
{
    let mut needs = arguments(alloc, image, desc.args.as_slice())?;
    let gives = result_given(image, &desc.ret);
    if op == opcode::INVOKESTATIC {
        return Ok(Row::Acts { needs, gives });
    }
    if op == opcode::INVOKESPECIAL && is_initialiser(image, method) {
        return Ok(Row::Inits {
            needs,
            class: owner_of(image, method),
            gives,
        });
    }
    needs.push(object_of(image, receiver_class(image, current, op, method)))?;
    Ok(Row::Acts { needs, gives })
}

fn cast_row(alloc: Global, op: u8, to: FlowType) -> Result<Row, NoMemory>
    ensures { IfOk result (λ r. r ≡ cast_row op to) }
{
    let gives = match op {
        opcode::CHECKCAST => Gives::One(to),
        _ => Gives::One(FlowType::Int),
    };
    acts(alloc, &[REFERENCE], gives)
}

/// Of `multianewarray` with so many dimensions.
#[tactic(auto, using(crate::proofs::Listing::one_size))]
fn sizes_row(alloc: Global, dims: u8, of: FlowType) -> Result<Row, NoMemory>
    ensures { IfOk result (λ r. r ≡ sizes_row dims of) }
{
    let mut needs = List::new(alloc);
    for _ in 0..dims {
        needs.push(Need::Int)?;
    }
    Ok(Row::Acts {
        needs,
        gives: Gives::One(of),
    })
}

/// The row of the instruction at an address of a method.
pub fn row_of(alloc: Global, image: &Image, method: u32, at: u32, op: &Op) -> Result<Row, NoMemory>
    requires { method < length image.now.methods }
    ensures { IfOk result (λ r. r ≡ row image.now method at op.now) }
{
    match op {
        Op::Nop => acts(alloc, &[], Gives::Nothing),
        Op::AconstNull => acts(alloc, &[], Gives::One(FlowType::Null)),
        Op::Iconst(_) => acts(alloc, &[], Gives::One(FlowType::Int)),
        Op::Lconst(_) => acts(alloc, &[], Gives::One(FlowType::Long)),
        Op::Push(_) => acts(alloc, &[], Gives::One(FlowType::Int)),
        Op::Ldc(_) => acts(alloc, &[], Gives::One(constant_type(image, method, at))),
        Op::Ldc2(_) => acts(alloc, &[], Gives::One(constant_type(image, method, at))),
        Op::Load { op, local } => Ok(Row::Reads {
            slot: load_slot(*op),
            local: *local,
        }),
        Op::ArrayLoad(op) => array_load(alloc, *op),
        Op::Store { op, local } => Ok(Row::Writes {
            slot: store_slot(*op),
            local: *local,
        }),
        Op::ArrayStore(op) => array_store(alloc, *op),
        Op::Pop(op) => Ok(pop_row(*op)),
        Op::Dup(op) => Ok(dup_row(*op)),
        Op::Swap => Ok(Row::Swaps),
        Op::Arith(op) => acts(
            alloc,
            &[number(*op), number(*op)],
            Gives::One(number_type(*op)),
        ),
        Op::Divide(op) => acts(
            alloc,
            &[number(*op), number(*op)],
            Gives::One(number_type(*op)),
        ),
        Op::Negate(op) => acts(alloc, &[number(*op)], Gives::One(number_type(*op))),
        Op::Shift(op) => acts(
            alloc,
            &[Need::Int, number(*op)],
            Gives::One(number_type(*op)),
        ),
        Op::Bits(op) => acts(
            alloc,
            &[number(*op), number(*op)],
            Gives::One(number_type(*op)),
        ),
        Op::Iinc { local, by: _ } => Ok(Row::Bumps(*local)),
        Op::Resize(op) => resize_row(alloc, *op),
        Op::Lcmp => acts(alloc, &[Need::Long, Need::Long], Gives::One(FlowType::Int)),
        Op::IfZero { op: _, to: _ } => acts(alloc, &[Need::Int], Gives::Nothing),
        Op::IfInts { op: _, to: _ } => acts(alloc, &[Need::Int, Need::Int], Gives::Nothing),
        Op::IfRefs { op: _, to: _ } => acts(alloc, &[REFERENCE, REFERENCE], Gives::Nothing),
        Op::IfNull { op: _, to: _ } => acts(alloc, &[REFERENCE], Gives::Nothing),
        Op::Goto(_) => acts(alloc, &[], Gives::Nothing),
        Op::TableSwitch {
            other: _,
            low: _,
            high: _,
            to: _,
        } => acts(alloc, &[Need::Int], Gives::Nothing),
        Op::LookupSwitch { other: _, pairs: _ } => acts(alloc, &[Need::Int], Gives::Nothing),
        Op::Return(op) => return_row(alloc, *op, result_of(image, method)),
        Op::Static { op, item: _, desc } => static_row(alloc, *op, desc_type(image, desc.get())),
        Op::Field { op, item: _, desc } => {
            let class = field_class_at(image, method, at);
            field_row(alloc, image, *op, desc_type(image, desc.get()), class)
        }
        Op::Invoke { op, item: _, desc } => {
            let owner = owner_of(image, method);
            let named = method_named_at(image, method, at);
            invoke_row(alloc, image, owner, *op, desc.get(), named)
        }
        Op::New(_) => acts(alloc, &[], Gives::One(FlowType::Fresh(at))),
        Op::NewArray(kind) => {
            let of = FlowType::Array {
                dims: 1,
                elem: Element::Primitive(primitive_of(*kind)),
            };
            acts(alloc, &[Need::Int], Gives::One(of))
        }
        Op::AnewArray(_) => {
            let part = class_type(image, class_named_at(image, method, at));
            acts(alloc, &[Need::Int], Gives::One(array_over(part)))
        }
        Op::MultiNewArray { item: _, dims } => {
            sizes_row(
                alloc,
                *dims,
                class_type(image, class_named_at(image, method, at)),
            )
        }
        Op::ArrayLength => acts(alloc, &[Need::Array], Gives::One(FlowType::Int)),
        Op::Athrow => {
            let thrown = Need::Fitting {
                rule: rule::REFERENCE,
                of: FlowType::Class(THROWABLE),
            };
            acts(alloc, &[thrown], Gives::Nothing)
        }
        Op::Cast { op, item: _ } => {
            cast_row(
                alloc,
                *op,
                class_type(image, class_named_at(image, method, at)),
            )
        }
        Op::Monitor(_) => acts(alloc, &[REFERENCE], Gives::Nothing),
    }
}

/// Whether control goes on behind an instruction.
pub fn falls(op: &Op) -> bool
    ensures { result ≡ falls op.now }
{
    !matches!(
        op,
        Op::Goto(_)
            | Op::TableSwitch {
                other: _,
                low: _,
                high: _,
                to: _
            }
            | Op::LookupSwitch { other: _, pairs: _ }
            | Op::Return(_)
            | Op::Athrow
    )
}
