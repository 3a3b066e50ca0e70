//! Instructions that ask for a field, an element, an object or a lock (JVMS2 6).

ghost use Rattle.std.specs.Prelude.{◌≡◌, ◌==◌, ◌<◌, ◌≤◌, [], false, if◌then◌else◌, length, Option, Some, IfOk};
ghost use Rattle.jvm_base.specs.declared.frame.Frame.{Frame as Called};
ghost use Rattle.code_table.specs.declared.opcode.TheConstants as code;
ghost use Rattle.program_image.specs.Program.{Program as Linked, target_of};
ghost use Rattle.machine_state.specs.declared.request.Request.TheVariants.{Enter, Exit, Len, Make};
ghost use Rattle.machine_state.specs.Instructions.{loads, stores, gets, puts, static_next, static_plan, field_next, asked_class, shared_plan, of_reference, makes_array};
ghost use Rattle.instruction_table.specs.ClassTypes.{class_in};
ghost use Rattle.machine_state.specs.Classes.{array_class_over};
ghost use Rattle.machine_state.specs.Next.{Needs, plain};
ghost use Rattle.machine_state.specs.PreMade.{holder};
ghost use Rattle.program_reads.specs.Kept.{IsKept};
ghost use Rattle.step_plan.specs.Condition.{HasOperands};
ghost use Rattle.step_plan.specs.Shown.{shown, shown_next};
ghost use Rattle.step_plan.specs.declared.plan.Next.TheVariants as told;

use crate::lookups::{class_named, target};
use crate::plan::{Next, Plan, asking, plain};
use crate::site::Site;
use crate::values::{put_value, sizes, stored_value};
use code_table::{Op, opcode};
use jvm_base::{Desc, Frame, List, Name, NoMemory, Operands, Value};
use machine_state::Request;
use program_image::{Image, Target};
use program_reads::{Tables, holder};
use std::alloc::Global;

/// A read of an element.
#[tactic(auto, using(crate::proofs::Instructions::loads_are))]
fn loads(stack: &Operands) -> Next
    ensures { (p : Linked) (f : Option Called) → shown_next p f result ≡ loads stack.now.values }
{
    match (stack.get(0), stack.get(1)) {
        (Some(Value::Int(index)), Some(Value::Ref(array))) => {
            Next::Needs(Request::Load(array, index))
        }
        _ => Next::Stuck,
    }
}

/// A write of one.
#[tactic(auto, using(crate::proofs::Instructions::stores_are))]
fn stores(op: u8, stack: &Operands) -> Next
    ensures { (p : Linked) (f : Option Called) → shown_next p f result
        ≡ stores op stack.now.values }
{
    match (stack.get(0), stack.get(1), stack.get(2)) {
        (Some(value), Some(Value::Int(index)), Some(Value::Ref(array))) => {
            Next::Needs(Request::Store(array, index, stored_value(op, value)))
        }
        _ => Next::Stuck,
    }
}

/// A read of a field.
fn gets(place: u32, stack: &Operands) -> Next
    ensures { (p : Linked) (f : Option Called) → shown_next p f result
        ≡ gets place stack.now.values }
{
    match stack.get(0) {
        Some(Value::Ref(object)) => Next::Needs(Request::Get(object, place)),
        _ => Next::Stuck,
    }
}

/// A write of one.
#[tactic(auto, using(crate::proofs::Instructions::puts_are))]
fn puts(desc: &Desc, place: u32, stack: &Operands) -> Next
    ensures { (p : Linked) (f : Option Called) → shown_next p f result
        ≡ puts desc.now place stack.now.values }
{
    match (stack.get(0), stack.get(1)) {
        (Some(value), Some(Value::Ref(object))) => {
            Next::Needs(Request::Put(object, place, put_value(desc, value)))
        }
        _ => Next::Stuck,
    }
}

/// A read or a write of a static, which is a field of its class's holder.
fn static_next(op: u8, desc: &Desc, object: Name, place: u32, stack: &Operands) -> Next
    ensures { (p : Linked) (f : Option Called) → shown_next p f result
        ≡ static_next op desc.now object place stack.now.values }
{
    if op == opcode::GETSTATIC {
        return Next::Needs(Request::Get(object, place));
    }
    match stack.get(0) {
        Some(value) => Next::Needs(Request::Put(object, place, put_value(desc, value))),
        None => Next::Stuck,
    }
}

/// The class that an instruction on a static asks for.
fn asked_class(image: &Image, tables: &Tables, class: u32, place: u32) -> Option<u32>
    requires { IsKept image.now tables.now }
    ensures { result ≡ asked_class image.now class place }
{
    if tables.is_constant(image, class, place) {
        None
    } else {
        Some(class)
    }
}

/// An instruction on a static.
fn static_plan(site: &Site<'_>, frame: &Frame, op: u8, desc: &Desc) -> Plan
    requires here { frame.now.method < length site.now.image.now.methods }
    requires kept { IsKept site.now.image.now site.now.tables.now }
    ensures { shown site.now.image.now (Some frame.now) result
        ≡ static_plan site.now.image.now op desc.now
        (target_of site.now.image.now frame.now.method frame.now.at) frame.now.stack.values }
{
    match target(site.image, frame) {
        Some(
            Target::Field {
                class,
                place,
                fixed: _,
            },
        ) => Plan {
            asks: asked_class(site.image, site.tables, class, place),
            next: static_next(op, desc, holder(class), place, &frame.stack),
        },
        _ => plain(Next::Stuck),
    }
}

/// An instruction on a field of an object.
fn field_next(image: &Image, frame: &Frame, op: u8, desc: &Desc) -> Next
    requires { frame.now.method < length image.now.methods }
    ensures { (f : Option Called) → shown_next image.now f result
        ≡ field_next op desc.now (target_of image.now frame.now.method frame.now.at)
        frame.now.stack.values }
{
    match target(image, frame) {
        Some(
            Target::Field {
                class: _,
                place,
                fixed: _,
            },
        ) => if op == opcode::GETFIELD {
            gets(place, &frame.stack)
        } else {
            puts(desc, place, &frame.stack)
        }
        _ => Next::Stuck,
    }
}

/// The length of an array.
fn measures(stack: &Operands) -> Next
    ensures { (p : Linked) (f : Option Called) → shown_next p f result
        ≡ of_reference (λ n. Needs (Len n)) stack.now.values }
{
    match stack.get(0) {
        Some(Value::Ref(array)) => Next::Needs(Request::Len(array)),
        _ => Next::Stuck,
    }
}

/// A lock that is entered or left.
fn locks(op: u8, stack: &Operands) -> Next
    ensures { (p : Linked) (f : Option Called) → shown_next p f result
        ≡ of_reference (λ n. Needs (if op == code.MONITORENTER then Enter n else Exit n false))
        stack.now.values }
{
    match stack.get(0) {
        Some(Value::Ref(lock)) if op == opcode::MONITORENTER => Next::Needs(Request::Enter(lock)),
        Some(Value::Ref(lock)) => Next::Needs(Request::Exit(lock, false)),
        _ => Next::Stuck,
    }
}

/// The class of arrays of the class that the frame's instruction names.
fn array_over_named(site: &Site<'_>, frame: &Frame) -> u32
    requires here { frame.now.method < length site.now.image.now.methods }
    requires kept { IsKept site.now.image.now site.now.tables.now }
    ensures { result ≡ array_class_over site.now.image.now
        (class_in (target_of site.now.image.now frame.now.method frame.now.at)) }
{
    site.tables.array_over(class_named(site.image, frame))
}

/// An object of a class, which is asked for.
fn makes(alloc: Global, class: u32) -> Plan
    ensures { result ≡ record { asks = Some class; next = told.Needs (Make class []) } }
{
    asking(class, Next::Needs(Request::Make(class, List::new(alloc))))
}

/// An array of a class, with so many sizes.
fn makes_array(alloc: Global, class: u32, count: u32, stack: &Operands) -> Result<Plan, NoMemory>
    requires { count ≤ length stack.now.values }
    ensures { IfOk result
        (λ r. (p : Linked) (f : Option Called) → shown p f r
        ≡ plain (makes_array class count stack.now.values)) }
{
    let sizes = sizes(alloc, stack, count)?;
    Ok(plain(Next::Needs(Request::Make(class, sizes))))
}

/// What an instruction asks of a part that threads share.
pub(crate) fn shared_plan(
    alloc: Global,
    site: &Site<'_>,
    frame: &Frame,
    op: &Op,
) -> Result<Plan, NoMemory>
    requires here { frame.now.method < length site.now.image.now.methods }
    requires kept { IsKept site.now.image.now site.now.tables.now }
    requires enough { HasOperands op.now frame.now.stack.values }
    ensures { IfOk result
        (λ r. shown site.now.image.now (Some frame.now) r
        ≡ shared_plan site.now.image.now op.now
        (target_of site.now.image.now frame.now.method frame.now.at) frame.now.stack.values) }
{
    let stack = &frame.stack;
    let image = site.image;
    match op {
        Op::ArrayLoad(_) => Ok(plain(loads(stack))),
        Op::ArrayStore(op) => Ok(plain(stores(*op, stack))),
        Op::Static { op, item: _, desc } => Ok(static_plan(site, frame, *op, desc.get())),
        Op::Field { op, item: _, desc } => Ok(plain(field_next(image, frame, *op, desc.get()))),
        Op::New(_) => Ok(makes(alloc, class_named(image, frame))),
        Op::NewArray(kind) => makes_array(alloc, site.tables.array_of(*kind), 1, stack),
        Op::AnewArray(_) => { makes_array(alloc, array_over_named(site, frame), 1, stack) }
        Op::MultiNewArray { item: _, dims } => {
            makes_array(alloc, class_named(image, frame), u32::from(*dims), stack)
        }
        Op::ArrayLength => Ok(plain(measures(stack))),
        Op::Monitor(op) => Ok(plain(locks(*op, stack))),
        _ => Ok(plain(Next::Stuck)),
    }
}
