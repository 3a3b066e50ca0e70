//! Instructions on locals (JVMS2 6).

ghost use Rattle.std.specs.Prelude.{◌≡◌, ◌∷◌, ◌+◌, slice_get, slice_set};
ghost use Rattle.jvm_base.specs.Stack.{pushed};
ghost use Rattle.frame_ops.specs.Condition.{CanMove, IsDefined, stack_after, values_after};
ghost use Rattle.frame_ops.specs.Jumping.{moved_of, locals_after};
ghost use Rattle.frame_ops.specs.Operands.{local_at, stores, bumps, local_slots};

use crate::moved::Moved;
use jvm_base::{List, Operands, Value};

/// The value of a local.
pub(crate) fn local_at(locals: &List<Value>, local: u16) -> Value
    ensures { result ≡ local_at locals.now local }
{
    match locals.get(local as usize) {
        Some(value) => *value,
        None => Value::Null,
    }
}

/// Sets a local, where it is there.
fn set_local(locals: &mut List<Value>, at: usize, value: Value)
    ensures { locals.new ≡ slice_set locals.old at value }
{
    if at < locals.len() {
        locals.set(at, value);
    }
}

/// Puts an operand into a local, a long into two.
pub(crate) fn store(local: u16, locals: &mut List<Value>, stack: &mut Operands) -> Moved
    requires { CanMove (stores local stack.old.values) stack.old }
    ensures moved { result ≡ moved_of (stores local stack.old.values) }
    ensures locals { locals.new ≡ locals_after (stores local stack.old.values) locals.old }
    ensures stack { stack.new ≡ stack_after (stores local stack.old.values) stack.old }
{
    match stack.pop() {
        Some(Value::Long(a)) => {
            set_local(locals, local as usize, Value::Long(a));
            set_local(locals, local as usize + 1, Value::Int(0));
        }
        Some(value) => set_local(locals, local as usize, value),
        None => unreachable!(),
    }
    Moved::Behind
}

/// Lets an int in a local grow.
pub(crate) fn bump(local: u16, by: i16, locals: &mut List<Value>, stack: &Operands) -> Moved
    requires { IsDefined (bumps local by locals.old stack.now.values) }
    ensures moved { result ≡ moved_of (bumps local by locals.old stack.now.values) }
    ensures locals { locals.new
        ≡ locals_after (bumps local by locals.old stack.now.values) locals.old }
    ensures values { values_after (bumps local by locals.old stack.now.values) stack.now.values
        ≡ stack.now.values }
{
    match local_at(locals, local) {
        Value::Int(a) => set_local(
            locals,
            local as usize,
            Value::Int(a.wrapping_add(by as i32)),
        ),
        _ => unreachable!(),
    }
    Moved::Behind
}
