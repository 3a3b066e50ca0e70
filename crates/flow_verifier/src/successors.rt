//! Where control goes on from an instruction.

ghost use Rattle.std.specs.Prelude.{◌≡◌, ◌<◌, ◌^◌, ◌++◌, ◌∷◌, [], ℕ, length, map, nat_lt, slice_get, IfOk, OnOk, Some};
ghost use Rattle.instruction_table.specs.Rows.{jumps, falls};
ghost use Rattle.flow_verifier.specs.Methods.{ops_of, place_of, IsMethod, Rises};
ghost use Rattle.flow_verifier.specs.Worklist.Leading.{jump_places, fall_places, successors_there, successors};

use crate::method::{Method, ops_of, place_of};
use code_table::{Op, Placed};
use instruction_table::falls;
use jvm_base::{List, NoMemory};
use program_image::Image;
use std::alloc::Global;

fn push_fall(out: &mut List<u32>, count: usize, i: u32, placed: &Placed) -> Result<(), NoMemory>
    requires { count < 2 ^ 32 }
    ensures { OnOk result (out.new ≡ out.old ++ fall_places count i placed.now) }
{
    if falls(&placed.op) && (i as usize) + 1 < count {
        out.push(i + 1)?;
    }
    Ok(())
}

fn push_jump(out: &mut List<u32>, ops: &[Placed], to: u32) -> Result<(), NoMemory>
    requires few { length ops.now < 2 ^ 32 }
    requires rising { Rises ops.now }
    ensures { OnOk result (out.new ≡ out.old ++ jump_places ops.now (to ∷ [])) }
{
    out.push(place_of(ops, to))
}

fn push_targets(out: &mut List<u32>, ops: &[Placed], to: &[u32]) -> Result<(), NoMemory>
    requires few { length ops.now < 2 ^ 32 }
    requires rising { Rises ops.now }
    ensures { OnOk result (out.new ≡ out.old ++ jump_places ops.now to.now) }
{
    for k in 0..to.len() {
        push_jump(out, ops, to[k])?;
    }
    Ok(())
}

fn push_pairs(out: &mut List<u32>, ops: &[Placed], pairs: &[(i32, u32)]) -> Result<(), NoMemory>
    requires few { length ops.now < 2 ^ 32 }
    requires rising { Rises ops.now }
    ensures { OnOk result (out.new ≡ out.old ++ jump_places ops.now (map (λ p. p.1) pairs.now)) }
{
    for k in 0..pairs.len() {
        push_jump(out, ops, pairs[k].1)?;
    }
    Ok(())
}

fn push_jumps(out: &mut List<u32>, ops: &[Placed], op: &Op) -> Result<(), NoMemory>
    requires few { length ops.now < 2 ^ 32 }
    requires rising { Rises ops.now }
    ensures { OnOk result (out.new ≡ out.old ++ jump_places ops.now (jumps op.now)) }
{
    match op {
        Op::IfZero { op: _, to }
        | Op::IfInts { op: _, to }
        | Op::IfRefs { op: _, to }
        | Op::IfNull { op: _, to }
        | Op::Goto(to) => push_jump(out, ops, *to),
        Op::TableSwitch {
            other,
            low: _,
            high: _,
            to,
        } => {
            push_jump(out, ops, *other)?;
            push_targets(out, ops, to.as_slice())
        }
        Op::LookupSwitch { other, pairs } => {
            push_jump(out, ops, *other)?;
            push_pairs(out, ops, pairs.as_slice())
        }
        _ => Ok(()),
    }
}

/// Adds the successors of an instruction at a place. The list of what is still to do is worked from
/// its end, so that the instruction behind this one comes before the others: a place at which ways
/// meet mostly waits until what falls through to it has come.
fn push_successors(
    out: &mut List<u32>,
    ops: &[Placed],
    i: u32,
    placed: &Placed,
) -> Result<(), NoMemory>
    requires few { length ops.now < 2 ^ 32 }
    requires rising { Rises ops.now }
    ensures { OnOk result (out.new ≡ out.old ++ successors_there ops.now i (Some placed.now)) }
{
    push_jumps(out, ops, &placed.op)?;
    push_fall(out, ops.len(), i, placed)
}

/// The places of the instructions to which control goes on from the one at a place.
#[tactic(auto, unfolding(crate::specs::Worklist::Leading::successors))]
pub(crate) fn successors_of(
    alloc: Global,
    image: &Image,
    m: &Method,
    i: u32,
) -> Result<List<u32>, NoMemory>
    requires method { IsMethod image.now m.now }
    ensures { IfOk result (λ to. to ≡ successors image.now m.now i) }
{
    let ops = ops_of(image, m.number);
    let mut out = List::new(alloc);
    if let Some(placed) = ops.get(i as usize) {
        push_successors(&mut out, ops, i, placed)?;
    }
    Ok(out)
}
