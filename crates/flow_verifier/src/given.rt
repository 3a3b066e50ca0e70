//! What an instruction gives to those after it, and the rules that it breaks.

ghost use Rattle.std.specs.Prelude.{List as Rules, ◌≡◌, ◌<◌, ◌^◌, ◌++◌, ◌+◌, ◌==◌, ◌&&◌, ◌∷◌, [], ℕ, not, nat_le, nat_lt, length, map, filter, slice_get, IfOk, OnOk, Some};
ghost use Rattle.std.specs.List.{list_any};
ghost use Rattle.program_image.specs.Program.{Program};
ghost use Rattle.flow_types.specs.Tree.{superclasses};
ghost use Rattle.flow_types.specs.Frames.{frame_of};
ghost use Rattle.instruction_table.specs.LowestRule.{lowest};
ghost use Rattle.instruction_table.specs.Rows.{jumps, falls};
ghost use Rattle.instruction_table.specs.Working.{site_of, slots, row_rules, next};
ghost use Rattle.flow_verifier.specs.Methods.{ops_of, place_of, IsMethod};
ghost use Rattle.flow_verifier.specs.Worklist.Going.{IsKnown};
ghost use Rattle.flow_verifier.specs.Given.{work_of, frame_of_work, depth_rules, is_missing, after_rules, last_rules, row_at, is_past, op_rules, is_bad_at, place_rules, rules_there, open_rules, broken, next_there, frame_after, frame_caught, given, jump_edges, fall_edges, covers, catching, edges_there, edges};

use crate::facts::Facts;
use crate::method::{Edge, Method, ops_of};
use crate::shared_frame::SharedFrame;
use code_table::Placed;
use instruction_table::{Row, Stack, Work, falls, lower, row_of, rule};
use jvm_base::NoMemory;
use program_image::Image;
use std::alloc::Global;

/// The rule that is broken where the stack is deeper than that.
fn depth_rule(stack: &Stack, max: u32) -> Option<u8>
    ensures { result ≡ lowest (depth_rules max stack.now) }
{
    if stack.exceeds(max) {
        Some(rule::TOO_DEEP)
    } else {
        None
    }
}

/// The rule that is broken at a place whatever the frame.
#[tactic(auto, using(crate::proofs::Fitting::crowded_first))]
fn place_rule(image: &Image, m: &Method, facts: &Facts, i: usize) -> Option<u8>
    requires known { IsKnown image.now m.now facts.now }
    ensures { result ≡ lowest (place_rules image.now m.now i) }
{
    if i == 0 && m.crowded {
        Some(rule::NO_LOCAL)
    } else if facts.is_bad(i) {
        Some(rule::HANDLER)
    } else {
        None
    }
}

/// A frame at work, and the lowest rule that is broken.
#[derive(Drop)]
struct Worked {
    work: Work,
    rule: Option<u8>,
}

/// The rule on the depth after an instruction, which no missing operand leaves undefined.
#[tactic(auto, using(crate::proofs::Rules::no_depth, crate::proofs::Rules::depth_after))]
fn after_rule(broken: Option<u8>, stack: &Stack, max: u32) -> Option<u8>
    ensures { (rules : Rules ℕ) → broken ≡ lowest rules → result
        ≡ lowest (after_rules max rules stack.now) }
{
    if broken == Some(rule::MISSING) {
        None
    } else {
        depth_rule(stack, max)
    }
}

/// The rule that is broken where control goes on past the last instruction.
fn last_rule(placed: &Placed, i: usize, count: usize) -> Option<u8>
    requires { i < count }
    ensures { result ≡ lowest (last_rules (falls placed.now.op && (i + 1 == count))) }
{
    if falls(&placed.op) && i + 1 == count {
        Some(rule::PAST_THE_END)
    } else {
        None
    }
}

/// The lowest of four rules.
#[tactic(auto, using(crate::proofs::Rules::combined))]
fn lowest_of(
    before: Option<u8>,
    broken: Option<u8>,
    after: Option<u8>,
    last: Option<u8>,
) -> Option<u8>
    ensures { (a b c d : Rules ℕ) → before ≡ lowest a → broken ≡ lowest b → after ≡ lowest c
        → last ≡ lowest d → result ≡ lowest (a ++ (b ++ (c ++ d))) }
{
    lower(before, lower(broken, lower(after, last)))
}

/// Lets an instruction work on a frame, by its row.
fn work_on(
    alloc: Global,
    image: &Image,
    m: &Method,
    i: usize,
    count: usize,
    placed: &Placed,
    row: &Row,
    mut work: Work,
) -> Result<Worked, NoMemory>
    requires within { m.now.number < length image.now.methods }
    requires row { row.now ≡ row_at image.now m.now placed.now }
    requires count { count ≡ length (ops_of image.now m.now.number) }
    requires place { i < count }
    ensures rule { IfOk result (λ w. w.rule ≡ lowest (op_rules image.now m.now i placed.now work)) }
    ensures work { IfOk result (λ w. w.work
        ≡ next (site_of image.now m.now.number) (row_at image.now m.now placed.now) work) }
{
    let before = depth_rule(&work.stack, m.max_stack);
    let broken = work.run(alloc, image, m.number, row)?;
    let after = after_rule(broken, &work.stack, m.max_stack);
    let last = last_rule(placed, i, count);
    Ok(Worked {
        work,
        rule: lowest_of(before, broken, after, last),
    })
}

/// Lets the instruction at a place work on a frame.
fn work_there(
    alloc: Global,
    image: &Image,
    m: &Method,
    i: usize,
    work: Work,
) -> Result<Worked, NoMemory>
    requires within { m.now.number < length image.now.methods }
    ensures rule { IfOk result (λ w. w.rule
        ≡ lowest (rules_there image.now m.now i (slice_get (ops_of image.now m.now.number) i) work)) }
    ensures work { IfOk result (λ w. w.work
        ≡ next_there image.now m.now (slice_get (ops_of image.now m.now.number) i) work) }
{
    let ops = ops_of(image, m.number);
    match ops.get(i) {
        Some(placed) => {
            let row = row_of(alloc, image, m.number, placed.at, &placed.op)?;
            work_on(alloc, image, m, i, ops.len(), placed, &row, work)
        }
        None => Ok(Worked { work, rule: None }),
    }
}

/// What the instruction at a place makes of an open frame.
#[tactic(auto, using(crate::proofs::Rules::lowest_append))]
fn work_at(
    alloc: Global,
    image: &Image,
    m: &Method,
    facts: &Facts,
    i: usize,
    f: &SharedFrame,
) -> Result<Worked, NoMemory>
    requires within { m.now.number < length image.now.methods }
    requires known { IsKnown image.now m.now facts.now }
    ensures rule { IfOk result (λ w. w.rule ≡ lowest (open_rules image.now m.now i f.now)) }
    ensures work { IfOk result (λ w. w.work
        ≡ next_there image.now m.now (slice_get (ops_of image.now m.now.number) i) (work_of f.now)) }
{
    let place = place_rule(image, m, facts, i);
    let worked = work_there(alloc, image, m, i, f.work()?)?;
    Ok(Worked {
        work: worked.work,
        rule: lower(place, worked.rule),
    })
}

/// The lowest rule that the instruction at a place breaks.
#[tactic(auto, unfolding(crate::specs::Given::broken))]
pub(crate) fn broken_rule(
    alloc: Global,
    image: &Image,
    m: &Method,
    facts: &Facts,
    i: usize,
    f: &SharedFrame,
) -> Result<Option<u8>, NoMemory>
    requires within { m.now.number < length image.now.methods }
    requires known { IsKnown image.now m.now facts.now }
    ensures { IfOk result (λ r. r ≡ lowest (broken image.now m.now i f.now)) }
{
    if f.is_clash() {
        return Ok(Some(rule::CLASH));
    }
    Ok(work_at(alloc, image, m, facts, i, f)?.rule)
}

/// What the instruction at a place gives to those that control goes on to.
#[tactic(auto, using(crate::proofs::Rules::none_broken, crate::proofs::Rules::some_broken), unfolding(crate::specs::Given::given))]
pub(crate) fn given_next(
    alloc: Global,
    image: &Image,
    m: &Method,
    facts: &Facts,
    i: usize,
    f: &SharedFrame,
) -> Result<SharedFrame, NoMemory>
    requires within { m.now.number < length image.now.methods }
    requires known { IsKnown image.now m.now facts.now }
    ensures { IfOk result (λ g. (to : ℕ) → g ≡ given image.now m.now i f.now (Edge.Next to)) }
{
    if f.is_clash() {
        return Ok(SharedFrame::clash());
    }
    let Worked { work, rule } = work_at(alloc, image, m, facts, i, f)?;
    if let Some(_) = rule {
        return Ok(SharedFrame::clash());
    }
    Ok(SharedFrame::of_work(work))
}
