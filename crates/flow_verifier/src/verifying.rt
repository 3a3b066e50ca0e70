//! Verifies a method.

ghost use Rattle.std.specs.Prelude.{◌≡◌, ◌+◌, ◌^◌, ◌<◌, ◌≤◌, ℕ, length, slice_get, IfOk, MatchOption, Some};
ghost use Rattle.program_image.specs.Program.{Program};
ghost use Rattle.program_image.specs.Handlers.{code_of};
ghost use Rattle.flow_types.specs.Tree.{superclasses, IsTree};
ghost use Rattle.flow_verifier.specs.Methods.{ops_of, method_of, IsMethod, IsVerifiable};
ghost use Rattle.flow_verifier.specs.Worklist.Going.{IsKnown};
ghost use Rattle.flow_verifier.specs.Typing.{frame_at, Judged, most_steps, rule_of, NoneBroken, IsFirst};

use crate::answer::{FlowErr, VerifyErr};
use crate::facts::Facts;
use crate::frames::Frames;
use crate::given::broken_rule;
use crate::method::{Method, address_of, method_with};
use crate::shared_frame::SharedFrame;
use crate::solver::solve;
use flow_types::Steps;
use jvm_base::{List, NoMemory};
use program_image::{Body, Image};
use std::alloc::Global;
use std::marker::Brand;
use std::sync::ledger::{Blank, Ledger};

/// A place at which a rule is broken, and the lowest one there.
#[derive(Clone, Copy)]
struct Breach {
    rule: u8,
    place: usize,
}

/// The lowest rule broken at a place.
fn rule_at(
    alloc: Global,
    image: &Image,
    m: &Method,
    facts: &Facts,
    frames: &List<Option<SharedFrame>>,
    i: usize,
) -> Result<Option<u8>, NoMemory>
    requires within { m.now.number < length image.now.methods }
    requires known { IsKnown image.now m.now facts.now }
    ensures { IfOk result (λ r. r ≡ rule_of image.now m.now i (frame_at frames.now i)) }
{
    match frames.get(i) {
        Some(Some(f)) => broken_rule(alloc, image, m, facts, i, f),
        _ => Ok(None),
    }
}

/// The lowest place at which a rule is broken.
fn first_broken(
    alloc: Global,
    image: &Image,
    m: &Method,
    facts: &Facts,
    frames: &List<Option<SharedFrame>>,
) -> Result<Option<Breach>, NoMemory>
    requires within { m.now.number < length image.now.methods }
    requires known { IsKnown image.now m.now facts.now }
    ensures { IfOk result
        (λ o. MatchOption o (NoneBroken image.now m.now frames.now (length frames.now))
        (λ e. IsFirst image.now m.now frames.now e.rule e.place)) }
{
    for place in 0..frames.len() {
        if let Some(rule) = rule_at(alloc, image, m, facts, frames, place)? {
            return Ok(Some(Breach { rule, place }));
        }
    }
    Ok(None)
}

/// The typing of a method of which the facts are known, or the first rule that it breaks.
fn judge<L: Ledger>(
    alloc: Global,
    image: &Image,
    m: &Method,
    facts: &Facts,
    steps: &mut Steps<L>,
) -> Result<List<Option<SharedFrame>>, VerifyErr>
    requires tree { IsTree (superclasses image.now) }
    requires fine { IsMethod image.now m.now }
    requires known { IsKnown image.now m.now facts.now }
    ensures verdict { Judged image.now m.now result }
    ensures cost { steps.new ≤ steps.old + most_steps image.now m.now }
{
    let frames = match solve(alloc, image, m, facts, steps) {
        Ok(frames) => frames,
        Err(NoMemory) => return Err(VerifyErr::NoMemory),
    };
    match first_broken(alloc, image, m, facts, &frames) {
        Err(NoMemory) => Err(VerifyErr::NoMemory),
        Ok(Some(breach)) => Err(VerifyErr::Flow(FlowErr {
            method: m.number,
            rule: breach.rule,
            at: address_of(image, m, breach.place),
        })),
        Ok(None) => Ok(frames),
    }
}

/// The typing of a method that is made ready, or the first rule that it breaks.
fn verify_ready<L: Ledger>(
    alloc: Global,
    image: &Image,
    m: &Method,
    steps: &mut Steps<L>,
) -> Result<List<Option<SharedFrame>>, VerifyErr>
    requires tree { IsTree (superclasses image.now) }
    requires fine { IsMethod image.now m.now }
    ensures verdict { Judged image.now m.now result }
    ensures cost { steps.new ≤ steps.old + most_steps image.now m.now }
{
    let facts = Facts::new(alloc, image, m)?;
    judge(alloc, image, m, &facts, steps)
}

/// The typing of a method with code, a frame or none for each of its instructions, or the first
/// rule that its least closed assignment breaks, where it has no typing. Each flow of a frame is
/// one step.
pub fn verify_counted<L: Ledger>(
    alloc: Global,
    image: &Image,
    method: u32,
    steps: &mut Steps<L>,
) -> Result<Frames, VerifyErr>
    requires tree { IsTree (superclasses image.now) }
    requires fine { IsVerifiable image.now method }
    ensures verdict { Judged image.now (method_of image.now method) result }
    ensures cost { steps.new ≤ steps.old + most_steps image.now (method_of image.now method) }
{
    match &image.method(method).body {
        Body::Code(code) => {
            let m = method_with(alloc, image, method, code)?;
            Ok(Frames::from_list(verify_ready(alloc, image, &m, steps)?))
        }
        _ => unreachable!(),
    }
}

fn verify_with<L: Ledger>(
    alloc: Global,
    image: &Image,
    method: u32,
    blank: Blank,
) -> Result<Frames, VerifyErr>
    requires name { blank.name ≡ L.name }
    requires parts { blank.parts ≡ L.parts }
    requires some { 0 < blank.parts }
    requires tree { IsTree (superclasses image.now) }
    requires fine { IsVerifiable image.now method }
    ensures verdict { Judged image.now (method_of image.now method) result }
{
    let mut steps = Steps::<L>::start(blank);
    verify_counted(alloc, image, method, &mut steps)
}

/// The typing of a method with code, or the first rule that its least closed assignment breaks,
/// where it has no typing.
pub fn verify(alloc: Global, image: &Image, method: u32) -> Result<Frames, VerifyErr>
    requires tree { IsTree (superclasses image.now) }
    requires fine { IsVerifiable image.now method }
    ensures verdict { Judged image.now (method_of image.now method) result }
{
    verify_with::<Brand>(alloc, image, method, Blank::new(1))
}
