//! What is known of a method before frames flow.

ghost use Rattle.std.specs.Prelude.{◌≡◌, ◌<◌, ◌||◌, ℕ, length, IfOk};
ghost use Rattle.std.specs.List.{list_any};
ghost use Rattle.flow_verifier.specs.Methods.{IsMethod};
ghost use Rattle.flow_verifier.specs.Given.{is_bad_at};
ghost use Rattle.flow_verifier.specs.Worklist.Ranges.{flag_at};
ghost use Rattle.flow_verifier.specs.Worklist.Going.{IsKnown};

use crate::handler_tree::HandlerTree;
use crate::method::{Handler, Method, ops_of};
use crate::rising::no_flags;
use flow_types::is_sub;
use instruction_table::THROWABLE;
use jvm_base::{List, NoMemory};
use program_image::Image;
use std::alloc::Global;

/// For each place whether a handler there catches a class that isn't thrown, and the handlers in a
/// tree, both found once, so that a visit doesn't search the handlers.
#[derive(Drop)]
pub(crate) struct Facts {
    pub bad: List<bool>,
    pub handlers: HandlerTree,
}

/// Flags the place of a handler that catches a class which isn't thrown.
fn flag(image: &Image, bad: &mut List<bool>, handler: &Handler)
    requires there { handler.now.to < length bad.old }
    ensures long { length bad.new ≡ length bad.old }
    ensures flags { (i : ℕ) → flag_at bad.new i
        ≡ (flag_at bad.old i || is_bad_at image.now i handler.now) }
{
    if !is_sub(image, handler.class, THROWABLE) {
        bad.set(handler.to as usize, true);
    }
}

/// For each place whether a handler there catches a class that isn't thrown.
fn bad_places(alloc: Global, image: &Image, m: &Method) -> Result<List<bool>, NoMemory>
    requires fine { IsMethod image.now m.now }
    ensures { IfOk result (λ bad. (i : ℕ) → flag_at bad i
        ≡ list_any (is_bad_at image.now i) m.now.handlers) }
{
    let mut bad = no_flags(alloc, ops_of(image, m.number).len())?;
    let handlers = m.handlers.as_slice();
    for k in 0..handlers.len() {
        flag(image, &mut bad, &handlers[k]);
    }
    Ok(bad)
}

impl Facts {
    /// What is known of a method.
    pub fn new(alloc: Global, image: &Image, m: &Method) -> Result<Facts, NoMemory>
        requires fine { IsMethod image.now m.now }
        ensures { IfOk result (λ facts. IsKnown image.now m.now facts) }
    {
        Ok(Facts {
            bad: bad_places(alloc, image, m)?,
            handlers: HandlerTree::new(alloc, m.handlers.as_slice())?,
        })
    }

    /// Whether a handler at a place catches a class that isn't thrown.
    pub fn is_bad(&self, i: usize) -> bool
        ensures { result ≡ flag_at self.now.bad i }
    {
        match self.bad.get(i) {
            Some(flag) => *flag,
            None => false,
        }
    }
}
