//! A thread that raises an exception, and levels that aren't in the body of their code.

ghost use Rattle.std.specs.Prelude.{◌≡◌, ℕ, List as Items, ◌<◌, length, not, Option, None, Some};
ghost use Rattle.jvm_base.specs.Words.{from};
ghost use Rattle.jvm_base.specs.declared.frame.Frame.{Frame as Called};
ghost use Rattle.jvm_base.specs.declared.name.Name.{Name as Named};
ghost use Rattle.program_image.specs.Program.{Program as Linked};
ghost use Rattle.program_image.specs.Subclass.{is_sub_of};
ghost use Rattle.machine_state.specs.BootClasses.{error};
ghost use Rattle.machine_state.specs.Plan.{unwinds, handler_for, handled, init_plan};
ghost use Rattle.machine_state.specs.declared.request.Request.TheVariants.{InitFail};
ghost use Rattle.program_reads.specs.Whole.{IsWhole};
ghost use Rattle.step_plan.specs.Depth.{who_at};
ghost use Rattle.step_plan.specs.Shown.{shown, shown_next};
ghost use Rattle.step_plan.specs.declared.plan.Next.TheVariants as told;
ghost use Rattle.step_plan.specs.Ways.{GoesBy};

use crate::plan::{Next, Plan};
use crate::site::{Site, calls};
use jvm_base::{Frame, List, Name, Phase};
use machine_state::Request;
use program_image::Image;
use program_reads::{boot, clinit_of, handler, is_sub, super_of};
use std::alloc::Global;

/// The handler that an exception meets in a frame.
fn handler_for(image: &Image, frame: &Frame, exception: Name) -> Option<u32>
    requires { IsWhole image.now }
    ensures { result ≡ handler_for image.now frame.now exception }
{
    match frame.phase {
        Phase::Body => handler(image, frame.method, frame.at, exception.class),
        _ => None,
    }
}

/// A frame that an exception leaves.
fn unwinds(frame: &Frame) -> Next
    ensures { (p : Linked) (f : Option Called) → shown_next p f result
        ≡ unwinds frame.now.phase frame.now.lock }
{
    match (frame.phase, frame.lock) {
        (Phase::Body, Some(lock)) => Next::Needs(Request::Exit(lock, true)),
        _ => Next::Drops,
    }
}

/// An exception at a frame.
pub(crate) fn raises_in(image: &Image, frame: &Frame, exception: Name) -> Next
    requires { IsWhole image.now }
    ensures next { shown_next image.now (Some frame.now) result
        ≡ from (unwinds frame.now.phase frame.now.lock) (handled frame.now exception) (handler_for image.now frame.now exception) }
    ensures goes { GoesBy image.now (Some frame.now) result }
{
    match handler_for(image, frame, exception) {
        Some(at) => Next::Caught { exception, at },
        None => unwinds(frame),
    }
}

/// An exception at the initialisation of a class.
pub(crate) fn fails(image: &Image, class: u32, exception: Name) -> Next
    requires { IsWhole image.now }
    ensures { result ≡ told.Needs
        (InitFail class (not (is_sub_of image.now.classes exception.class error))) }
{
    let replaced = !is_sub(image, exception.class, boot::ERROR);
    Next::Needs(Request::InitFail(class, replaced))
}

/// A class that its thread initialises.
pub(crate) fn initialises(alloc: Global, site: &Site<'_>, class: u32, begun: bool) -> Plan
    ensures { (known : Named → Option (Items ℕ)) → shown site.now.image.now None result
        ≡ init_plan site.now.image.now (who_at site.now known) class begun }
{
    let done = Next::Needs(Request::InitDone(class));
    if begun {
        return Plan {
            asks: None,
            next: done,
        };
    }
    Plan {
        asks: super_of(site.image, class),
        next: match clinit_of(site.image, class) {
            Some(method) => calls(site, method, List::new(alloc)),
            None => done,
        },
    }
}
