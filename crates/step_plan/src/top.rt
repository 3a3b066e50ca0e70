//! What a thread does next, by its mode and its top level.

ghost use Rattle.std.specs.Prelude.{◌≡◌, ◌<◌, ◌∷◌, [], length, reverse, slice_get, IfOk};
ghost use Rattle.std.specs.Option.{option_copied};
ghost use Rattle.jvm_base.specs.declared.value.Value.TheVariants.{Ref};
ghost use Rattle.machine_state.specs.Classes.{thread_run};
ghost use Rattle.machine_state.specs.PreMade.{arguments};
ghost use Rattle.machine_state.specs.Plan.{entry_plan, plan};
ghost use Rattle.program_reads.specs.Kept.{IsKept};
ghost use Rattle.step_plan.specs.Condition.{CanPlan};
ghost use Rattle.step_plan.specs.Depth.{stepper, who_at};
ghost use Rattle.step_plan.specs.Shown.{shown, top_frame};
ghost use Rattle.step_plan.specs.Tops.{running_on, raising_on};
ghost use Rattle.step_plan.specs.Ways.{GoesBy};

use crate::bodies::frame_plan;
use crate::plan::{Next, Plan, asking, fault, plain};
use crate::site::{Site, calls};
use crate::unwinding::{fails, initialises, raises_in};
use crate::who::{Texts, Who};
use instruction_table::owner_of;
use jvm_base::{Level, List, Name, NoMemory, Value};
use machine_state::{Mode, Request};
use program_image::{Image, Selected};
use program_reads::{Tables, boot, select};
use std::alloc::Global;

/// The values of a call with one reference.
fn one_reference(alloc: Global, object: Name) -> Result<List<Value>, NoMemory>
    ensures { IfOk result (λ values. values ≡ Ref object ∷ []) }
{
    let mut values = List::new(alloc);
    values.push(Value::Ref(object))?;
    Ok(values)
}

/// The array that `main` is given.
fn arguments(site: &Site<'_>) -> Name
    requires { IsKept site.now.image.now site.now.tables.now }
    ensures { result ≡ arguments site.now.image.now }
{
    site.tables.arguments()
}

/// What a thread runs.
fn thread_run(site: &Site<'_>) -> u32
    requires { IsKept site.now.image.now site.now.tables.now }
    ensures value { result ≡ thread_run site.now.image.now }
    ensures within { result < length site.now.image.now.methods }
{
    site.tables.run()
}

/// A thread that has not begun. It looks at no text.
fn entry_plan<T: Texts>(alloc: Global, site: &Site<'_>, _texts: &T) -> Result<Plan, NoMemory>
    requires { IsKept site.now.image.now site.now.tables.now }
    ensures { IfOk result
        (λ r. shown site.now.image.now (top_frame (reverse site.now.levels.now)) r
        ≡ entry_plan site.now.image.now (who_at site.now (T.known _texts.now))) }
{
    if site.first {
        let main = site.image.main();
        let values = one_reference(alloc, arguments(site))?;
        return Ok(asking(owner_of(site.image, main), calls(site, main, values)));
    }
    let run = thread_run(site);
    Ok(plain(match select(site.image, site.object.class, run, false) {
        Selected::Found(method) => calls(site, method, one_reference(alloc, site.object)?),
        Selected::NoBody => fault(boot::ABSTRACT_METHOD),
        Selected::NoInterface => fault(boot::CLASS_CHANGE),
        Selected::NotPublic => fault(boot::ILLEGAL_ACCESS),
    }))
}

/// The top level.
#[tactic(auto, using(crate::proofs::TopLaws::top_is))]
fn top(levels: &[Level]) -> Option<&Level>
    ensures { option_copied result ≡ slice_get (reverse levels.now) 0 }
{
    levels.last()
}

/// A thread that runs; one without levels ends.
fn running_plan<T: Texts>(alloc: Global, site: &Site<'_>, texts: &T) -> Result<Plan, NoMemory>
    requires kept { IsKept site.now.image.now site.now.tables.now }
    requires can { CanPlan site.now.image.now (reverse site.now.levels.now) }
    ensures plan { IfOk result
        (λ r. shown site.now.image.now (top_frame (reverse site.now.levels.now)) r
        ≡ running_on site.now.image.now (who_at site.now (T.known texts.now))
        (slice_get (reverse site.now.levels.now) 0)) }
    ensures goes { IfOk result
        (λ r. GoesBy site.now.image.now (top_frame (reverse site.now.levels.now)) r.next) }
{
    match top(site.levels) {
        None => Ok(plain(Next::Needs(Request::Finish(None)))),
        Some(Level::Code(frame)) => frame_plan(alloc, site, texts, frame),
        Some(Level::Init { class, begun }) => Ok(initialises(alloc, site, *class, *begun)),
    }
}

/// A thread that raises an exception.
fn raising_plan(site: &Site<'_>, exception: Name) -> Plan
    requires { IsKept site.now.image.now site.now.tables.now }
    ensures plan { shown site.now.image.now (top_frame (reverse site.now.levels.now)) result
        ≡ raising_on site.now.image.now exception (slice_get (reverse site.now.levels.now) 0) }
    ensures goes { GoesBy site.now.image.now (top_frame (reverse site.now.levels.now)) result.next }
{
    plain(match top(site.levels) {
        None => Next::Needs(Request::Finish(Some(exception))),
        Some(Level::Code(frame)) => raises_in(site.image, frame, exception),
        Some(Level::Init { class, begun: _ }) => fails(site.image, *class, exception),
    })
}

/// What a thread does next that neither waits nor has ended. The last of the levels is the top one.
#[tactic(auto, using(crate::proofs::TopLaws::running_is, crate::proofs::TopLaws::raising_is), unfolding(machine_state::specs::Plan::plan))]
pub fn plan_of<T: Texts>(
    alloc: Global,
    image: &Image,
    tables: &Tables,
    who: &Who<'_, T>,
    mode: Mode,
    levels: &[Level],
) -> Result<Plan, NoMemory>
    requires kept { IsKept image.now tables.now }
    requires can { CanPlan image.now (reverse levels.now) }
    ensures plan { IfOk result
        (λ r. shown image.now (top_frame (reverse levels.now)) r
        ≡ plan image.now (stepper who.now.first who.now.object who.now.base levels.now
        (T.known who.now.texts.now)) mode (reverse levels.now)) }
    ensures goes { IfOk result (λ r. GoesBy image.now (top_frame (reverse levels.now)) r.next) }
{
    let site = Site {
        image,
        tables,
        first: who.first,
        object: who.object,
        base: who.base,
        levels,
    };
    match mode {
        Mode::Entry => entry_plan(alloc, &site, who.texts),
        Mode::Running => running_plan(alloc, &site, who.texts),
        Mode::Raising(exception) => Ok(raising_plan(&site, exception)),
        _ => Ok(plain(Next::Stuck)),
    }
}
