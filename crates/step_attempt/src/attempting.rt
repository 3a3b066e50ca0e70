//! A thread's next step, by its mode.

ghost use Rattle.std.specs.Prelude.{◌≡◌, [], reverse, slice_get, IfOk};
ghost use Rattle.machine_state.specs.declared.state.Mode.TheVariants.{Entry};
ghost use Rattle.machine_state.specs.Step.{asked, awake, planned, retaken};
ghost use Rattle.program_reads.specs.Kept.{IsKept};
ghost use Rattle.shared_state.specs.Parts.{thread_state};
ghost use Rattle.step_plan.specs.Condition.{CanPlan};
ghost use Rattle.step_plan.specs.Shown.{shown};
ghost use Rattle.step_plan.specs.Ways.{GoesBy};
ghost use Rattle.step_serve.specs.Blank.{AreBlanks};
ghost use Rattle.step_attempt.specs.Going.{IsAttempt, IsToldAt, CanAskAt, next_at, state_at, top_of};

use crate::going::{Going, going_on};
use crate::perform::{ask, perform};
use crate::site::{Known, Site, thread_in};
use jvm_base::{Name, NoMemory};
use machine_state::{ClassState, Mode, Request};
use program_reads::boot;
use shared_state::Thread;
use std::alloc::Global;
use step_after::After;
use step_plan::{Next, Plan, Who, plan_of};
use step_serve::retake;

/// First the class that is asked for: done, or begun by this thread, the step goes on; untouched, its
/// initialisation begins; failed, an exception is made; begun by another thread, the step waits
/// (JVMS2 2.17.5).
fn after_class(
    alloc: Global,
    site: &Site<'_>,
    thread: &Thread,
    class: u32,
    next: Next,
) -> Result<Option<Going>, NoMemory>
    requires blanks { AreBlanks site.now.image.now site.now.blanks.now }
    requires goes { GoesBy site.now.image.now (top_of thread.now) next }
    requires asks { CanAskAt site.now thread.now next }
    ensures { IfOk result (IsToldAt site.now thread.now
        (λ c. asked site.now.image.now (state_at site.now) c thread.now.mode
        (reverse thread.now.levels.items) (next_at site.now thread.now next) class
        (slice_get (state_at site.now).classes class))) }
{
    match site.shared.class(class) {
        None => Ok(None),
        Some(ClassState::Done) => perform(alloc, site, thread, next),
        Some(ClassState::Running(owner)) => {
            if owner == thread_in(site.wish) {
                perform(alloc, site, thread, next)
            } else {
                Ok(None)
            }
        }
        Some(ClassState::Untouched) => ask(alloc, site, thread, Request::Begin(class)),
        Some(ClassState::Failed) => ask(alloc, site, thread, Request::Fault(boot::NO_CLASS_FOUND)),
    }
}

/// What a thread plans.
fn follow(
    alloc: Global,
    site: &Site<'_>,
    thread: &Thread,
    plan: Plan,
) -> Result<Option<Going>, NoMemory>
    requires blanks { AreBlanks site.now.image.now site.now.blanks.now }
    requires goes { GoesBy site.now.image.now (top_of thread.now) plan.next }
    requires asks { CanAskAt site.now thread.now plan.next }
    ensures { IfOk result (IsToldAt site.now thread.now
        (λ c. planned site.now.image.now (state_at site.now) c thread.now.mode
        (reverse thread.now.levels.items) (shown site.now.image.now (top_of thread.now) plan))) }
{
    match plan.asks {
        None => perform(alloc, site, thread, plan.next),
        Some(class) => after_class(alloc, site, thread, class, plan.next),
    }
}

/// The next step of a thread that neither waits nor has ended.
fn awake(alloc: Global, site: &Site<'_>, thread: &Thread) -> Result<Option<Going>, NoMemory>
    requires kept { IsKept site.now.image.now site.now.tables.now }
    requires blanks { AreBlanks site.now.image.now site.now.blanks.now }
    requires can { CanPlan site.now.image.now (reverse thread.now.levels.items) }
    requires entry { thread.now.mode ≡ Entry → reverse thread.now.levels.items ≡ [] }
    ensures { IfOk result (IsToldAt site.now thread.now
        (λ c. awake site.now.image.now (state_at site.now) c (thread_state thread.now))) }
{
    let known = Known {
        shared: site.shared,
    };
    let who = Who {
        first: thread_in(site.wish) == 0,
        object: thread.object,
        base: 0,
        texts: &known,
    };
    let plan = plan_of(
        alloc,
        site.image,
        site.tables,
        &who,
        thread.mode,
        thread.levels.as_slice(),
    )?;
    follow(alloc, site, thread, plan)
}

/// The next step of a thread that woke: it takes its lock again.
fn woken(site: &Site<'_>, thread: &Thread, lock: Name, count: u32) -> Option<Going>
    ensures { IsToldAt site.now thread.now
        (λ c. retaken (state_at site.now) c (reverse thread.now.levels.items) lock count) result }
{
    let _ = thread;
    let served = retake(
        site.wish,
        thread_in(site.wish),
        lock,
        count,
        site.shared.owner(lock),
        site.shared.waiting(),
    );
    going_on(served, After::Retakes)
}

/// What the next step of a thread does; `None` exactly where it can take none, whatever the choice's
/// pick and name. The thread is the one of the wish. Nothing is changed.
#[tactic(auto, unfolding(machine_state::specs::Step::attempt))]
pub fn attempt(alloc: Global, site: &Site<'_>, thread: &Thread) -> Result<Option<Going>, NoMemory>
    requires kept { IsKept site.now.image.now site.now.tables.now }
    requires blanks { AreBlanks site.now.image.now site.now.blanks.now }
    requires can { CanPlan site.now.image.now (reverse thread.now.levels.items) }
    requires entry { thread.now.mode ≡ Entry → reverse thread.now.levels.items ≡ [] }
    ensures { IfOk result (IsAttempt site.now.image.now (state_at site.now) site.now.wish
        (thread_state thread.now)) }
{
    match thread.mode {
        Mode::Waiting { lock, count } => Ok(woken(site, thread, lock, count)),
        Mode::Ended => Ok(None),
        _ => awake(alloc, site, thread),
    }
}
