//! What the owner of a monitor does with those who wait for it.

ghost use Rattle.std.specs.Prelude.{◌≡◌, [], ◌∷◌, ◌++◌, ◌<◌, ◌≤◌, ◌+◌, ◌^◌, ◌↔◌, true, false, IsTrue, OnOk, OnErr, IfOk, IfErr, IsOk, None, option_map, length};
ghost use Rattle.cluster_monitor.specs.Monitors.{owner_at, count_of, is_for, first_for, without_first, request, IsOwnedBy};
ghost use Rattle.wait_sets.specs.WaitSets.{owns, all_for, without_all, as_list};
ghost use Rattle.wait_sets.specs.declared.error.WaitErr.TheVariants.{NotOwner};

use crate::error::WaitErr;
use crate::wait_sets::WaitSets;
use cluster_monitor::{Monitors, Request};
use jvm_base::{Name, NoMemory};

/// The thread waits for the monitor: it gives it up wholly, and keeps how often it owned it.
pub fn wait(
    monitors: &mut Monitors,
    sets: &mut WaitSets,
    name: Name,
    thread: u32,
) -> Result<(), WaitErr>
    ensures owner { OnOk result (owns thread name monitors.old.items ≡ true) }
    ensures cause { IfErr result
        (λ e. e ≡ NotOwner ↔ owns thread name monitors.old.items ≡ false) }
    ensures err { OnErr result
        ((monitors.new.items ≡ monitors.old.items) × (sets.new.items ≡ sets.old.items)) }
    ensures owners { OnOk result (IsOwnedBy name None
        monitors.old.items.owners monitors.new.items.owners) }
    ensures queue { monitors.new.items.queue ≡ monitors.old.items.queue }
    ensures waiting { OnOk result (sets.new.items ≡ sets.old.items
        ++ request name thread (count_of (owner_at monitors.old.items.owners name)) ∷ []) }
    ensures succeeds { 0 < sets.old.room → owns thread name monitors.old.items ≡ true →
        IsOk result }
    ensures room { (monitors.old.room ≤ monitors.new.room)
        × (sets.old.room ≤ sets.new.room + 1) }
{
    let count = monitors.count(name, thread)?;
    sets.push(Request {
        name,
        thread,
        count,
    })?;
    monitors.free(name);
    Ok(())
}

/// The first who waits for the monitor waits no longer, and is queued for it; `None` exactly where
/// nobody waits.
#[tactic(auto, using(crate::proofs::WaitLaws::none_is_gone))]
pub fn notify(
    monitors: &mut Monitors,
    sets: &mut WaitSets,
    name: Name,
    thread: u32,
) -> Result<Option<u32>, WaitErr>
    ensures owner { OnOk result (owns thread name monitors.old.items ≡ true) }
    ensures cause { IfErr result
        (λ e. e ≡ NotOwner ↔ owns thread name monitors.old.items ≡ false) }
    ensures err { OnErr result
        ((monitors.new.items ≡ monitors.old.items) × (sets.new.items ≡ sets.old.items)) }
    ensures first { IfOk result
        (λ w. w ≡ option_map (λ q. q.thread) (first_for name sets.old.items)) }
    ensures owners { monitors.new.items.owners ≡ monitors.old.items.owners }
    ensures queue { OnOk result (monitors.new.items.queue ≡ monitors.old.items.queue
        ++ as_list (first_for name sets.old.items)) }
    ensures waiting { OnOk result (sets.new.items ≡ without_first name sets.old.items) }
    ensures succeeds { 0 < monitors.old.room → owns thread name monitors.old.items ≡ true →
        IsOk result }
    ensures room { (monitors.old.room
        ≤ monitors.new.room + length (as_list (first_for name sets.old.items)))
        × (sets.old.room ≤ sets.new.room) }
{
    let _ = monitors.count(name, thread)?;
    let Some(waiter) = sets.first(name) else {
        return Ok(None);
    };
    monitors.request(waiter)?;
    sets.remove_first(name);
    Ok(Some(waiter.thread))
}

/// Nobody waits for the monitor any longer: all who did are queued for it, in their order. The
/// answer is how many they are.
pub fn notify_all(
    monitors: &mut Monitors,
    sets: &mut WaitSets,
    name: Name,
    thread: u32,
) -> Result<u32, WaitErr>
    ensures owner { OnOk result (owns thread name monitors.old.items ≡ true) }
    ensures cause { IfErr result
        (λ e. e ≡ NotOwner ↔ owns thread name monitors.old.items ≡ false) }
    ensures err { OnErr result
        ((monitors.new.items ≡ monitors.old.items) × (sets.new.items ≡ sets.old.items)) }
    ensures count { IfOk result (λ k. k ≡ length (all_for name sets.old.items)) }
    ensures owners { monitors.new.items.owners ≡ monitors.old.items.owners }
    ensures queue { OnOk result (monitors.new.items.queue ≡ monitors.old.items.queue
        ++ all_for name sets.old.items) }
    ensures waiting { OnOk result (sets.new.items ≡ without_all name sets.old.items) }
    ensures succeeds { length (all_for name sets.old.items) ≤ monitors.old.room →
        length (all_for name sets.old.items) < 2 ^ 32 →
        owns thread name monitors.old.items ≡ true → IsOk result }
    ensures room { (monitors.old.room
        ≤ monitors.new.room + length (all_for name sets.old.items))
        × (sets.old.room ≤ sets.new.room) }
{
    let _ = monitors.count(name, thread)?;
    let count = few(sets.count(name))?;
    monitors.reserve(u64::from(count))?;
    request_all(monitors, sets.as_slice(), name);
    sets.remove_all(name);
    Ok(count)
}

/// So many waiters as a number of threads.
fn few(count: usize) -> Result<u32, NoMemory>
    ensures ok { IfOk result (λ k. k ≡ count) }
    ensures succeeds { count < 2 ^ 32 → IsOk result }
{
    match u32::try_from(count) {
        Ok(count) => Ok(count),
        Err(_) => Err(NoMemory),
    }
}

/// Queues those who wait for the monitor.
fn request_all(monitors: &mut Monitors, waiters: &[Request], name: Name)
    requires { length (all_for name waiters.now) ≤ monitors.old.room }
    ensures owners { monitors.new.items.owners ≡ monitors.old.items.owners }
    ensures queue { monitors.new.items.queue ≡ monitors.old.items.queue
        ++ all_for name waiters.now }
    ensures room { monitors.old.room ≤ monitors.new.room + length (all_for name waiters.now) }
{
    for waiter in waiters {
        request_for(monitors, *waiter, name);
    }
}

/// Queues the waiter, where it waits for the monitor.
fn request_for(monitors: &mut Monitors, waiter: Request, name: Name)
    requires { IsTrue (is_for name waiter) → 0 < monitors.old.room }
    ensures owners { monitors.new.items.owners ≡ monitors.old.items.owners }
    ensures queue { monitors.new.items.queue ≡ monitors.old.items.queue
        ++ all_for name (waiter ∷ []) }
    ensures room { monitors.old.room ≤ monitors.new.room + length (all_for name (waiter ∷ [])) }
{
    if waiter.name == name {
        match monitors.request(waiter) {
            Ok(()) => {}
            Err(_) => unreachable!(),
        }
    }
}
