//! Threads, and their table.

ghost use Rattle.std.specs.Prelude.{◌≡◌, map, find};
ghost use Rattle.std.specs.Option.{option_copied};
ghost use Rattle.machine_state.specs.State.{is_ended};
ghost use Rattle.machine_state.specs.Serve.{thread_of};
ghost use Rattle.shared_state.specs.Looks.{is_of};
ghost use Rattle.shared_state.specs.Parts.{thread_state};

use jvm_base::{Level, Name};
use machine_state::Mode;

/// A thread: its Thread object, mode, levels (the top one last), and how many steps it took.
#[derive(Drop)]
pub struct Thread {
    pub object: Name,
    pub mode: Mode,
    pub levels: Vec<Level>,
    pub steps: u64,
}

/// Whether the thread takes no more steps.
fn is_ended(mode: Mode) -> bool
    ensures { result ≡ is_ended mode }
{
    matches!(mode, Mode::Ended)
}

/// The first thread of a Thread object.
fn first_of(threads: &[Thread], object: Name) -> Option<&Thread>
    ensures { option_copied result ≡ find (is_of object) threads.now }
{
    threads.iter().find(|thread| thread.object == object)
}

/// Whether the thread of a Thread object has ended; `None` exactly where it was never started.
#[tactic(auto, using(crate::proofs::ThreadLaws::first_found, crate::proofs::ThreadLaws::none_found))]
pub fn thread_of(threads: &[Thread], object: Name) -> Option<bool>
    ensures { result ≡ thread_of object
        (map (λ t. (t.object, is_ended t.mode)) (map thread_state threads.now)) }
{
    let thread = first_of(threads, object)?;
    Some(is_ended(thread.mode))
}
