//! What a call answers.

ghost use Rattle.std.specs.Prelude.{◌≡◌, Some};
ghost use Rattle.one_jvm.specs.Outcomes.{place_of, status_of, end_status, outcome_status};

use class_file::ClassErr;
use flow_verifier::FlowErr;
use link_rules::LinkErr;
use machine_state::Order;
use thiserror::Error;

/// How a run ended: every thread has ended, and none left an exception uncaught, or some did; a
/// thread took as many steps as it may; no thread that hasn't ended can take a step; a thread would
/// start one more than there may be; a write of the program's output failed; no memory was left.
#[derive(Clone, Copy, Debug, PartialEq, Eq)]
pub enum Stop {
    Done,
    Uncaught,
    StepLimit { thread: u32 },
    Deadlock,
    ThreadsFull { thread: u32 },
    WriteFault,
    NoMemory,
}

/// Why a call isn't done. A file is named by its place, from 0, among the words that
/// name files.
#[derive(Debug, Drop, Error)]
pub enum Refusal {
    /// The words are not those of a command. Status 2.
    #[error("usage")]
    Usage,
    /// A file is no class file, and why. Status 3.
    #[error("refused {why}")]
    File { file: u32, why: ClassErr },
    /// The files aren't linked, and why. Status 3.
    #[error("refused {0}")]
    Link(LinkErr),
    /// The files are linked, but a method of theirs has no typing: the first such method, by its
    /// number in the linked program, and the first rule that it breaks. Status 3.
    #[error("refused {0}")]
    Flow(FlowErr),
    /// There is no such file. Status 4.
    #[error("no file")]
    NoFile(u32),
    /// A file could not be read. Status 5.
    #[error("read fault")]
    ReadFault(u32),
    /// A write failed. Status 6.
    #[error("write fault")]
    WriteFault,
    /// A file is longer than it may be. Status 11.
    #[error("file too long")]
    TooLong(u32),
    /// The text of an order is none, and the line, from 1, of its first fault. Status 12.
    #[error("bad order line {0}")]
    BadOrder(u64),
    /// A choice of an order isn't enabled: its number, from 1. Status 12.
    #[error("step {0} not enabled")]
    NotEnabled(u64),
    /// Every choice of an order is enabled, and one more would be. Status 13.
    #[error("order ended early")]
    EarlyOrder,
    /// No memory was left. Status 20.
    #[error("want of memory")]
    NoMemory,
}

/// What a call answers: a status for the caller's process; the order of all steps of the run, empty
/// where none was begun; how the run ended, where one was begun; and what was refused, if anything.
/// Nothing is refused where the status is 0, or that of the end of a run or a replay: 1 with exceptions
/// that nothing caught, 8 at the limit on steps, 9 in a deadlock, 10 with too many threads. A replay
/// begins no run.
#[derive(Debug, Drop)]
pub struct Outcome {
    pub status: u8,
    pub order: Order,
    pub stop: Option<Stop>,
    pub refusal: Option<Refusal>,
}

/// The place of the file that a refusal names.
pub(crate) fn place_of(refusal: &Refusal) -> Option<u32>
    ensures { result ≡ place_of refusal.now }
{
    match refusal {
        Refusal::File { file, .. }
        | Refusal::NoFile(file)
        | Refusal::ReadFault(file)
        | Refusal::TooLong(file) => Some(*file),
        _ => None,
    }
}

/// The status of a call that isn't refused, by the end of its run or replay.
fn end_status(stop: Option<Stop>) -> u8
    ensures { result ≡ end_status stop }
{
    match stop {
        None | Some(Stop::Done) => 0,
        Some(Stop::Uncaught) => 1,
        Some(Stop::StepLimit { .. }) => 8,
        Some(Stop::Deadlock) => 9,
        Some(Stop::ThreadsFull { .. }) => 10,
        Some(Stop::WriteFault) => 6,
        Some(Stop::NoMemory) => 20,
    }
}

/// The status of a refusal.
fn status_of(refusal: &Refusal) -> u8
    ensures { result ≡ status_of (Some refusal.now) }
{
    match refusal {
        Refusal::Usage => 2,
        Refusal::File { .. } | Refusal::Link(_) | Refusal::Flow(_) => 3,
        Refusal::NoFile(_) => 4,
        Refusal::ReadFault(_) => 5,
        Refusal::WriteFault => 6,
        Refusal::TooLong(_) => 11,
        Refusal::BadOrder(_) | Refusal::NotEnabled(_) => 12,
        Refusal::EarlyOrder => 13,
        Refusal::NoMemory => 20,
    }
}

/// The status of an outcome, by the end of its run or replay and by what was refused.
pub(crate) fn outcome_status(stop: Option<Stop>, refusal: &Option<Refusal>) -> u8
    ensures { result ≡ outcome_status stop refusal.now }
{
    match refusal {
        None => end_status(stop),
        Some(refusal) => status_of(refusal),
    }
}
