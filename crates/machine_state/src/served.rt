//! What a served request does, as the code hands it on.

use crate::request::Answer;
use crate::state::{Choice, ClassState, MonitorState};
use jvm_base::{List, Name, ObjectBody, Uncaught, Units, Value};

/// A change to what threads share: an object is made; a field or an element takes a value; units are
/// put behind the content of a buffer; a lock is owned, or free; a thread falls asleep on a lock; one
/// that slept there may retake it, or all may; a class is in a state; a thread is started on an
/// object, or has finished; an exception isn't caught; bytes are written.
#[derive(Drop)]
pub enum Effect {
    Made(Name, ObjectBody),
    SetsField(Name, u32, Value),
    SetsElement(Name, u32, Value),
    Appends(Name, Units),
    Owned(Name, MonitorState),
    Freed(Name),
    Sleeps(Name, u32),
    Moved(Name, u32),
    MovedAll(Name),
    Becomes(u32, ClassState),
    Started(Name),
    Finished(u32),
    Lost(Uncaught),
    Printed(List<u8>),
}

/// The changes of one step, in order. Most steps make at most two, which take no list.
#[derive(Drop)]
pub enum Effects {
    Nothing,
    One(Effect),
    Two(Effect, Effect),
    Many(List<Effect>),
}

/// Which choice a step is to follow: a given one; or the run's own, which picks the first waiter, and
/// names what is made by a node and the indices from one on.
#[derive(Clone, Copy, Debug, PartialEq, Eq)]
pub enum Wish {
    Exactly(Choice),
    Fresh { thread: u32, node: u8, index: u32 },
}

/// What a request does, which was served and is still to be done: the choice that it follows, whether
/// its pick and its name are those that the request wants, its changes, and its answer.
#[derive(Drop)]
pub struct Served {
    pub choice: Choice,
    pub pick_fits: bool,
    pub name_fits: bool,
    pub effects: Effects,
    pub answer: Answer,
}
