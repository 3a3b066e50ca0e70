//! What an instruction is given from outside of its frame, and what it comes to there.

use jvm_base::{Name, Value};

/// An exception that an instruction raises by itself: a divisor is 0; a receiver, array, lock or
/// thrown object is null; `checkcast` meets an object of another class; an array is to have a negative
/// size (JVMS2 6).
#[derive(Clone, Copy, Debug, PartialEq, Eq)]
pub enum Fault {
    Arithmetic,
    NullPointer,
    ClassCast,
    NegativeSize,
}

/// What the program tells an instruction: the value that `ldc` and its like push, or whether the
/// object before `checkcast` or `instanceof` is of the class that is named.
#[derive(Clone, Copy, Debug, PartialEq, Eq)]
pub enum Given {
    Nothing,
    Constant(Value),
    Fits(bool),
}

/// What an instruction comes to: the frame has gone on; an exception is raised or thrown; something
/// that threads share is asked for; a method is called; the frame ends with its result, if any. The
/// frame is as before, unless it has gone on.
#[derive(Clone, Copy, Debug, PartialEq, Eq)]
pub enum Pure {
    Next,
    Raise(Fault),
    Throw(Name),
    Heap,
    Call,
    Leave(Option<Value>),
}
