//! What a thread does next, as data.

ghost use Rattle.std.specs.Prelude.{◌≡◌, Some, None};
ghost use Rattle.machine_state.specs.declared.request.Request.TheVariants.{Fault};

use frame_ops::Given;
use jvm_base::{List, Name, Value};
use machine_state::Request;

/// What a thread may do next. `Moves`: the table's move of its frame's instruction, with what the
/// program tells that; the instruction comes to no more than a next frame. `Answered`: its frame's
/// instruction is answered with this, and nothing was asked. `Caught`: an exception meets a handler
/// of its frame at an address. It throws; calls a method; leaves with a result; is dropped by an
/// exception; or something is asked of a part that threads share. `Wants` is the want of a text that
/// isn't known here; `Stuck` comes of no verified program.
#[derive(Drop)]
pub enum Next {
    Moves(Given),
    Answered(Option<Value>),
    Caught { exception: Name, at: u32 },
    Throws(Name),
    Calls(u32, List<Value>),
    Leaves(Option<Value>),
    Drops,
    Needs(Request),
    Wants(Name),
    Stuck,
}

/// The class that must be initialised first, if any, and what comes then.
#[derive(Drop)]
pub struct Plan {
    pub asks: Option<u32>,
    pub next: Next,
}

/// No class is asked for.
pub(crate) fn plain(next: Next) -> Plan
    ensures { result ≡ record { asks = None; next = next } }
{
    Plan { asks: None, next }
}

/// A class is asked for.
pub(crate) fn asking(class: u32, next: Next) -> Plan
    ensures { result ≡ record { asks = Some class; next = next } }
{
    Plan {
        asks: Some(class),
        next,
    }
}

/// An exception that the machine itself makes, of a class.
pub(crate) fn fault(class: u32) -> Next
    ensures { result ≡ Next.Needs (Fault class) }
{
    Next::Needs(Request::Fault(class))
}
