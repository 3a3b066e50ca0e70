//! What completing needs to know of a request.

ghost use Rattle.std.specs.Prelude.{◌≡◌, List};
ghost use Rattle.jvm_base.specs.declared.frame.Level.{Level as AnyLevel};
ghost use Rattle.program_image.specs.Program.{Program};
ghost use Rattle.machine_state.specs.declared.request.Answer.{Answer as AnyAnswer};
ghost use Rattle.machine_state.specs.declared.state.Mode.{Mode as AnyMode};
ghost use Rattle.machine_state.specs.Complete.{complete};
ghost use Rattle.step_complete.specs.Asked.{request_like, asked_for};

use jvm_base::Name;
use machine_state::Request;

/// A request as far as it decides how its answer completes a thread: without what it hands over.
/// `Other` is a request whose answer goes to the top frame and no further.
#[derive(Clone, Copy, Debug, PartialEq, Eq)]
pub enum Asked {
    Enter,
    Exit { raising: bool },
    Wait(Name),
    Begin(u32),
    InitDone,
    InitFail,
    Finish,
    Other,
}

/// What completing needs to know of a request, to be kept where the request is handed in.
#[tactic(auto, unfolding(machine_state::specs::Complete::complete))]
pub fn asked_of(request: &Request) -> Asked
    ensures asked { result ≡ asked_for request.now }
    ensures alike { (p : Program) (a : AnyAnswer) (mode : AnyMode) (ls : List AnyLevel) →
        complete p request.now a mode ls ≡ complete p (request_like result) a mode ls }
{
    match request {
        Request::Enter(_) => Asked::Enter,
        Request::Exit(_, raising) => Asked::Exit { raising: *raising },
        Request::Wait(lock) => Asked::Wait(*lock),
        Request::Begin(class) => Asked::Begin(*class),
        Request::InitDone(_) => Asked::InitDone,
        Request::InitFail(_, _) => Asked::InitFail,
        Request::Finish(_) => Asked::Finish,
        _ => Asked::Other,
    }
}
