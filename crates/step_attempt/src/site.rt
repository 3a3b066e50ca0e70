//! A machine as its steps look at it.

ghost use Rattle.std.specs.Prelude.{◌≡◌};
ghost use Rattle.machine_state.specs.State.{body_at};
ghost use Rattle.machine_state.specs.Step.{text_in};
ghost use Rattle.machine_state.specs.declared.request.Request.{Request as Asking};
ghost use Rattle.machine_state.specs.Requests.{OfLock};
ghost use Rattle.step_serve.specs.Cells.{IsAt, IsCell, wish_thread};
ghost use Rattle.step_attempt.specs.Going.{state_at};

use jvm_base::Name;
use machine_state::{Request, Wish};
use program_image::Image;
use program_reads::Tables;
use shared_state::{Shared, Thread, thread_of};
use step_plan::Texts;
use step_serve::{Blanks, Cell};

/// A program with its tables, what its threads share, their table, and which choice a step is to
/// follow.
#[derive(Clone, Copy)]
pub struct Site<'a> {
    pub image: &'a Image,
    pub tables: &'a Tables,
    pub blanks: &'a Blanks,
    pub shared: &'a Shared,
    pub threads: &'a [Thread],
    pub wish: Wish,
}

/// The contents of all Strings and buffers: on one machine each of them is known.
#[derive(Drop)]
pub(crate) struct Known<'a> {
    pub shared: &'a Shared,
}

impl Texts for Known<'_> {
    ghost known = { λ a. λ n. text_in (body_at a.shared.now.heap n) };

    fn text(&self, name: Name) -> Option<&[u16]> {
        self.shared.text(name)
    }
}

/// The thread that is to step.
pub fn thread_in(wish: Wish) -> u32
    ensures { result ≡ wish_thread wish }
{
    match wish {
        Wish::Exactly(choice) => choice.thread,
        Wish::Fresh {
            thread,
            node: _,
            index: _,
        } => thread,
    }
}

impl<'a> Site<'a> {
    /// A lock, and who sleeps on it or on another.
    fn lock(&self, lock: Name) -> Cell<'a>
        ensures { (r : Asking) → IsAt (state_at self.now) r (OfLock lock) result }
    {
        Cell::Lock {
            owner: self.shared.owner(lock),
            waiting: self.shared.waiting(),
        }
    }

    /// What a request addresses.
    pub(crate) fn cell(&self, request: &Request) -> Cell<'a>
        ensures { IsCell (state_at self.now) request.now result }
    {
        match request {
            Request::Get(name, _) => Cell::Body(self.shared.body(*name)),
            Request::Put(name, _, _) => Cell::Body(self.shared.body(*name)),
            Request::Load(name, _) => Cell::Body(self.shared.body(*name)),
            Request::Store(name, _, _) => Cell::Body(self.shared.body(*name)),
            Request::Len(name) => Cell::Body(self.shared.body(*name)),
            Request::Buffer(name, _, _) => Cell::Body(self.shared.body(*name)),
            Request::Enter(lock) => self.lock(*lock),
            Request::Exit(lock, _) => self.lock(*lock),
            Request::Wait(lock) => self.lock(*lock),
            Request::Notify(lock) => self.lock(*lock),
            Request::NotifyAll(lock) => self.lock(*lock),
            Request::Begin(class) => Cell::Class(self.shared.class(*class)),
            Request::InitDone(class) => Cell::Class(self.shared.class(*class)),
            Request::InitFail(class, _) => Cell::Class(self.shared.class(*class)),
            Request::Start(object) => Cell::Thread(thread_of(self.threads, *object)),
            Request::Join(object) => Cell::Thread(thread_of(self.threads, *object)),
            Request::Finish(_) => Cell::Thread(None),
            Request::Print(_) => Cell::Console,
            Request::Make(_, _) | Request::MakeText(_) | Request::Fault(_) => Cell::Nowhere,
        }
    }
}
