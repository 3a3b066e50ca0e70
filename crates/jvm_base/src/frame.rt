//! Frames, and the levels of a thread.

ghost use Rattle.std.specs.Prelude.{◌≡◌, ◌∷◌, ◌+◌, [], length, slice_get, IsSome, ◌↔◌, IfSome, OnOk, OnErr, MatchOption};
ghost use Rattle.std.specs.Option.{option_copied};
ghost use Rattle.jvm_base.specs.Tops.{FrameTakes, LevelTakes, TopTakes, frame_answered, level_answered, top_answered};

use crate::list::List;
use crate::memory::NoMemory;
use crate::name::Name;
use crate::operands::Operands;
use crate::value::Value;
use std::alloc::Global;
use std::marker::Model;

/// Where a call stands about the lock of its method: `Lock` before it is entered, `Body` while the
/// code runs, `Unlock` with the result once it was left.
#[derive(Clone, Copy, Debug, PartialEq, Eq)]
pub enum Phase {
    Lock,
    Body,
    Unlock(Option<Value>),
}

/// A call that is going on (JVMS2 3.6). `lock` is what `Phase::Lock` enters, and never changes; it
/// is there exactly for a synchronized method. A long takes its local and the next one, which holds
/// `Int(0)`.
#[derive(Drop)]
pub struct Frame {
    pub method: u32,
    pub at: u32,
    pub phase: Phase,
    pub lock: Option<Name>,
    pub locals: List<Value>,
    pub stack: Operands,
}

/// A call, or a class that its thread initialises; `begun` says that its initialiser was called.
#[derive(Drop)]
pub enum Level {
    Code(Frame),
    Init { class: u32, begun: bool },
}

/// The levels of a thread. Contracts see them with the top one first.
#[derive(Drop)]
pub struct Levels {
    items: Vec<Level>,
}

impl Model for Levels {
    ghost use Rattle.std.specs.Prelude.{List, reverse};
    ghost use Rattle.jvm_base.specs.declared.frame.Level.{Level};

    ghost Value = { List Level };

    ghost view = { λ a. reverse a.items.items };
}

impl Levels {
    /// No levels. It takes no memory.
    pub fn new(alloc: Global) -> Levels
        ensures { result ≡ [] }
    {
        Levels {
            items: Vec::new(alloc),
        }
    }

    /// Puts a level on top.
    pub fn push(&mut self, level: Level) -> Result<(), NoMemory>
        ensures ok { OnOk result (self.new ≡ level ∷ self.old) }
        ensures err { OnErr result (self.new ≡ self.old) }
    {
        self.items.push(level)?;
        Ok(())
    }

    /// Takes the top level; `None` exactly where there is none.
    pub fn pop(&mut self) -> Option<Level>
        ensures { MatchOption result ((self.old ≡ []) × (self.new ≡ [])) (λ top. self.old ≡ top ∷ self.new) }
    {
        self.items.pop()
    }

    /// The top level; `None` exactly where there is none.
    pub fn top(&self) -> Option<&Level>
        ensures { option_copied result ≡ slice_get self.now 0 }
    {
        self.items.last()
    }

    /// The instruction of the top frame is answered: it takes so many operands off, puts the answer,
    /// if any, and the frame goes to the next place. It takes no memory.
    pub fn answer(&mut self, next: u32, takes: u32, value: Option<Value>)
        requires { TopTakes takes self.old }
        ensures { self.new ≡ top_answered next takes value self.old }
    {
        match self.items.last_mut() {
            Some(top) => answer_level(top, next, takes, value),
            None => unreachable!(),
        }
    }
}

fn answer_level(level: &mut Level, next: u32, takes: u32, value: Option<Value>)
    requires { LevelTakes takes level.old }
    ensures { level.new ≡ level_answered next takes value level.old }
{
    match level {
        Level::Code(frame) => answer_frame(frame, next, takes, value),
        Level::Init { .. } => unreachable!(),
    }
}

fn answer_frame(frame: &mut Frame, next: u32, takes: u32, value: Option<Value>)
    requires { FrameTakes takes frame.old }
    ensures { frame.new ≡ frame_answered next takes value frame.old }
{
    frame.stack.take(takes);
    if let Some(value) = value {
        frame.stack.push(value);
    }
    frame.at = next;
}
