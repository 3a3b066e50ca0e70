//! The typing of a method.

ghost use Rattle.std.specs.Prelude.{◌≡◌, length, slice_get};
ghost use Rattle.std.specs.Option.{option_copied};

use crate::shared_frame::SharedFrame;
use jvm_base::List;
use std::marker::Model;

/// A frame, or none, for each instruction of a method. Contracts see the list of them.
#[derive(Drop)]
pub struct Frames {
    frames: List<Option<SharedFrame>>,
}

impl Model for Frames {
    ghost use Rattle.std.specs.Prelude.{List as Items, Option};
    ghost use Rattle.flow_types.specs.declared.flow_frame.FlowFrame.{FlowFrame};

    ghost Value = { Items (Option FlowFrame) };

    ghost view = { λ a. a.frames };
}

impl Frames {
    /// The frames of a list. It takes no memory.
    pub(crate) fn from_list(frames: List<Option<SharedFrame>>) -> Frames
        ensures { result ≡ frames }
    {
        Frames { frames }
    }

    /// How many instructions there are.
    pub fn len(&self) -> usize
        ensures { result ≡ length self.now }
    {
        self.frames.len()
    }

    /// The frame of the instruction at a place, if it has one; `None` exactly past the end.
    pub fn get(&self, place: usize) -> Option<&Option<SharedFrame>>
        ensures { option_copied result ≡ slice_get self.now place }
    {
        self.frames.get(place)
    }
}
