//! A stack that is counted.

use crate::label::NONE;
use std::alloc::{AllocError, Global};
use ti_pprof::Frame;

/// The functions of frames that are no method's, by their places among a profile's functions. The methods follow them.
pub(crate) const UNANSWERED: u32 = 0;

pub(crate) const LATE: u32 = 1;

pub(crate) const NAMED: u32 = 2;

/// The frame of one of these functions.
pub(crate) fn bare(function: u32) -> Frame
    ensures { result ≡ frame function 0 }
{
    Frame { function, line: 0 }
}

/// The frames of a stack, the newest first, with the frame `(late)` in front of them.
#[derive(Drop)]
pub(crate) struct Stack {
    frames: Vec<Frame>,
}

impl Stack {
    /// No frames. It takes no memory.
    pub(crate) fn new(alloc: Global) -> Stack {
        Stack {
            frames: Vec::new(alloc),
        }
    }

    /// Begins a stack anew. The error is lack of memory.
    pub(crate) fn begin(&mut self) -> Result<(), AllocError>
        ensures { OnOk result (self.new.frames.items ≡ frame 1 0 ∷ []) }
    {
        self.frames.clear();
        self.frames.push(bare(LATE))?;
        Ok(())
    }

    /// Adds the next older frame. The error is lack of memory.
    pub(crate) fn push(&mut self, frame: Frame) -> Result<(), AllocError>
        ensures { OnOk result (self.new.frames.items ≡ self.old.frames.items ++ frame ∷ []) }
    {
        self.frames.push(frame)?;
        Ok(())
    }

    /// Takes memory for so many frames. The error is lack of memory.
    pub(crate) fn reserve(&mut self, frames: usize) -> Result<(), AllocError>
        ensures { self.new.frames.items ≡ self.old.frames.items }
    {
        self.frames.reserve(frames)
    }

    /// The frames, `(late)` in front of them.
    pub(crate) fn late(&self) -> &[Frame]
        ensures { result.now ≡ self.now.frames.items }
    {
        &self.frames
    }

    /// The frames without `(late)`.
    pub(crate) fn frames(&self) -> &[Frame]
        ensures { result.now ≡ drop 1 self.now.frames.items }
    {
        match self.frames.as_slice() {
            [] => &[],
            frames => &frames[1..],
        }
    }
}

ghost use Rattle.std.specs.Prelude.{◌≡◌, ◌++◌, ◌∷◌, [], drop, OnOk};
ghost use Rattle.ti_monitor.specs.Counting.{frame};
