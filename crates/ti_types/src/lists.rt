//! Lists of frames and of words.

use crate::place::Frame;
use std::alloc::{AllocError, Global};
use std::marker::Model;

/// The frames of a stack, seen as a list with the newest first.
#[derive(Drop, Debug)]
pub struct FrameList {
    /// The oldest first.
    items: Vec<Frame>,
}

impl Model for FrameList {
    ghost use Rattle.std.specs.Prelude.{List, reverse};
    ghost use Rattle.ti_types.specs.declared.place.Frame.{Frame};

    ghost Value = { List Frame };

    ghost view = { λ s. reverse s.items.items };
}

impl FrameList {
    /// An empty list. It takes no memory.
    pub fn new(alloc: Global) -> Self
        ensures { result ≡ [] }
    {
        FrameList {
            items: Vec::new(alloc),
        }
    }

    /// How many frames there are.
    pub fn len(&self) -> usize
        ensures { result ≡ length self.now }
    {
        self.items.len()
    }

    /// The newest frame. `None` if there is no frame.
    pub fn newest(&self) -> Option<Frame>
        ensures { result ≡ slice_get self.now 0 }
    {
        self.items.last().copied()
    }

    /// The frame at a depth, 0 for the newest. `None` if there is none (JVM TI 11, GetFrameLocation).
    pub fn at_depth(&self, depth: usize) -> Option<Frame>
        ensures { result ≡ slice_get self.now depth }
    {
        if depth < self.items.len() {
            Some(self.items[self.items.len() - 1 - depth])
        } else {
            None
        }
    }

    /// The frame at a depth below the number of frames.
    pub fn get(&self, depth: usize) -> Frame
        requires { depth < length self.now }
        ensures { slice_get self.now depth ≡ Some result }
    {
        self.items[self.items.len() - 1 - depth]
    }

    /// Puts a newest frame on the stack. The error is lack of memory. Then nothing changes.
    pub fn push(&mut self, frame: Frame) -> Result<(), AllocError>
        ensures ok { OnOk result (self.new ≡ frame ∷ self.old) }
        ensures err { OnErr result (self.new ≡ self.old) }
    {
        self.items.push(frame)?;
        Ok(())
    }

    /// Takes the newest frame away, if there is one.
    pub fn pop(&mut self)
        ensures { self.new ≡ without_newest self.old }
    {
        let _ = self.items.pop();
    }

    /// Takes all frames away.
    pub fn clear(&mut self)
        ensures { self.new ≡ [] }
    {
        self.items.clear();
    }
}

/// A list of words.
#[derive(Drop, Debug)]
pub struct WordList {
    items: Vec<u64>,
}

impl Model for WordList {
    ghost use Rattle.std.specs.Prelude.{List, ℕ};

    ghost Value = { List ℕ };

    ghost view = { λ s. s.items.items };
}

impl WordList {
    /// A list of `count` words, each 0. The error is lack of memory.
    pub fn zeros(alloc: Global, count: usize) -> Result<Self, AllocError>
        ensures { IfOk result (λ w. w ≡ replicate count 0) }
    {
        Ok(WordList {
            items: vec![in alloc; 0; count]?,
        })
    }

    /// The word at an index, or 0 if there is none.
    pub fn get(&self, index: usize) -> u64
        ensures { result ≡ slice_index self.now index }
    {
        if index < self.items.len() {
            self.items[index]
        } else {
            0
        }
    }

    /// Sets the word at an index. If there is none, nothing changes.
    pub fn set(&mut self, index: usize, word: u64)
        ensures { self.new ≡ slice_set self.old index word }
    {
        if index < self.items.len() {
            self.items[index] = word;
        }
    }
}

ghost use Rattle.std.specs.Prelude.{◌≡◌, ◌<◌, [], ◌∷◌, length, IfOk, OnOk, OnErr, slice_get, slice_index, slice_set, replicate};
ghost use Rattle.ti_types.specs.Frames.{without_newest};
