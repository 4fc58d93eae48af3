//! Stacks, as the paths of one trie of bounded size.

use indexmap::IndexSet;
use std::alloc::{AllocError, Global};

/// One frame of a stack.
#[derive(Clone, Copy, Debug, PartialEq, Eq, Hash)]
pub struct Frame {
    /// The function that the frame runs, by its place in the list of functions that a profile is given.
    pub function: u32,
    /// The line that it is at. 0 if no line is known.
    pub line: u32,
}

/// A node of the trie: one more frame on an earlier stack.
#[derive(Clone, Copy, Debug, PartialEq, Eq, Hash)]
pub struct Node {
    /// The number of the stack below the frame.
    pub rest: u32,
    /// The newest frame.
    pub frame: Frame,
}

/// Stacks by number. Number 0 is the empty stack. Stacks with the same oldest frames share the nodes of these.
#[derive(Drop)]
pub struct Trie {
    nodes: IndexSet<Node>,
    /// How many nodes there are at most.
    most: u32,
    ghost bounded: { length nodes.keys ≤ most },
    ghost reserved: { most ≤ length nodes.keys + spare nodes },
    ghost earlier: { AreOnEarlier nodes.keys },
    ghost different: { AreDifferent nodes.keys },
}

impl Trie {
    /// The empty stack alone. It takes the memory for all of its nodes, `most` at most. The error is lack of memory.
    pub fn new(alloc: Global, most: u32) -> Result<Self, AllocError>
        ensures empty { IfOk result (λ t. t.nodes.keys ≡ []) }
        ensures most { IfOk result (λ t. t.most ≡ most) }
    {
        let nodes = IndexSet::with_capacity(alloc, most as usize)?;
        Ok(Trie { nodes, most })
    }

    /// The number of the stack that has this frame on the stack of the number `rest`. `None` if it is not there, and there is
    /// no room for one more node. Then nothing has changed.
    fn child(&mut self, rest: u32, frame: Frame) -> Option<u32>
        requires { rest ≤ length self.old.nodes.keys }
        ensures stack { IfSome result (λ n. stack_at (stacks_of self.new.nodes.keys) n ≡ frame ∷ stack_at (stacks_of self.old.nodes.keys) rest) }
        ensures within { IfSome result (λ n. n ≤ length self.new.nodes.keys) }
        ensures grown { Grows self.old.nodes.keys self.new.nodes.keys }
        ensures most { self.new.most ≡ self.old.most }
        ensures full { IfNone result (length self.new.nodes.keys ≡ self.new.most) }
        ensures absent { IfNone result (¬ (HasStack self.old.nodes.keys (frame ∷ stack_at (stacks_of self.old.nodes.keys) rest))) }
        ensures few { length self.new.nodes.keys ≤ length self.old.nodes.keys + 1 }
        ensures asked { (n : ℕ) → length self.old.nodes.keys < n → n ≤ length self.new.nodes.keys
            → stack_at (stacks_of self.new.nodes.keys) n ≡ frame ∷ stack_at (stacks_of self.old.nodes.keys) rest }
    {
        let most = self.most as usize;
        let node = Node { rest, frame };
        if let Some(place) = self.nodes.get_index_of(&node) {
            return Some(place as u32 + 1);
        }
        if self.nodes.len() >= most {
            return None;
        }
        let Ok((place, _is_new)) = self.nodes.insert_full(node) else {
            unreachable!()
        };
        Some(place as u32 + 1)
    }

    /// The nodes. Number `n` is the stack of the node before place `n`.
    pub fn nodes(&self) -> &[Node]
        ensures nodes { result.now ≡ self.now.nodes.keys }
        ensures earlier { AreOnEarlier result.now }
    {
        self.nodes.as_slice()
    }

    /// The number of this stack, whose newest frame comes first. Frames that are not there are added, from the oldest on.
    /// `None` if there is no room for all of them.
    pub fn number_of(&mut self, frames: &[Frame]) -> Option<u32>
        ensures stack { IfSome result (λ n. stack_at (stacks_of self.new.nodes.keys) n ≡ frames.now) }
        ensures within { IfSome result (λ n. n ≤ length self.new.nodes.keys) }
        ensures grown { Grows self.old.nodes.keys self.new.nodes.keys }
        ensures most { self.new.most ≡ self.old.most }
        ensures full { IfNone result (length self.new.nodes.keys ≡ self.new.most) }
        ensures absent { IfNone result (¬ (HasStack self.old.nodes.keys frames.now)) }
        ensures few { length self.new.nodes.keys ≤ length self.old.nodes.keys + length frames.now }
        ensures asked { AreAsked self.old.nodes.keys self.new.nodes.keys frames.now }
    {
        let mut number = 0;
        let mut left = frames.len();
        while left > 0 {
            left -= 1;
            number = self.child(number, frames[left])?;
        }
        Some(number)
    }
}

ghost use Rattle.std.specs.Prelude.{◌≡◌, ◌≤◌, ◌<◌, ◌+◌, ℕ, [], ◌∷◌, length, IfOk, IfSome, IfNone};
ghost use Rattle.indexmap.specs.IndexSet.{spare};
ghost use Rattle.ti_pprof.specs.Stacks.{AreAsked, AreDifferent, AreOnEarlier, Grows, HasStack, stack_at, stacks_of};
