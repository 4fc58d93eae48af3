//! The locations of a profile: the different frames, numbered.

use crate::messages::push_location;
use crate::stacks::{Frame, Node};
use indexmap::IndexSet;
use std::alloc::{AllocError, Global};

/// What the samples say of frames: the nodes of the stacks, the different frames of these nodes, and for each node the id of
/// its frame's location.
#[derive(Drop)]
pub(crate) struct Places<'n> {
    nodes: &'n [Node],
    frames: IndexSet<Frame>,
    ids: Vec<u64>,
    ghost earlier: { AreOnEarlier nodes.now },
    ghost each: { ids.items ≡ map (node_location frames.keys) nodes.now },
}

impl<'n> Places<'n> {
    /// The places of these nodes. Each frame is looked up once a node, not once a sample. The error is lack of memory.
    pub(crate) fn new(alloc: Global, nodes: &'n [Node]) -> Result<Self, AllocError>
        requires earlier { AreOnEarlier nodes.now }
        ensures nodes { IfOk result (λ p. p.nodes.now ≡ nodes.now) }
        ensures frames { IfOk result (λ p. p.frames.keys ≡ frames_of nodes.now) }
    {
        let frames = frames_of(alloc, nodes)?;
        let ids = ids_of(alloc, nodes, &frames)?;
        Ok(Places { nodes, frames, ids })
    }

    /// The different frames.
    pub(crate) fn frames(&self) -> &IndexSet<Frame>
        ensures { result.now ≡ self.now.frames }
    {
        &self.frames
    }

    /// Writes the ids of the locations of a stack, the newest frame first, in place of what is there. A stack without frames has
    /// location 1. The error is lack of memory.
    pub(crate) fn write_locations(&self, ids: &mut Vec<u64>, stack: u32) -> Result<(), AllocError>
        requires there { stack ≤ length self.now.nodes.now }
        ensures { OnOk result (ids.new.items ≡ locations_of_stack self.now.frames.keys (stack_at (stacks_of self.now.nodes.now) stack)) }
    {
        if stack == 0 {
            ids.clear();
            ids.push(1)?;
            return Ok(());
        }
        self.write_locations_of_frames(ids, stack)?;
        Ok(())
    }

    /// Writes the ids of the locations of a stack's frames, the newest first, in place of what is there. The error is lack of memory.
    fn write_locations_of_frames(&self, ids: &mut Vec<u64>, stack: u32) -> Result<(), AllocError>
        requires there { stack ≤ length self.now.nodes.now }
        ensures { OnOk result (ids.new.items ≡ map (location_of self.now.frames.keys) (stack_at (stacks_of self.now.nodes.now) stack)) }
    {
        ids.clear();
        let mut number = stack;
        while number > 0 {
            let place = number as usize - 1;
            ids.push(self.ids[place])?;
            number = self.nodes[place].rest;
        }
        Ok(())
    }
}

/// The frames of these nodes, each once. The error is lack of memory.
fn frames_of(alloc: Global, nodes: &[Node]) -> Result<IndexSet<Frame>, AllocError>
    ensures { IfOk result (λ f. f.keys ≡ frames_of nodes.now) }
{
    let mut frames = IndexSet::new(alloc);
    for node in nodes {
        frames.insert_full(node.frame)?;
    }
    Ok(frames)
}

/// The ids of the locations of the frames of these nodes. The error is lack of memory.
fn ids_of(alloc: Global, nodes: &[Node], frames: &IndexSet<Frame>) -> Result<Vec<u64>, AllocError>
    ensures { IfOk result (λ ids. ids.items ≡ map (node_location frames.now.keys) nodes.now) }
{
    let mut ids = Vec::new(alloc);
    for node in nodes {
        ids.push(location_of(frames, node.frame))?;
    }
    Ok(ids)
}

/// The id of the location of a frame. The first one is 3: two are for stacks that have no frames to tell.
fn location_of(frames: &IndexSet<Frame>, frame: Frame) -> u64
    ensures { result ≡ location_of frames.now.keys frame }
{
    let count = frames.len();
    match frames.get_index_of(&frame) {
        Some(place) => place as u64 + 3,
        None => count as u64 + 3,
    }
}

/// The id of the function of a frame, if so many functions have names. Three functions come before these.
fn function_of(named: usize, frame: Frame) -> u64
    ensures { result ≡ function_of named frame }
{
    if (frame.function as usize) < named {
        u64::from(frame.function) + 4
    } else {
        3
    }
}

/// Appends the locations of these frames, if so many functions have names. The error is lack of memory.
fn push_frames(out: &mut Vec<u8>, named: usize, frames: &[Frame]) -> Result<(), AllocError>
    requires { length frames.now < 2 ^ 63 }
    ensures { OnOk result (out.new.items ≡ out.old.items ++ locations_from named 3 frames.now) }
{
    let mut id = 3;
    for frame in frames {
        push_location(out, id, function_of(named, *frame), u64::from(frame.line))?;
        id += 1;
    }
    Ok(())
}

/// Appends all locations: one for stacks without frames, one for stacks without room, and those of the frames. The error is
/// lack of memory.
pub(crate) fn push_locations(
    out: &mut Vec<u8>,
    named: usize,
    frames: &IndexSet<Frame>,
) -> Result<(), AllocError>
    ensures { OnOk result (out.new.items ≡ out.old.items ++ location_fields named frames.now.keys) }
{
    push_location(out, 1, 1, 0)?;
    push_location(out, 2, 2, 0)?;
    push_frames(out, named, frames.as_slice())
}

ghost use Rattle.std.specs.Prelude.{◌≡◌, ◌≤◌, ◌<◌, ◌^◌, ◌++◌, length, map, OnOk, IfOk};
ghost use Rattle.ti_pprof.specs.Profile.{frames_of, function_of, location_fields, location_of, locations_from, locations_of_stack, node_location};
ghost use Rattle.ti_pprof.specs.Stacks.{AreOnEarlier, stack_at, stacks_of};
