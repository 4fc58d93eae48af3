//! A buffer for frames.

use crate::error::TiError;
use crate::place::Frame;
use std::alloc::Global;
use std::marker::Model;

/// A list of frames with a room. It is made once and filled later. All of its memory is taken when it is made, so filling it
/// cannot fail. This profile: a call's memory is there before the call is posted.
#[derive(Drop, Debug)]
pub struct TraceBuf {
    frames: Option<Vec<Frame>>,
}

impl Model for TraceBuf {
    ghost use Rattle.ti_types.specs.Frames.{Trace};

    ghost Value = { Trace };

    ghost use Rattle.ti_types.specs.Trace.{trace_of, HasRoom};

    ghost view = { trace_of };

    ghost invariant = { HasRoom };
}

/// Up to this much room is not worth freeing.
const FEW: usize = 16;

impl TraceBuf {
    /// A buffer without room. It takes no memory.
    pub fn none() -> Self
        ensures frames { result.frames ≡ [] }
        ensures room { result.room ≡ 0 }
    {
        TraceBuf { frames: None }
    }

    /// An empty buffer with room for `max_count` or `depth` frames, whichever is less. `max_count` is not negative, and
    /// `depth` is the depth limit. The error is 110 OUT_OF_MEMORY if there is no memory for that room.
    pub fn make(alloc: Global, max_count: i32, depth: u32) -> Result<Self, TiError>
        requires not_negative { is_not_negative max_count ≡ true }
        ensures frames { IfOk result (λ b. b.frames ≡ []) }
        ensures room { IfOk result (λ b. b.room ≡ min (or_zero max_count) depth) }
        ensures memory { IfErr result (λ e. e ≡ OutOfMemory) }
    {
        let most = max_count as u32;
        let room = if most < depth { most } else { depth };
        let frames = Vec::with_capacity(alloc, room as usize)?;
        Ok(TraceBuf {
            frames: Some(frames),
        })
    }

    /// How many frames there is room for.
    pub fn room(&self) -> u32
        ensures { result ≡ self.now.room }
    {
        match &self.frames {
            None => 0,
            Some(v) => v.capacity() as u32,
        }
    }

    /// The frames so far, in the order they were added. There are no more than there is room for.
    pub fn frames(&self) -> &[Frame]
        ensures frames { result.now ≡ self.now.frames }
        ensures room { length self.now.frames ≤ self.now.room }
    {
        match &self.frames {
            None => &[],
            Some(v) => v.as_slice(),
        }
    }

    /// Adds a frame at the end. There has to be room for it.
    pub fn push(&mut self, frame: Frame)
        requires { length self.old.frames < self.old.room }
        ensures frames { self.new.frames ≡ self.old.frames ++ frame ∷ [] }
        ensures room { self.new.room ≡ self.old.room }
    {
        match &mut self.frames {
            None => unreachable!(),
            Some(v) => v.push_reserved(frame),
        }
    }

    /// Frees room that no frame takes, if that is more than the frames take and more than a few. It takes no memory. If the
    /// memory cannot be freed, the buffer keeps it.
    pub fn fit(&mut self)
        ensures { self.new.frames ≡ self.old.frames }
    {
        if let Some(v) = &mut self.frames {
            if v.capacity() - v.len() > v.len() + FEW {
                v.shrink_to_fit();
            }
        }
    }
}

ghost use Rattle.std.specs.Prelude.{◌≡◌, ◌≤◌, ◌<◌, true, ◌++◌, ◌∷◌, [], length, IfOk, IfErr, min};
ghost use Rattle.ti_types.specs.Numbers.{is_not_negative, or_zero};
ghost use Rattle.ti_types.specs.declared.error.TiError.TheVariants.{OutOfMemory};
