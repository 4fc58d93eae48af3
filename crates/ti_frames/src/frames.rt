//! The frames of one thread.

use crate::changes::{entries_len, log_entries, shared_frames};
use crate::log::Log;
use std::alloc::Global;
use std::marker::Model;
use ti_types::{Frame, Place, Step, TiError, TraceBuf};

/// The frames of one thread, newest first, with room for as many as the depth limit.
#[derive(Drop, Debug)]
pub struct Frames {
    /// The oldest first.
    items: Vec<Frame>,
    depth: u32,
}

impl Model for Frames {
    ghost use Rattle.std.specs.Prelude.{◌≤◌, length, reverse, vec_capacity};
    ghost use Rattle.ti_frames.specs.Frames.{Stack};

    ghost Value = { Stack };

    ghost view = { λ s. record { frames = reverse s.items.items; depth = s.depth } };

    ghost invariant = { λ s. (length s.items.items ≤ s.depth) × (s.depth ≤ vec_capacity s.items) };
}

impl Frames {
    /// An empty stack with room for `depth` frames.
    ///
    /// Fails with `OutOfMemory` (110) if there is no memory for the room, and in no other case (this profile).
    pub fn new(alloc: Global, depth: u32) -> Result<Self, TiError>
        ensures frames { IfOk result (λ f. f.frames ≡ []) }
        ensures depth { IfOk result (λ f. f.depth ≡ depth) }
        ensures memory { IfErr result (λ e. e ≡ TiError.OutOfMemory) }
    {
        let items = Vec::with_capacity(alloc, depth as usize)?;
        Ok(Frames { items, depth })
    }

    /// How many frames there are, at most the depth limit.
    pub fn len(&self) -> usize
        ensures len { result ≡ length self.now.frames }
        ensures fits { result ≤ self.now.depth }
    {
        self.items.len()
    }

    /// How many frames there may be.
    pub fn depth(&self) -> u32
        ensures { result ≡ self.now.depth }
    {
        self.depth
    }

    /// The frame at a depth, 0 for the newest. `None` if there is no such frame (JVM TI 11, GetFrameLocation).
    #[inline(always)]
    pub fn top(&self, depth: usize) -> Option<Frame>
        ensures { result ≡ slice_get self.now.frames depth }
    {
        if depth < self.items.len() {
            Some(self.items[self.items.len() - 1 - depth])
        } else {
            None
        }
    }

    /// Why a step may not be made. `None` if it may (this profile).
    ///
    /// - `Overflow` (201): a method is entered at the depth limit.
    /// - `NoFrame` (202): the newest frame is moved on or left, and there is none.
    /// - `NotJavaFrame` (203): the newest frame is moved on, and is native.
    #[inline(always)]
    pub fn refusal(&self, step: Step) -> Option<TiError>
        ensures { result ≡ step_refusal self.now.depth self.now.frames step }
    {
        match step {
            Step::Enter(_) | Step::EnterNative(_) => {
                if self.items.len() < self.depth as usize {
                    None
                } else {
                    Some(TiError::Overflow)
                }
            }
            Step::At(_) => match self.top(0) {
                Some(frame) => match frame.place {
                    Place::Native => Some(TiError::NotJavaFrame),
                    Place::Java(_) => None,
                },
                None => Some(TiError::NoFrame),
            },
            Step::Leave => match self.top(0) {
                Some(_) => None,
                None => Some(TiError::NoFrame),
            },
        }
    }

    /// Makes a step, unless it is refused as `refusal` says. A refused step changes nothing.
    #[inline(always)]
    pub fn apply(&mut self, step: Step) -> Result<(), TiError>
        ensures when { MatchResult result
            (λ _. step_refusal self.old.depth self.old.frames step ≡ None)
            (λ e. step_refusal self.old.depth self.old.frames step ≡ Some e) }
        ensures frames { MatchResult result
            (λ _. self.new ≡ with_frames self.old (frames_after self.old.frames step))
            (λ _. self.new ≡ self.old) }
    {
        if let Some(error) = self.refusal(step) {
            return Err(error);
        }
        self.make(step);
        Ok(())
    }

    /// Makes a step that is not refused.
    #[inline(always)]
    fn make(&mut self, step: Step)
        requires { step_refusal self.old.depth self.old.frames step ≡ None }
        ensures { self.new ≡ with_frames self.old (frames_after self.old.frames step) }
    {
        match step {
            Step::Enter(method) => self.push(Frame {
                method,
                place: Place::Java(0),
            }),
            Step::EnterNative(method) => self.push(Frame {
                method,
                place: Place::Native,
            }),
            Step::At(position) => {
                let Some(frame) = self.top(0) else {
                    unreachable!()
                };
                self.pop();
                self.push(Frame {
                    method: frame.method,
                    place: Place::Java(position),
                });
            }
            Step::Leave => self.pop(),
        }
    }

    /// How many of the oldest frames are also the oldest of these, which are listed newest first.
    pub fn shared(&self, frames: &[Frame]) -> usize
        ensures shared { result ≡ shared_of self.now.frames frames.now }
        ensures old { result ≤ length self.now.frames }
        ensures new { result ≤ length frames.now }
    {
        shared_frames(self.items.as_slice(), frames)
    }

    /// How many steps it takes to leave all but the oldest `keep` frames, and to enter others, listed newest first.
    pub fn steps_over(&self, keep: usize, newest: &[Frame]) -> usize
        requires keep { keep ≤ length self.now.frames }
        requires depth { keep + length newest.now ≤ self.now.depth }
        ensures { result ≡ length (steps_keeping keep self.now.frames newest.now) }
    {
        let _depth = self.depth();
        self.len() - keep + entries_len(newest)
    }

    /// Logs the steps that leave all but the oldest `keep` frames, and enter others, listed newest first.
    pub fn log_over(&self, keep: usize, newest: &[Frame], log: &mut Log)
        requires keep { keep ≤ length self.now.frames }
        requires room { length log.old.steps + length (steps_keeping keep self.now.frames newest.now) ≤ log.old.room }
        ensures { log.new ≡ with_steps log.old (log.old.steps ++ steps_keeping keep self.now.frames newest.now) }
    {
        self.log_leaves(self.len() - keep, log);
        log_entries(newest, log);
    }

    /// Logs that the newest `count` frames are left.
    fn log_leaves(&self, count: usize, log: &mut Log)
        requires count { count ≤ length self.now.frames }
        requires room { length log.old.steps + count ≤ log.old.room }
        ensures { log.new ≡ with_steps log.old (log.old.steps ++ leaves (take count self.now.frames)) }
    {
        for i in 0..count {
            log.push(Step::Leave);
        }
    }

    /// Takes all but the oldest `keep` frames away, and puts others over those, listed newest first.
    pub fn put_over(&mut self, keep: usize, newest: &[Frame])
        requires keep { keep ≤ length self.old.frames }
        requires depth { keep + length newest.now ≤ self.old.depth }
        ensures { self.new ≡ with_frames self.old (frames_keeping keep self.old.frames newest.now) }
    {
        self.keep(keep);
        self.push_all(newest);
    }

    /// Takes all but the oldest `keep` frames away.
    fn keep(&mut self, keep: usize)
        requires { keep ≤ length self.old.frames }
        ensures { self.new ≡ with_frames self.old (drop (length self.old.frames - keep) self.old.frames) }
    {
        self.items.truncate(keep);
    }

    /// Puts frames over those that are there, listed newest first.
    fn push_all(&mut self, newest: &[Frame])
        requires { length newest.now + length self.old.frames ≤ self.old.depth }
        ensures { self.new ≡ with_frames self.old (newest.now ++ self.old.frames) }
    {
        for i in 0..newest.len() {
            self.push(newest[newest.len() - 1 - i]);
        }
    }

    /// Replaces all frames by these, listed newest first. The oldest frames that are the same stay as they are, and only the
    /// others are written.
    ///
    /// Refused with `Overflow` (201) if there are more than the depth. Then nothing changes.
    pub fn replace(&mut self, frames: &[Frame]) -> Result<(), TiError>
        ensures when { MatchResult result (λ _. length frames.now ≤ self.old.depth) (λ e. (self.old.depth < length frames.now) × (e ≡ TiError.Overflow)) }
        ensures frames { MatchResult result (λ _. self.new ≡ with_frames self.old frames.now) (λ _. self.new ≡ self.old) }
    {
        if (self.depth as usize) < frames.len() {
            return Err(TiError::Overflow);
        }
        let keep = self.shared(frames);
        self.put_over(keep, &frames[..frames.len() - keep]);
        Ok(())
    }

    /// Adds a newest frame.
    #[inline(always)]
    fn push(&mut self, frame: Frame)
        requires { length self.old.frames < self.old.depth }
        ensures { self.new ≡ with_frames self.old (frame ∷ self.old.frames) }
    {
        self.items.push_reserved(frame);
    }

    /// Takes the newest frame away.
    #[inline(always)]
    fn pop(&mut self)
        ensures room { 0 < length self.old.frames → length self.new.frames < self.new.depth }
        ensures frames { self.new ≡ with_frames self.old (without_newest self.old.frames) }
    {
        let _ = self.items.pop();
    }

    /// Copies the frames from depth `start` on into a buffer that has room for them, after those that it has. They are
    /// copied newest first, and at most `count` of them (JVM TI 11, GetStackTrace). The buffer keeps its room.
    #[tactic(auto, using(crate::proofs::TraceLaws::take_more))]
    pub fn copy_into(&self, start: usize, count: u32, buf: &mut TraceBuf)
        requires start { start ≤ length self.now.frames }
        requires room { length buf.old.frames + min count (length self.now.frames - start) ≤ buf.old.room }
        ensures frames { buf.new.frames ≡ buf.old.frames ++ take count (drop start self.now.frames) }
        ensures room { buf.new.room ≡ buf.old.room }
    {
        let left = self.items.len() - start;
        let most = left.min(count as usize);
        for i in 0..most {
            buf.push(self.get(start + i));
        }
    }

    /// The frame at a depth below the number of frames.
    fn get(&self, depth: usize) -> Frame
        requires { depth < length self.now.frames }
        ensures { slice_get self.now.frames depth ≡ Some result }
    {
        self.items[self.items.len() - 1 - depth]
    }

    /// Takes all frames away. The depth stays.
    pub fn clear(&mut self)
        ensures { self.new ≡ with_frames self.old [] }
    {
        self.items.clear();
    }
}

ghost use Rattle.std.specs.Prelude.{◌≡◌, ◌≤◌, ◌+◌, ◌-◌, ◌<◌, ◌++◌, [], ◌∷◌, length, IfOk, IfErr, MatchResult, Some, None, slice_get, take, drop, min};
ghost use Rattle.ti_types.specs.Frames.{without_newest};
ghost use Rattle.ti_frames.specs.Frames.{with_frames, frames_after, step_refusal};
ghost use Rattle.ti_frames.specs.Changes.{shared as shared_of, leaves, steps_keeping, frames_keeping};
ghost use Rattle.ti_frames.specs.Log.{with_steps};
