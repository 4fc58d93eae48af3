//! A thread as its runtime holds it, which tells how many of its frames were popped.

use crate::any_thread::{AnyThread, TurnOutcome};
use crate::turn::Turn;
use std::sync::Arc;
use ti_cell::Watched;
use ti_handshake::Fresh;
use ti_types::{Frame, Step, TiError};

/// A thread in any state, with the pops that its runtime has not taken note of.
///
/// PopFrame takes frames from a thread that has handed over. The runtime finds out when the thread runs again: `popped` grows by
/// as many frames as it handed over and did not get back. Until the runtime takes note (`take_pops`), it may not set all frames,
/// since that would undo the pops. Its single steps go on from the frames as they are, and are not refused.
///
/// # Examples
///
/// ```rattle
/// # use ti_handshake::SharedCell;
/// # use ti_thread::{HostThread, Turn, TurnOutcome};
/// # use ti_types::{Answer, Call, Frame, Kind, Limits, MethodNo, Place, ThreadNo, TraceBuf};
/// # let limits = Limits::new(1, 1, 4, 16, 8).ok_or("the limits are in range")?;
/// # let (_cell, fresh, mut desks) = SharedCell::make(rt.alloc(), limits, ThreadNo(0))?;
/// # let mut desk = desks.pop().ok_or("there is one environment")?;
/// let frame = Frame { method: MethodNo(1), place: Place::Java(0) };
/// let frames = [frame, frame, frame];
/// let (mut thread, _) = HostThread::new(fresh).take_turn(Turn::Start);
/// assert!(rt; thread.set_frames(&frames) == TurnOutcome::Done);
/// let (thread, _) = thread.take_turn(Turn::Block(Kind::Sleep));
/// // An agent pops a frame of the sleeping thread.
/// assert!(rt; matches!(desk.call(&rt, Call::Suspend, TraceBuf::none()), Answer::Done));
/// assert!(rt; matches!(desk.call(&rt, Call::Pop, TraceBuf::none()), Answer::Done));
/// assert!(rt; matches!(desk.call(&rt, Call::Resume, TraceBuf::none()), Answer::Done));
/// let (mut thread, _) = thread.take_turn(Turn::Back);
/// assert!(rt; thread.set_frames(&frames) == TurnOutcome::Popped);
/// assert!(rt; thread.take_pops() == 1);
/// assert!(rt; thread.set_frames(&frames[1..]) == TurnOutcome::Done);
/// ```
#[derive(Drop)]
pub struct HostThread {
    pub thread: AnyThread,
    pub pops: Pops,
}

/// How many frames a thread gave away, and did not get back.
#[derive(Clone, Copy, Drop)]
pub struct Pops {
    /// How many frames the thread had when it last handed over.
    pub given: usize,
    /// How many frames were popped since the runtime last took note. It stays at the largest number if there are more.
    pub popped: usize,
}

impl HostThread {
    /// A thread that has not started. No frame of it was popped.
    pub fn new(fresh: Fresh) -> HostThread
        ensures { result ≡ new_host fresh }
    {
        HostThread {
            thread: AnyThread::Fresh(fresh),
            pops: Pops {
                given: 0,
                popped: 0,
            },
        }
    }

    /// This thread, with these pops.
    #[inline(always)]
    pub fn of(thread: AnyThread, pops: Pops) -> HostThread
        ensures { result ≡ host_of thread pops }
    {
        HostThread { thread, pops }
    }

    /// How many frames the thread has (JVM TI 11, GetFrameCount). It takes no hold.
    ///
    /// Refused with `NotRunning` (204) if the thread does not run: its frames are handed over, or there are none (this profile).
    pub fn frame_count(&self) -> Result<usize, TiError>
        ensures { CountsFrames self.now.thread result }
    {
        match &self.thread {
            AnyThread::Running(running) => Ok(running.frame_count()),
            AnyThread::Fresh(_) | AnyThread::Safe(_) | AnyThread::Ended(_) => {
                Err(TiError::NotRunning)
            }
        }
    }

    /// How many frames were popped since the runtime last took note. It takes note of these now.
    ///
    /// Pops at a thread that is in native code, blocked or held are told once it has returned.
    pub fn take_pops(&mut self) -> usize
        ensures popped { result ≡ self.old.pops.popped }
        ensures noted { self.new ≡ with_popped self.old 0 }
    {
        let popped = self.pops.popped;
        self.pops.popped = 0;
        popped
    }

    /// Does what `turn` says. The frames that the thread handed over and did not get back are counted as popped.
    ///
    /// Refused as the thread's own call is (`AnyThread`). Then nothing is counted.
    #[inline(always)]
    pub fn take_turn(self, turn: Turn) -> (HostThread, TurnOutcome)
        ensures { TakesTurn turn self result.0 result.1 }
    {
        let (thread, before) = self.for_turn();
        let (thread, told) = thread.take_turn(turn);
        (HostThread::after_turn(thread, before), told)
    }

    /// The thread alone, for a turn that somebody else makes: a service that notes its threads' starts and ends. What comes of it goes
    /// back by `after_turn`, with these pops.
    #[inline(always)]
    pub fn for_turn(self) -> (AnyThread, Pops)
        ensures thread { result.0 ≡ self.thread }
        ensures pops { result.1 ≡ pops_before self }
    {
        let HostThread { thread, pops } = self;
        let given = thread.frames_or(pops.given);
        (
            thread,
            Pops {
                given,
                popped: pops.popped,
            },
        )
    }

    /// What came of a turn that somebody else made, with the pops that `for_turn` gave. The frames that the thread handed over and did
    /// not get back are counted as popped.
    #[inline(always)]
    pub fn after_turn(thread: AnyThread, before: Pops) -> HostThread
        ensures { result ≡ host_of thread (pops_after before thread) }
    {
        let missing = before.given.saturating_sub(thread.frames_or(before.given));
        let popped = before.popped.saturating_add(missing);
        let pops = Pops {
            given: before.given,
            popped,
        };
        HostThread::of(thread, pops)
    }

    /// Makes a step on the thread's own frames, as they are, popped or not. It takes no hold.
    ///
    /// Refused as `AnyThread::step` is. Then nothing changes.
    #[inline(always)]
    pub fn step(&mut self, step: Step) -> TurnOutcome
        ensures { Keeps (Steps step) self.old self.new result }
    {
        self.thread.step(step)
    }

    /// Replaces all frames of the thread by these, which are listed newest first. The oldest frames that are the same stay. It
    /// takes no hold.
    ///
    /// Refused with the first of these that fits (this profile). Then nothing changes.
    ///
    /// - `NotRunning` (204): the thread does not run.
    /// - `TurnOutcome::Popped`: frames were popped, and the runtime has not taken note of it.
    /// - `Overflow` (201): there are more frames than the depth limit.
    /// - `OwnSpent` (208): less is left to spend than there are steps.
    pub fn set_frames(&mut self, frames: &[Frame]) -> TurnOutcome
        ensures { SetsUnlessPopped frames.now self.old self.new result }
    {
        if self.pops.popped != 0 && self.thread.is_running() {
            return TurnOutcome::Popped;
        }
        self.thread.set_frames(frames)
    }

    /// From now on `watched` is told when the thread is wanted, as `AnyThread::watch` says.
    pub fn watch(self, watched: Option<Arc<Watched>>) -> (HostThread, Result<bool, TiError>)
        ensures thread { Watches self.thread result.0.thread result.1 }
        ensures pops { result.0 ≡ with_thread self result.0.thread }
    {
        let HostThread { thread, pops } = self;
        let (thread, told) = thread.watch(watched);
        (HostThread::of(thread, pops), told)
    }

    /// Whether nobody calls for the thread, by one load (JEP 312). True of a thread that does not run.
    pub fn poll_clear(&mut self) -> bool
        ensures { (self.new ≡ with_thread self.old self.new.thread) × LooksFor self.old.thread self.new.thread result }
    {
        self.thread.poll_clear()
    }
}

ghost use Rattle.std.specs.Prelude.{◌≡◌};
ghost use Rattle.ti_thread.specs.Changes.{LooksFor, Steps, Watches};
ghost use Rattle.ti_thread.specs.Hosts.{CountsFrames, Keeps, SetsUnlessPopped, TakesTurn, host_of, new_host, pops_after, pops_before, with_popped, with_thread};
