//! Calls that leave a running thread running. Only `watch` holds its cell.

use crate::any_thread::{AnyThread, TurnOutcome};
use std::sync::Arc;
use ti_cell::Watched;
use ti_types::{Frame, Step, TiError};

impl AnyThread {
    /// Makes a step on the thread's own frames. It takes no hold.
    ///
    /// Refused with the first of these that fits (this profile). Then nothing changes.
    ///
    /// - `NotRunning` (204): the thread does not run.
    /// - `Overflow` (201): a method is entered at the depth limit.
    /// - `NoFrame` (202): the newest frame is moved on or left, and there is none.
    /// - `NotJavaFrame` (203): the newest frame is moved on, and is native.
    /// - `OwnSpent` (208): nothing is left to spend.
    #[inline(always)]
    pub fn step(&mut self, step: Step) -> TurnOutcome
        ensures { Steps step self.old self.new result }
    {
        match self {
            AnyThread::Running(running) => match running.step(step) {
                Ok(()) => TurnOutcome::Done,
                Err(error) => TurnOutcome::Refused(error),
            },
            AnyThread::Fresh(_) | AnyThread::Safe(_) | AnyThread::Ended(_) => {
                TurnOutcome::Refused(TiError::NotRunning)
            }
        }
    }

    /// Replaces all frames of the thread by these, which are listed newest first. The oldest frames that are the same stay. It
    /// takes no hold.
    ///
    /// Refused with the first of these that fits (this profile). Then nothing changes.
    ///
    /// - `NotRunning` (204): the thread does not run.
    /// - `Overflow` (201): there are more frames than the depth limit.
    /// - `OwnSpent` (208): less is left to spend than there are steps.
    pub fn set_frames(&mut self, frames: &[Frame]) -> TurnOutcome
        ensures { SetsFrames frames.now self.old self.new result }
    {
        match self {
            AnyThread::Running(running) => match running.set_frames(frames) {
                Ok(()) => TurnOutcome::Done,
                Err(error) => TurnOutcome::Refused(error),
            },
            AnyThread::Fresh(_) | AnyThread::Safe(_) | AnyThread::Ended(_) => {
                TurnOutcome::Refused(TiError::NotRunning)
            }
        }
    }

    /// Whether nobody calls for the thread, by one load (JEP 312). True of a thread that does not run.
    pub fn poll_clear(&mut self) -> bool
        ensures { LooksFor self.old self.new result }
    {
        match self {
            AnyThread::Running(running) => running.poll_clear(),
            AnyThread::Fresh(_) | AnyThread::Safe(_) | AnyThread::Ended(_) => true,
        }
    }

    /// From now on `watched` is told when the thread is wanted, and what was told before no longer is. `None` is nobody. Returns
    /// whether somebody calls for the thread now, which `watched` is not told of.
    ///
    /// Refused with the first of these that fits (this profile). Then nothing changes.
    ///
    /// - `NotRunning` (204): the thread does not run.
    /// - `Busy` (215): its cell is in use.
    pub fn watch(self, watched: Option<Arc<Watched>>) -> (AnyThread, Result<bool, TiError>)
        ensures { Watches self result.0 result.1 }
    {
        match self {
            AnyThread::Running(running) => match running.watch_now(watched) {
                Ok((running, called)) => (AnyThread::Running(running), Ok(called)),
                Err(running) => (AnyThread::Running(running), Err(TiError::Busy)),
            },
            other => (other, Err(TiError::NotRunning)),
        }
    }
}

ghost use Rattle.ti_thread.specs.Changes.{LooksFor, SetsFrames, Steps, Watches};
