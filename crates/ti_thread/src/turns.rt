//! Calls that lead to another state. Each tries to hold the thread's cell just once.

use crate::any_thread::{AnyThread, TurnOutcome};
use ti_handshake::Polled;
use ti_types::{Kind, TiError};

/// What a call came to: the thread in its new state, or in the one that it was in, with the error.
macro_rules! told {
    ($call:expr, $new:ident or $old:ident) => {
        match $call {
            Ok(thread) => (AnyThread::$new(thread), TurnOutcome::Done),
            Err((error, thread)) => (AnyThread::$old(thread), TurnOutcome::Refused(error)),
        }
    };
}

impl AnyThread {
    /// Starts the thread: it runs, and is alive (JVM TI 11, GetThreadState).
    ///
    /// Refused with the first of these that fits (this profile). Then the thread has not started by this call.
    ///
    /// - `NotNew` (210): it has started before.
    /// - `Busy` (215): its cell is in use.
    /// - `Barred` (206): a stop is in force.
    pub fn start(self) -> (AnyThread, TurnOutcome)
        ensures { Starts self result.0 result.1 }
    {
        match self {
            AnyThread::Fresh(fresh) => told!(fresh.start_now(), Running or Fresh),
            other => refused(other, TiError::NotNew),
        }
    }

    /// Polls (JEP 312). If nobody calls for the thread, nothing happens. Otherwise it hands over, and the waiting calls take
    /// place. `TurnOutcome::Held` if it is barred after that.
    ///
    /// Refused with the first of these that fits (this profile). Then nothing changes.
    ///
    /// - `NotRunning` (204): the thread does not run.
    /// - `Busy` (215): its cell is in use.
    #[inline(always)]
    pub fn poll(self) -> (AnyThread, TurnOutcome)
        ensures { Polls self result.0 result.1 }
    {
        match self {
            AnyThread::Running(running) => match running.poll_now() {
                Ok(Polled::Go(running)) => (AnyThread::Running(running), TurnOutcome::Done),
                Ok(Polled::Held(safe)) => (AnyThread::Safe(safe), TurnOutcome::Held),
                Err(running) => refused(AnyThread::Running(running), TiError::Busy),
            },
            other => refused(other, TiError::NotRunning),
        }
    }

    /// Goes into native code. The waiting calls take place (JEP 312).
    ///
    /// Refused with the first of these that fits (this profile). Then the thread runs on, and no entry is added.
    ///
    /// - `NotRunning` (204): the thread does not run.
    /// - `Busy` (215): its cell is in use.
    /// - `NoNativeFrame` (207): the newest frame is not native, or there is none.
    /// - `OwnSpent` (208): less than 2 is left to spend.
    #[inline(always)]
    pub fn native(self) -> (AnyThread, TurnOutcome)
        ensures { HandsOver IntoNative self result.0 result.1 }
    {
        match self {
            AnyThread::Running(running) => told!(running.native_now(), Safe or Running),
            other => refused(other, TiError::NotRunning),
        }
    }

    /// Blocks for the reason `kind`. The waiting calls take place (JEP 312).
    ///
    /// Refused with the first of these that fits (this profile). Then the thread runs on, and no entry is added.
    ///
    /// - `NotRunning` (204): the thread does not run.
    /// - `Busy` (215): its cell is in use.
    /// - `OwnSpent` (208): less than 2 is left to spend.
    pub fn block(self, kind: Kind) -> (AnyThread, TurnOutcome)
        ensures { HandsOver (IntoBlocked kind) self result.0 result.1 }
    {
        match self {
            AnyThread::Running(running) => told!(running.block_now(kind), Safe or Running),
            other => refused(other, TiError::NotRunning),
        }
    }

    /// Returns, and runs (HotSpot Runtime Overview).
    ///
    /// Refused with the first of these that fits (this profile). Then the thread is safe as before.
    ///
    /// - `NotSafe` (205): the thread is not safe.
    /// - `Busy` (215): its cell is in use.
    /// - `Barred` (206): it is suspended, or a stop is in force.
    #[inline(always)]
    pub fn back(self) -> (AnyThread, TurnOutcome)
        ensures { Returns self result.0 result.1 }
    {
        match self {
            AnyThread::Safe(safe) => told!(safe.back_now(), Running or Safe),
            other => refused(other, TiError::NotSafe),
        }
    }

    /// Ends the thread. The waiting calls take place at a thread that is no longer alive (JVM TI 11, GetThreadState).
    ///
    /// Refused with the first of these that fits (this profile). Then nothing changes.
    ///
    /// - `NotRunning` (204): the thread does not run.
    /// - `Busy` (215): its cell is in use.
    pub fn end(self) -> (AnyThread, TurnOutcome)
        ensures { Ends self result.0 result.1 }
    {
        match self {
            AnyThread::Running(running) => match running.end_now() {
                Ok(ended) => (AnyThread::Ended(ended), TurnOutcome::Done),
                Err(running) => refused(AnyThread::Running(running), TiError::Busy),
            },
            other => refused(other, TiError::NotRunning),
        }
    }
}

/// The thread as it is, and why the call is refused.
#[inline(always)]
fn refused(thread: AnyThread, error: TiError) -> (AnyThread, TurnOutcome)
    ensures { IsUnfit error thread result.0 result.1 }
{
    (thread, TurnOutcome::Refused(error))
}

ghost use Rattle.ti_types.specs.declared.state.Safe.TheVariants.{Native as IntoNative, Blocked as IntoBlocked};
ghost use Rattle.ti_thread.specs.Turns.{Ends, HandsOver, IsUnfit, Polls, Returns, Starts};
