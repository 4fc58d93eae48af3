//! A thread in any state, and what its calls say.

use ti_handshake::{AtSafe, Ended, Fresh, Running};
use ti_types::{ThreadNo, TiError};

/// What a call of the thread's own comes to.
#[derive(Clone, Copy, Debug, PartialEq, Eq)]
pub enum TurnOutcome {
    /// It has happened, and the thread is in the state that the call leads to.
    Done,
    /// The thread handed over at its poll, and is barred: it stays there until it returns by `back`.
    Held,
    /// It is refused.
    Refused(TiError),
    /// It is refused, since frames were popped and the runtime has not taken note of it. Only `HostThread::set_frames` says so.
    Popped,
}

/// A thread, by its state.
///
/// # Examples
///
/// ```rattle
/// # use ti_handshake::SharedCell;
/// # use ti_thread::{AnyThread, TurnOutcome};
/// # use ti_types::{Limits, ThreadNo, TiError};
/// # let limits = Limits::new(1, 1, 4, 16, 8).ok_or("the limits are in range")?;
/// # let (_cell, fresh, _desks) = SharedCell::make(rt.alloc(), limits, ThreadNo(0))?;
/// let (thread, told) = AnyThread::Fresh(fresh).start();
/// assert!(rt; told == TurnOutcome::Done);
/// // A thread that runs cannot return: it is not safe.
/// let (thread, told) = thread.back();
/// assert!(rt; told == TurnOutcome::Refused(TiError::NotSafe));
/// let (_thread, told) = thread.end();
/// assert!(rt; told == TurnOutcome::Done);
/// ```
#[derive(Drop)]
pub enum AnyThread {
    /// It has not started.
    Fresh(Fresh),
    /// It runs, and owns its frames.
    Running(Running),
    /// It is in native code, blocked, or held at a poll.
    Safe(AtSafe),
    /// It has ended.
    Ended(Ended),
}

impl AnyThread {
    /// The number of the thread (this profile).
    pub fn thread(&self) -> ThreadNo
        ensures { result ≡ number_in self.now }
    {
        match self {
            AnyThread::Fresh(fresh) => fresh.thread(),
            AnyThread::Running(running) => running.thread(),
            AnyThread::Safe(safe) => safe.thread(),
            AnyThread::Ended(ended) => ended.thread(),
        }
    }

    /// Whether the thread runs.
    pub fn is_running(&self) -> bool
        ensures { result ≡ is_running_in self.now }
    {
        matches!(self, AnyThread::Running(_))
    }
}

ghost use Rattle.std.specs.Prelude.{◌≡◌};
ghost use Rattle.ti_thread.specs.AnyThread.{number_in, is_running as is_running_in};
