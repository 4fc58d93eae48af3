//! The events of a walk, their outcomes, and the tickets of calls.
use crate::answer::Answer;
use crate::call::Call;
use crate::caps::Caps;
use crate::error::TiError;
use crate::numbers::{EnvNo, ThreadNo};
use crate::state::Kind;
use crate::step::Step;

/// One event at a thread or an environment. The first seven are a thread's own, and the others an environment's (JVM TI 11,
/// the function named at each).
///
/// The numbers at each are the errors that may refuse it, in their order. If there is no such thread, a thread's own event
/// is refused with 10 before all others.
#[derive(Clone, Copy, Debug, PartialEq, Eq)]
pub enum Event {
    /// The thread starts: 210 if it was started before, 206 if a stop is in force.
    Start(ThreadNo),
    /// The thread makes a step: 204, then 201, 202 or 203 by its frames, then 208.
    Own(ThreadNo, Step),
    /// The thread looks whether somebody calls for it, and hands over at that place if so: 204 (JEP 312).
    Poll(ThreadNo),
    /// The thread goes into native code: 204, 207, 208.
    ToNative(ThreadNo),
    /// The thread blocks: 204, 208.
    ToBlocked(ThreadNo, Kind),
    /// The thread returns and runs: 205, 206.
    Back(ThreadNo),
    /// The thread ends: 204.
    End(ThreadNo),
    /// A call at a thread: 116, 99, 10, 103, 209, 110, then the thread's answer.
    Ask(EnvNo, ThreadNo, Call),
    /// Stops a thread: 116, 10, 209, 211.
    Stop(EnvNo, ThreadNo),
    /// Reads at most this many of the newest frames under a stop: 116, 10, 103, 209, 110, 212, 213.
    Read(EnvNo, ThreadNo, i32),
    /// Lets a thread go: 116, 10, 212.
    Go(EnvNo, ThreadNo),
    /// AddCapabilities: 116, 98. All are added or none.
    AddCaps(EnvNo, Caps),
    /// RelinquishCapabilities: 116.
    Relinquish(EnvNo, Caps),
    /// GetCapabilities: 116.
    GetCaps(EnvNo),
    /// SetEnvironmentLocalStorage: 116.
    SetEnvWord(EnvNo, u64),
    /// GetEnvironmentLocalStorage: 116.
    GetEnvWord(EnvNo),
}

/// The name of a call that waits, by which its answer is collected.
#[derive(Clone, Copy, Debug, PartialEq, Eq)]
pub struct Ticket {
    pub env: EnvNo,
    pub thread: ThreadNo,
    /// How many calls of the environment were asked at the thread before.
    pub no: u64,
}

/// The outcome of an event. The first five are of a thread's own events, the last two of an environment's.
#[derive(Drop, Debug)]
pub enum Outcome {
    /// The event has left its entry in the history.
    Done,
    /// A poll when nobody calls for the thread: nothing happens.
    Clear,
    /// A poll when somebody calls for the thread: the waiting calls took place, and the thread returned.
    Went,
    /// A poll when somebody calls for the thread: the waiting calls took place, and the thread stays, since it is barred.
    Held,
    /// The thread's own event is refused, and nothing has changed.
    Refused(TiError),
    /// The call is answered.
    Gave(Answer),
    /// The call waits for the thread's next hand-over or end.
    Posted(Ticket),
}
