//! The entries of a thread's history.
use crate::call::Call;
use crate::numbers::EnvNo;
use crate::state::Safe;
use crate::step::Step;

/// One entry of a thread's history. The history is the list of what the thread and the environments have done there, in the
/// order of the holds of the thread's cell. Which entry may come where is the table of `ti_replay` (`specs/Legal`).
#[derive(Clone, Copy, Debug, PartialEq, Eq)]
pub enum Entry {
    /// The thread starts, and runs (HotSpot Runtime Overview: from new to in Java).
    Start,
    /// The running thread makes a step on its frames.
    Own(Step),
    /// The running thread hands over: it goes into native code, blocks, or stops at a poll. The calls that wait take place
    /// just after that (JEP 312: an operation runs while its thread is safe).
    Hand(Safe),
    /// The safe thread runs again.
    Back,
    /// The running thread ends. The calls that wait take place just after that.
    End,
    /// A call of an environment at the thread, with the number of calls that it asked there before.
    Asked(EnvNo, u64, Call),
    /// An environment stops the thread: it does not return until it is let go (after GetAllStackTraces).
    Stop(EnvNo),
    /// An environment reads at most this many of the newest frames under its stop.
    Read(EnvNo, i32),
    /// An environment lets the thread go.
    Go(EnvNo),
}
