//! An agent's calls.
use crate::listed::Listed;
use ti_types::{Call, Caps, ThreadNo};

/// A call of an agent in a live run (JVM TI 11, the function named at each). A number that no thread has is no fault of the
/// document. The call is then refused with 10 INVALID_THREAD.
#[derive(Drop, Debug)]
pub enum AgentCall {
    /// A call at one thread, which may be a PopFrame.
    Ask(ThreadNo, Call),
    /// AddCapabilities: all of them or none.
    AddCaps(Caps),
    /// RelinquishCapabilities.
    Relinquish(Caps),
    /// GetCapabilities.
    GetCaps,
    /// SetEnvironmentLocalStorage.
    SetEnvWord(u64),
    /// GetEnvironmentLocalStorage.
    GetEnvWord,
    /// SuspendThreadList: a code for each element, in the list's order.
    SuspendList(Listed<ThreadNo>),
    /// ResumeThreadList: a code for each element, in the list's order.
    ResumeList(Listed<ThreadNo>),
    /// GetAllStackTraces, with at most this many of the newest frames of each thread that is alive.
    AllStacks(i32),
    /// GetThreadListStackTraces, with at most this many of the newest frames for each element, in the list's order.
    ListStacks(Listed<ThreadNo>, i32),
}
