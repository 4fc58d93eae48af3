//! The replies to an agent's calls.
use crate::listed::Listed;
use ti_types::{Answer, StackInfo};

/// The reply to an agent's call.
#[derive(Drop, Debug)]
pub enum Reply {
    /// The answer to a call at one thread or about the environment, or the error that refused a list call as a whole.
    Plain(Answer),
    /// Of SuspendThreadList and ResumeThreadList: for each element 0, or the number of its error.
    Codes(Listed<u32>),
    /// Of GetAllStackTraces, in the order of the threads' numbers, and of GetThreadListStackTraces, in the list's order.
    Stacks(Listed<StackInfo>),
}
