//! The stack of one thread among several.
use crate::numbers::ThreadNo;
use crate::trace::TraceBuf;

/// The state and the frames of one thread (JVM TI 11, jvmtiStackInfo).
#[derive(Drop, Debug)]
pub struct StackInfo {
    pub thread: ThreadNo,
    /// The bits of GetThreadState.
    pub state: u32,
    /// The newest frames, newest first. A thread that is not alive has none.
    pub frames: TraceBuf,
}
