//! The answers to calls.
use crate::caps::Caps;
use crate::error::TiError;
use crate::place::Frame;
use crate::trace::TraceBuf;

/// The answer to a call (JVM TI 11, the function named at each).
#[derive(Drop, Debug)]
pub enum Answer {
    /// The call has done what it asks for. It answers SuspendThread, ResumeThread, PopFrame, the setters of storage, a stop
    /// and a go, and the calls that change capabilities.
    Done,
    /// GetThreadState: the bits of `state_bits`.
    State(u32),
    /// GetFrameCount: the number of frames, from 0 to the depth limit.
    Count(u32),
    /// GetStackTrace: the frames, newest first.
    Trace(TraceBuf),
    /// GetFrameLocation: the frame at the depth.
    Location(Frame),
    /// GetThreadLocalStorage and GetEnvironmentLocalStorage: the word, 0 until it is set.
    Word(u64),
    /// GetCapabilities: the capabilities that the environment has.
    Caps(Caps),
    /// A read under a stop: the state bits, and the newest frames, newest first (after GetAllStackTraces).
    Stack { state: u32, frames: TraceBuf },
    /// The call is refused, and has changed nothing at the thread.
    Refused(TiError),
}
