//! Frames, and their places in methods.
use crate::numbers::MethodNo;

/// Where a frame is in its method.
#[derive(Clone, Copy, Debug, PartialEq, Eq)]
pub enum Place {
    /// At a position in its bytecode (JVM TI 11, jlocation).
    Java(u32),
    /// In a native method, whose location JVM TI 11 gives as -1.
    Native,
}

/// One frame of a thread's stack.
#[derive(Clone, Copy, Debug, PartialEq, Eq)]
pub struct Frame {
    /// The method that the frame runs.
    pub method: MethodNo,
    /// Where it is in the method.
    pub place: Place,
}
