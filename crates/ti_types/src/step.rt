//! The steps of a running thread.
use crate::numbers::MethodNo;

/// A step that a running thread makes on its own frames.
#[derive(Clone, Copy, Debug, PartialEq, Eq)]
pub enum Step {
    /// Enters a Java method at position 0: 201 if the depth limit is reached.
    Enter(MethodNo),
    /// Enters a native method: 201 if the depth limit is reached.
    EnterNative(MethodNo),
    /// Goes to a position in the newest frame: 202 if there is none, 203 if it is native.
    At(u32),
    /// Leaves the newest frame: 202 if there is none.
    Leave,
}
