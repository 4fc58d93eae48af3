//! The calls at one thread, and the capability that each needs.

use crate::caps::Caps;

/// A call of an environment at one thread (JVM TI 11, the function named at each).
///
/// What a thread answers depends on its state. A thread that is not alive answers 15 THREAD_NOT_ALIVE to every call but
/// `State`.
#[derive(Clone, Copy, Debug, PartialEq, Eq)]
pub enum Call {
    /// GetThreadState: the state in bits, of a thread in any mode.
    State,
    /// GetFrameCount: the number of frames.
    FrameCount,
    /// GetStackTrace: at most `max_count` frames, newest first, from `start` on. A `start` of 0 or more counts from the
    /// newest frame, and a negative one from the oldest. A `max_count` below 0 is refused with 103 before the thread is
    /// reached. If there is no frame at `start`, the thread refuses the call with 103.
    Trace { start: i32, max_count: i32 },
    /// GetFrameLocation: the frame at a depth, 0 for the newest. A `depth` below 0 is refused with 103 before the thread is
    /// reached. If there is no frame at it, the thread refuses the call with 31.
    Location { depth: i32 },
    /// SuspendThread: 14 if the thread is suspended.
    Suspend,
    /// ResumeThread: 13 if the thread is not suspended.
    Resume,
    /// GetThreadLocalStorage: the environment's word at the thread, 0 until it is set.
    GetWord,
    /// SetThreadLocalStorage: sets the environment's word at the thread.
    SetWord(u64),
    /// PopFrame: the newest frame goes. Its caller is the newest at once, at the place where it was (the place is this
    /// profile's). 13 if the thread is not suspended, 31 if there are fewer than two frames, 32 if one of the two newest is
    /// native.
    Pop,
}

impl Call {
    /// Whether no number is negative that may not be: `max_count` of `Trace` and `depth` of `Location`. A call that is not
    /// well formed is refused with 103 ILLEGAL_ARGUMENT (JVM TI 11, GetStackTrace and GetFrameLocation).
    pub fn is_well_formed(self) -> bool
        ensures { result ≡ well_formed_is self }
    {
        match self {
            Call::Trace { max_count, .. } => max_count >= 0,
            Call::Location { depth } => depth >= 0,
            _ => true,
        }
    }
}

/// The capabilities that a call needs: can_suspend for `Suspend` and `Resume`, can_pop_frame for `Pop`, and none for the
/// others. An environment without them is refused with 99 (JVM TI 11, SuspendThread, ResumeThread and PopFrame).
pub fn needs(call: Call) -> Caps
    ensures { result ≡ needed_by call }
{
    match call {
        Call::Suspend | Call::Resume => Caps::CAN_SUSPEND,
        Call::Pop => Caps::CAN_POP_FRAME,
        _ => Caps::none(),
    }
}

ghost use Rattle.std.specs.Prelude.{◌≡◌};
ghost use Rattle.ti_types.specs.Call.{needed_by, is_well_formed as well_formed_is};
