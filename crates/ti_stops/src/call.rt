//! The calls about stops, and their replies.

use crate::kind::StopKind;
use crate::stop::Stop;
use ti_types::{Frame, MethodNo, ThreadNo};

/// One call about stops. The first seven are an environment's, the last four a runtime's.
#[derive(Clone, Copy, Debug, PartialEq, Eq)]
pub enum StopCall {
    /// The environment hears of this kind of event, at one thread, or at all (JVM TI 11, SetEventNotificationMode).
    Enable(StopKind, Option<ThreadNo>),
    /// It hears no more of this kind of event there. What was enabled at one thread and at all is taken back each by itself.
    Disable(StopKind, Option<ThreadNo>),
    /// A breakpoint at a place (SetBreakpoint).
    SetBreakpoint(Frame),
    /// No breakpoint at a place any more (ClearBreakpoint).
    ClearBreakpoint(Frame),
    /// The environment wants to know when the thread leaves the frame that is this many from the oldest, which is 1
    /// (NotifyFramePop). The request ends when the environment is told.
    NotifyFramePop(ThreadNo, u32),
    /// The stop that has waited longest for the environment, of those that it was not told of.
    Next,
    /// The thread goes on, as far as the environment is concerned.
    LetGo(ThreadNo),
    /// A thread reached a place.
    Reached(ThreadNo, Frame),
    /// A thread is about to leave its newest frame, here, and has so many frames with it.
    Leaves(ThreadNo, Frame, u32),
    /// Whether the thread has to wait.
    IsStopped(ThreadNo),
    /// Whether the thread may have to stop in one of so many methods, from this one on: an environment that hears of breakpoints at the
    /// thread has one there, or one hears of its single steps, or one hears of its pops of frames and wants to know of one.
    MayStopIn(ThreadNo, MethodNo, u32),
}

/// What a call about stops gives.
#[derive(Clone, Copy, Debug, PartialEq, Eq)]
pub enum StopReply {
    /// It is done.
    Done,
    /// Whether the thread stops: to `Reached` and `Leaves`.
    Stops(bool),
    /// The stop, if there is one: to `Next`.
    Told(Option<Stop>),
    /// Whether the thread has to wait, to `IsStopped`, or may have to, to `MayStopIn`.
    Waits(bool),
}

impl StopReply {
    /// Whether the call changed something.
    pub fn is_news(self) -> bool
        ensures { result ≡ is_news self }
    {
        match self {
            StopReply::Done | StopReply::Told(Some(_)) => true,
            StopReply::Stops(stops) => stops,
            StopReply::Told(None) | StopReply::Waits(_) => false,
        }
    }
}

ghost use Rattle.std.specs.Prelude.{◌≡◌};
ghost use Rattle.ti_stops.specs.Stops.{is_news};
