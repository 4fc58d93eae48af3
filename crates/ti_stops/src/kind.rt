//! The kinds of events for which a thread stops.

/// A kind of event for which a thread stops (JVM TI 11).
#[derive(Clone, Copy, Debug, PartialEq, Eq)]
pub enum StopKind {
    /// A thread reached a place at which the environment has a breakpoint.
    Breakpoint,
    /// A thread reached a place.
    SingleStep,
    /// A thread is about to leave a frame of which the environment asked to be told.
    FramePop,
}

impl StopKind {
    /// JVM TI 11's number of the event: 62, 60 or 61.
    pub fn number(self) -> u32
        ensures { result ≡ kind_number self }
    {
        match self {
            StopKind::Breakpoint => 62,
            StopKind::SingleStep => 60,
            StopKind::FramePop => 61,
        }
    }
}

ghost use Rattle.std.specs.Prelude.{◌≡◌};
ghost use Rattle.ti_stops.specs.Kinds.{kind_number};
