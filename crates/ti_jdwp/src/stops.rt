//! Threads that stop at a place, and how far a step goes.

/// A thread that stopped at a place, and waits there until it is let go.
#[derive(Clone, Copy, Debug)]
pub struct Stopped<'a> {
    pub thread: u32,
    pub class: u32,
    pub method: u32,
    /// The location in the method.
    pub index: u32,
    /// The line of the location, if it has one.
    pub line: Option<u32>,
    /// How many frames the stack has.
    pub frames: u32,
    /// The signature of the class, as `Lscripts/nbody;`.
    pub signature: &'a [u8],
    /// A breakpoint is set there.
    pub breakpoint: bool,
    /// The thread goes in single steps.
    pub single_step: bool,
}

/// Where a thread stands: how many frames its stack has, and the method and the line of the newest.
#[derive(Clone, Copy, Debug, PartialEq, Eq)]
pub struct Standing {
    pub frames: u32,
    pub method: u32,
    pub line: Option<u32>,
}

/// Where nothing is known of a thread.
pub(crate) const NOWHERE: Standing = Standing {
    frames: 0,
    method: 0,
    line: None,
};

/// What becomes of a thread that stopped.
#[derive(Clone, Copy, Debug, PartialEq, Eq)]
pub enum Verdict {
    /// The stop is told to those who asked for it. The thread waits until [`Action::LetGo`](crate::Action::LetGo).
    Told,
    /// Nobody is told. The thread goes on.
    Passed,
    /// Nobody is told, and each step of the thread ends where its stack has at most so many frames. The thread goes on without
    /// single steps until then.
    Deeper(u32),
}

/// How small a step is.
#[derive(Clone, Copy)]
pub(crate) enum Size {
    /// 0 MIN: one location.
    Min,
    /// 1 LINE: to another line.
    Line,
}

/// Which calls a step passes over.
#[derive(Clone, Copy)]
pub(crate) enum Depth {
    /// 0 INTO: none.
    Into,
    /// 1 OVER: those that are made in it.
    Over,
    /// 2 OUT: it goes to the end of the method.
    Out,
}

/// A step of a thread, which began where the thread stood.
#[derive(Clone, Copy)]
pub(crate) struct Step {
    pub(crate) thread: u32,
    pub(crate) size: Size,
    pub(crate) depth: Depth,
    pub(crate) from: Standing,
}

impl Step {
    /// With at most so many frames the step may end. It says nothing of a step into calls.
    pub(crate) fn bound(self) -> u32
        ensures { result ≡ bound_of self }
    {
        match self.depth {
            Depth::Into => 0,
            Depth::Over => self.from.frames,
            Depth::Out => self.from.frames.saturating_sub(1),
        }
    }

    /// Whether the step ends with fewer frames than there are now, and not before.
    pub(crate) fn is_above(self, frames: u32) -> bool
        ensures { result ≡ is_above self frames }
    {
        match self.depth {
            Depth::Into => false,
            _ => self.bound() < frames,
        }
    }
}

/// What a request for events is made for.
#[derive(Clone, Copy)]
pub(crate) enum Target {
    /// Nothing but its kind.
    Anywhere,
    /// A breakpoint at this place.
    Place { class: u32, method: u32, index: u32 },
    /// The end of this step.
    Step(Step),
}

ghost use Rattle.std.specs.Prelude.{◌≡◌};
ghost use Rattle.ti_jdwp.specs.Stops.{bound_of, is_above};
