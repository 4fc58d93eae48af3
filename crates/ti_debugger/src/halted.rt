//! Threads that stopped for the agent, and what it has asked of stops.

use crate::stopping::Spot;
use std::alloc::Global;
use ti_service::Stop;

/// What becomes of a thread that stopped.
#[derive(Clone, Copy)]
pub(crate) enum Stage {
    /// The session was not told of it yet.
    New,
    /// The session was told, and lets it go on.
    Told,
    /// It runs without single steps until it is about to have this many frames, and goes on.
    RunsTo(u32),
    /// Nobody wants it to stop any more.
    Goes,
}

impl Stage {
    /// The session was told of the stop, and has not let the thread go.
    fn is_told(self) -> bool
        ensures { result ≡ is_told self }
    {
        matches!(self, Stage::Told)
    }

    /// Nobody wants the thread to stop here any more.
    pub(crate) fn may_go(self) -> bool
        ensures { result ≡ may_go self }
    {
        matches!(self, Stage::RunsTo(_) | Stage::Goes)
    }
}

/// A thread that stopped.
#[derive(Clone, Copy)]
pub(crate) struct Halted {
    pub(crate) stop: Stop,
    pub(crate) stage: Stage,
}

impl Halted {
    /// What becomes of it once the session lets a thread go.
    fn once_let_go(self, thread: u32) -> Halted
        ensures { result ≡ once_let_go thread self }
    {
        if self.stop.thread.0 == thread && self.stage.is_told() {
            Halted {
                stop: self.stop,
                stage: Stage::Goes,
            }
        } else {
            self
        }
    }
}

/// What the agent has asked of stops, and the threads that stopped for it.
#[derive(Drop)]
pub(crate) struct Stops {
    /// Its breakpoints.
    pub(crate) spots: Vec<Spot>,
    /// It is told of breakpoints.
    pub(crate) hears: bool,
    /// The threads that make single steps for it.
    pub(crate) steppers: Vec<u32>,
    /// The threads that stopped, in the order in which they did.
    pub(crate) halted: Vec<Halted>,
}

impl Stops {
    /// None. It takes no memory yet.
    pub(crate) fn new(alloc: Global) -> Stops {
        Stops {
            spots: Vec::new(alloc),
            hears: false,
            steppers: Vec::new(alloc),
            halted: Vec::new(alloc),
        }
    }

    /// Whether a thread may stop, or has.
    pub(crate) fn are_any(&self) -> bool {
        self.hears || !self.steppers.is_empty() || !self.halted.is_empty()
    }

    /// Notes what becomes of a thread that stopped.
    pub(crate) fn set_stage(&mut self, index: usize, stage: Stage) {
        if let Some(halted) = self.halted.get_mut(index) {
            halted.stage = stage;
        }
    }

    /// The session lets a thread go on.
    pub(crate) fn let_go(&mut self, thread: u32)
        ensures rest { self.new ≡ record self.old { halted = self.new.halted } }
        ensures halted { self.new.halted.items ≡ map (once_let_go thread) self.old.halted.items }
    {
        for halted in self.halted.iter_mut() {
            *halted = halted.once_let_go(thread);
        }
    }

    /// There is no session any more.
    pub(crate) fn let_go_of_all(&mut self) {
        for halted in self.halted.iter_mut() {
            halted.stage = Stage::Goes;
        }
    }
}

ghost use Rattle.std.specs.Prelude.{◌≡◌, map};
ghost use Rattle.ti_debugger.specs.Stopping.{is_told, may_go, once_let_go};
