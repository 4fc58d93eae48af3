//! The threads that were met.

use crate::hold::Hold;
use ti_types::ThreadNo;

/// How far a thread's life is, so far as that is known.
#[derive(Clone, Copy)]
pub(crate) enum Life {
    /// It has not started.
    New,
    /// It has started, and has not ended.
    Alive,
    Ended,
}

impl Life {
    /// Whether it has started, and has not ended.
    pub(crate) fn is_alive(self) -> bool
        ensures { result ≡ is_alive self }
    {
        matches!(self, Life::Alive)
    }

    /// How far it is once the thread has started. One that is known to have ended does not start again.
    pub(crate) fn once_started(self) -> Life {
        match self {
            Life::New | Life::Alive => Life::Alive,
            Life::Ended => Life::Ended,
        }
    }
}

/// A thread that was met. Its name is kept after its end.
#[derive(Drop)]
pub(crate) struct Watched {
    pub(crate) thread: ThreadNo,
    pub(crate) name: String,
    pub(crate) hold: Hold,
    pub(crate) life: Life,
    /// It was given back to the service.
    pub(crate) ended: bool,
    /// The agent let go of it, so that it is asked nothing more.
    pub(crate) gone: bool,
}

impl Watched {
    /// A thread that was just met.
    pub(crate) fn new(thread: ThreadNo, name: String, life: Life) -> Watched {
        Watched {
            thread,
            name,
            hold: Hold::Free,
            life,
            ended: false,
            gone: false,
        }
    }
}

ghost use Rattle.std.specs.Prelude.{◌≡◌};
ghost use Rattle.ti_debugger.specs.Status.{is_alive};
