//! How far a thread has come that is there.

/// How far a thread has come that is there.
#[derive(Clone, Copy)]
pub(crate) enum Stage {
    /// It has not started.
    New,
    /// It has started, and has not ended.
    Alive,
    /// It has ended.
    Over,
}

impl Stage {
    /// Whether the thread has not started.
    pub(crate) fn is_new(self) -> bool
        ensures { result ≡ is_new self }
    {
        matches!(self, Stage::New)
    }

    /// Whether the thread has started, and has not ended.
    pub(crate) fn is_alive(self) -> bool
        ensures { result ≡ is_alive self }
    {
        matches!(self, Stage::Alive)
    }
}

ghost use Rattle.std.specs.Prelude.{◌≡◌};
ghost use Rattle.ti_roster.specs.Stages.{is_alive, is_new};
