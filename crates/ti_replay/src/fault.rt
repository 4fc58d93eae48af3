//! Why a history is not replayed.
use std::alloc::AllocError;

/// Why a history has no view and no replies.
#[derive(Clone, Copy, Debug, PartialEq, Eq)]
pub enum ReplayFault {
    /// The history is not legal. `at` is the place of its first illegal entry, from 0 on.
    Illegal { at: usize },
    /// There is no memory for the replay.
    Memory,
}

impl From<AllocError> for ReplayFault {
    ghost use Rattle.std.specs.Prelude.{◌≡◌};
    ghost use Rattle.ti_replay.specs.declared.fault.ReplayFault.TheVariants.{Memory};

    ghost from_gives = { λ _ e. e ≡ Memory };

    /// Lack of memory is `Memory`.
    fn from(_: AllocError) -> Self {
        ReplayFault::Memory
    }
}
