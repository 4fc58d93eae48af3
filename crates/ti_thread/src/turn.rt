//! The calls that lead a thread to another state, as one.

use crate::any_thread::{AnyThread, TurnOutcome};
use ti_types::Kind;

/// What a thread does.
#[derive(Clone, Copy)]
pub enum Turn {
    Start,
    Poll,
    Native,
    /// Blocks, for this reason.
    Block(Kind),
    Back,
    End,
}

impl AnyThread {
    /// Does what `turn` says.
    #[inline(always)]
    pub(crate) fn take_turn(self, turn: Turn) -> (AnyThread, TurnOutcome)
        ensures { Takes turn self result.0 result.1 }
    {
        match turn {
            Turn::Start => self.start(),
            Turn::Poll => self.poll(),
            Turn::Native => self.native(),
            Turn::Block(kind) => self.block(kind),
            Turn::Back => self.back(),
            Turn::End => self.end(),
        }
    }

    /// How many frames the thread has, or `otherwise` if it does not run.
    #[inline(always)]
    pub(crate) fn frames_or(&self, otherwise: usize) -> usize
        ensures { result ≡ count_or self.now otherwise }
    {
        match self {
            AnyThread::Running(running) => running.frame_count(),
            AnyThread::Fresh(_) | AnyThread::Safe(_) | AnyThread::Ended(_) => otherwise,
        }
    }
}

ghost use Rattle.std.specs.Prelude.{◌≡◌};
ghost use Rattle.ti_thread.specs.Hosts.{Takes, count_or};
