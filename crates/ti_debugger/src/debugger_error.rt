//! Why a call of a debugger's agent is refused.

use thiserror::Error;
use ti_jdwp::SessionError;

/// Why a call is refused. The session is as it was before, but for `next`, which may have gone on before it.
#[derive(Clone, Copy, Debug, PartialEq, Eq, Error)]
pub enum DebuggerError {
    /// 110 OUT_OF_MEMORY (JVM TI 11): there is no memory for the input, for a reply or for an event.
    #[error("out of memory")]
    OutOfMemory = 110,
    /// 112 WRONG_PHASE (JVM TI 11): no debugger is connected.
    #[error("no debugger is connected")]
    NoDebugger = 112,
}

impl DebuggerError {
    /// The number by which the error is known: JVM TI 11's.
    pub fn number(self) -> u32
        ensures { result ≡ number_of self }
    {
        self as u32
    }
}

impl From<SessionError> for DebuggerError {
    ghost use Rattle.std.specs.Prelude.{◌≡◌};
    ghost use Rattle.ti_debugger.specs.declared.debugger_error.DebuggerError.TheVariants.{OutOfMemory};

    ghost from_gives = { λ _ e. e ≡ OutOfMemory };

    /// The calls of a session that an agent makes fail only for lack of memory.
    fn from(_: SessionError) -> Self {
        DebuggerError::OutOfMemory
    }
}

ghost use Rattle.std.specs.Prelude.{◌≡◌};
ghost use Rattle.ti_debugger.specs.Errors.{number_of};
