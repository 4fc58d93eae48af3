//! Why a call of a session is refused.

use crate::error::JdwpError;
use thiserror::Error;

/// Why a call of a session is refused. The session is as it was before.
#[derive(Clone, Copy, Debug, PartialEq, Eq, Error)]
pub enum SessionError {
    /// 110 OUT_OF_MEMORY (JVM TI 11): there is no memory for the input, for a reply or for an event.
    #[error("out of memory")]
    OutOfMemory = 110,
    /// 112 WRONG_PHASE (JVM TI 11): the session did not ask for this answer.
    #[error("the session did not ask for this answer")]
    NotAsked = 112,
}

impl SessionError {
    /// The number by which the error is known: JVM TI 11's.
    pub fn number(self) -> u32
        ensures { result ≡ session_number self }
    {
        self as u32
    }
}

impl From<JdwpError> for SessionError {
    ghost use Rattle.std.specs.Prelude.{◌≡◌};
    ghost use Rattle.ti_jdwp.specs.declared.session_error.SessionError.TheVariants.{OutOfMemory};

    ghost from_gives = { λ _ e. e ≡ OutOfMemory };

    /// What fails inside a session fails for lack of memory.
    fn from(_: JdwpError) -> Self {
        SessionError::OutOfMemory
    }
}

ghost use Rattle.std.specs.Prelude.{◌≡◌};
ghost use Rattle.ti_jdwp.specs.Plans.{session_number};
