//! Why a call is refused.

use std::alloc::AllocError;
use thiserror::Error;

/// Why a call is refused. The connection is as it was before.
#[derive(Clone, Copy, Debug, PartialEq, Eq, Error)]
pub enum HttpError {
    /// 110 OUT_OF_MEMORY (JVM TI 11): there is no memory for the input or for an answer.
    #[error("out of memory")]
    OutOfMemory = 110,
    /// 112 WRONG_PHASE (JVM TI 11): no request waits for an answer.
    #[error("no request waits for an answer")]
    NotAsked = 112,
}

impl HttpError {
    /// The number by which the error is known: JVM TI 11's.
    pub fn number(self) -> u32
        ensures { result ≡ number_of self }
    {
        self as u32
    }
}

impl From<AllocError> for HttpError {
    ghost use Rattle.std.specs.Prelude.{◌≡◌};
    ghost use Rattle.ti_http.specs.declared.error.HttpError.TheVariants.{OutOfMemory};

    ghost from_gives = { λ _ e. e ≡ OutOfMemory };

    /// Lack of memory is OUT_OF_MEMORY, 110 (JVM TI 11).
    fn from(_: AllocError) -> Self {
        HttpError::OutOfMemory
    }
}

ghost use Rattle.std.specs.Prelude.{◌≡◌};
ghost use Rattle.ti_http.specs.Answers.{number_of};
