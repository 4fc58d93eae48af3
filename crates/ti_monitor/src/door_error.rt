//! Why a call at a door is refused.

use thiserror::Error;
use ti_http::HttpError;

/// Why a call at a door is refused. Nothing has changed then.
#[derive(Clone, Copy, Debug, PartialEq, Eq, Error)]
pub enum DoorError {
    /// 103 ILLEGAL_ARGUMENT (JVM TI 11): no connection of this number is open.
    #[error("no such connection is open")]
    NoConnection = 103,
    /// 110 OUT_OF_MEMORY (JVM TI 11): there is no memory for a connection, its input or an answer.
    #[error("out of memory")]
    OutOfMemory = 110,
    /// 216 (this service): as many connections are open as may be.
    #[error("all connections are open")]
    Full = 216,
}

impl DoorError {
    /// The number by which the error is known: JVM TI 11's, or this service's.
    pub fn number(self) -> u32
        ensures { result ≡ number_of self }
    {
        self as u32
    }
}

impl From<HttpError> for DoorError {
    ghost use Rattle.std.specs.Prelude.{◌≡◌};
    ghost use Rattle.ti_monitor.specs.declared.door_error.DoorError.TheVariants.{OutOfMemory};

    ghost from_gives = { λ _ e. e ≡ OutOfMemory };

    /// A connection's calls that a door makes fail only for lack of memory.
    fn from(_: HttpError) -> Self {
        DoorError::OutOfMemory
    }
}

ghost use Rattle.std.specs.Prelude.{◌≡◌};
ghost use Rattle.ti_monitor.specs.Door.{number_of};
