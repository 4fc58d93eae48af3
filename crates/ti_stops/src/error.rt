//! Why a call about stops is refused.

use std::alloc::AllocError;
use std::error::Error;
use std::fmt;

/// Why a call about stops is refused. Those below 200 have JVM TI 11's numbers, the last two this profile's. `Stops` gives 13,
/// 40, 41, 110 and 116, and the others come from what stands above it.
#[derive(Clone, Copy, Debug, PartialEq, Eq)]
pub enum StopError {
    /// 13 THREAD_NOT_SUSPENDED: the thread does not wait for the environment, or the environment was not told yet.
    ThreadNotSuspended = 13,
    /// 23 INVALID_METHODID: no method of this number was defined.
    InvalidMethod = 23,
    /// 24 INVALID_LOCATION: the method has no such place.
    InvalidLocation = 24,
    /// 31 NO_MORE_FRAMES: the thread has no such frame.
    NoMoreFrames = 31,
    /// 40 DUPLICATE: the environment has this breakpoint, or waits for this pop already.
    Duplicate = 40,
    /// 41 NOT_FOUND: the environment has no such breakpoint.
    NotFound = 41,
    /// 110 OUT_OF_MEMORY: there is no memory for it.
    OutOfMemory = 110,
    /// 116 INVALID_ENVIRONMENT: an environment's call by whoever is none.
    InvalidEnvironment = 116,
    /// 215: another thread is in the way. Try again.
    Busy = 215,
    /// 216: no more may happen.
    Full = 216,
}

impl StopError {
    /// The number by which the error is known: JVM TI 11's, or from 201 on this profile's.
    pub fn number(self) -> u32
        ensures { result ≡ number_of self }
    {
        self as u32
    }

    /// The error's name in JVM TI's spelling, as in `NO_MORE_FRAMES`.
    pub fn name(self) -> &'static str
        ensures { result.now ≡ name_of self }
    {
        match self {
            StopError::ThreadNotSuspended => "THREAD_NOT_SUSPENDED",
            StopError::InvalidMethod => "INVALID_METHODID",
            StopError::InvalidLocation => "INVALID_LOCATION",
            StopError::NoMoreFrames => "NO_MORE_FRAMES",
            StopError::Duplicate => "DUPLICATE",
            StopError::NotFound => "NOT_FOUND",
            StopError::OutOfMemory => "OUT_OF_MEMORY",
            StopError::InvalidEnvironment => "INVALID_ENVIRONMENT",
            StopError::Busy => "BUSY",
            StopError::Full => "FULL",
        }
    }
}

impl fmt::Display for StopError {
    ghost use Rattle.std.specs.Prelude.{Some};
    ghost use Rattle.ti_stops.specs.Errors.{name_of};

    ghost output = { λ error. Some (name_of error) };

    fn fmt<W: fmt::Write>(&self, f: &mut fmt::Formatter<W>) -> fmt::Result {
        f.write_str(self.name())
    }
}

impl Error for StopError {}

impl From<AllocError> for StopError {
    ghost use Rattle.std.specs.Prelude.{◌≡◌};
    ghost use Rattle.ti_stops.specs.declared.error.StopError.TheVariants.{OutOfMemory};

    ghost from_gives = { λ _ e. e ≡ OutOfMemory };

    /// Lack of memory is OUT_OF_MEMORY, 110 (JVM TI 11).
    fn from(_: AllocError) -> Self {
        StopError::OutOfMemory
    }
}

ghost use Rattle.std.specs.Prelude.{◌≡◌};
ghost use Rattle.ti_stops.specs.Errors.{name_of, number_of};
