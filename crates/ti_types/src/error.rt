//! The errors, by their numbers.

use std::alloc::AllocError;
use std::error::Error;
use std::fmt;

/// Why a call or an event is refused. A refusal changes nothing at the thread. The first eleven are JVM TI 11's, with its
/// numbers. Those from 201 on are this profile's.
#[derive(Clone, Copy, Debug, PartialEq, Eq)]
pub enum TiError {
    /// 10 INVALID_THREAD: there is no thread of this number.
    InvalidThread = 10,
    /// 13 THREAD_NOT_SUSPENDED: a resumption of a thread that is not suspended, or a pop there.
    ThreadNotSuspended = 13,
    /// 14 THREAD_SUSPENDED: a suspension of a thread that is suspended.
    ThreadSuspended = 14,
    /// 15 THREAD_NOT_ALIVE: the thread has not started, or has ended.
    ThreadNotAlive = 15,
    /// 31 NO_MORE_FRAMES: there is no frame at the depth, or there are fewer than two frames for a pop.
    NoMoreFrames = 31,
    /// 32 OPAQUE_FRAME: a pop when the newest frame or its caller is native.
    OpaqueFrame = 32,
    /// 98 NOT_AVAILABLE: a capability that cannot be had.
    NotAvailable = 98,
    /// 99 MUST_POSSESS_CAPABILITY: the call needs a capability that the environment does not have.
    MustPossessCapability = 99,
    /// 103 ILLEGAL_ARGUMENT: a negative `max_count` or `depth`, or there is no frame at `start`.
    IllegalArgument = 103,
    /// 110 OUT_OF_MEMORY: there is no memory for what is to be made, and nothing else.
    OutOfMemory = 110,
    /// 116 INVALID_ENVIRONMENT: there is no environment of this number.
    InvalidEnvironment = 116,
    /// 201: the stack has as many frames as the depth limit allows.
    Overflow = 201,
    /// 202: a step needs a frame, and there is none.
    NoFrame = 202,
    /// 203: a new position for a native frame.
    NotJavaFrame = 203,
    /// 204: the thread does not run.
    NotRunning = 204,
    /// 205: a return of a thread that is not safe.
    NotSafe = 205,
    /// 206: the thread is suspended or stopped, and may not start or return.
    Barred = 206,
    /// 207: a hand-over to native code when the newest frame is not native.
    NoNativeFrame = 207,
    /// 208: the thread has spent its own budget.
    OwnSpent = 208,
    /// 209: the environment has spent its calls at the thread.
    CallsSpent = 209,
    /// 210: a start of a thread that has started.
    NotNew = 210,
    /// 211: a stop of a thread at which a stop is in force, the same environment's too.
    AlreadyStopped = 211,
    /// 212: a read or a go by an environment whose stop is not in force.
    NotStopped = 212,
    /// 213: a read of a thread that still runs.
    StillRunning = 213,
    /// 214: the time of a call with a deadline is over, and the call was cancelled. It may still take place.
    TimedOut = 214,
    /// 215: a form that never waits found the cell in use. Nothing has changed: try again.
    Busy = 215,
    /// 216: a bound other than memory leaves no room: the window of calls that are out, the environments or the thread
    /// numbers of a service, or the threads that an environment has met. It never comes under the limits of documents.
    Full = 216,
}

impl TiError {
    /// The number by which the error is known: JVM TI 11's, or from 201 on this profile's.
    pub fn number(self) -> u32
        ensures { result ≡ number_of self }
    {
        self as u32
    }

    /// The error's name in JVM TI's spelling, as in `THREAD_NOT_SUSPENDED`.
    pub fn name(self) -> &'static str
        ensures { result.now ≡ name_of self }
    {
        match self {
            TiError::InvalidThread => "INVALID_THREAD",
            TiError::ThreadNotSuspended => "THREAD_NOT_SUSPENDED",
            TiError::ThreadSuspended => "THREAD_SUSPENDED",
            TiError::ThreadNotAlive => "THREAD_NOT_ALIVE",
            TiError::NoMoreFrames => "NO_MORE_FRAMES",
            TiError::OpaqueFrame => "OPAQUE_FRAME",
            TiError::NotAvailable => "NOT_AVAILABLE",
            TiError::MustPossessCapability => "MUST_POSSESS_CAPABILITY",
            TiError::IllegalArgument => "ILLEGAL_ARGUMENT",
            TiError::OutOfMemory => "OUT_OF_MEMORY",
            TiError::InvalidEnvironment => "INVALID_ENVIRONMENT",
            TiError::Overflow => "OVERFLOW",
            TiError::NoFrame => "NO_FRAME",
            TiError::NotJavaFrame => "NOT_JAVA_FRAME",
            TiError::NotRunning => "NOT_RUNNING",
            TiError::NotSafe => "NOT_SAFE",
            TiError::Barred => "BARRED",
            TiError::NoNativeFrame => "NO_NATIVE_FRAME",
            TiError::OwnSpent => "OWN_SPENT",
            TiError::CallsSpent => "CALLS_SPENT",
            TiError::NotNew => "NOT_NEW",
            TiError::AlreadyStopped => "ALREADY_STOPPED",
            TiError::NotStopped => "NOT_STOPPED",
            TiError::StillRunning => "STILL_RUNNING",
            TiError::TimedOut => "TIMED_OUT",
            TiError::Busy => "BUSY",
            TiError::Full => "FULL",
        }
    }
}

impl fmt::Display for TiError {
    ghost use Rattle.std.specs.Prelude.{Some};
    ghost use Rattle.ti_types.specs.TiError.{name_of};

    ghost output = { λ error. Some (name_of error) };

    fn fmt<W: fmt::Write>(&self, f: &mut fmt::Formatter<W>) -> fmt::Result {
        f.write_str(self.name())
    }
}

impl Error for TiError {}

impl From<AllocError> for TiError {
    ghost use Rattle.std.specs.Prelude.{◌≡◌};
    ghost use Rattle.ti_types.specs.declared.error.TiError.TheVariants.{OutOfMemory};

    ghost from_gives = { λ _ e. e ≡ OutOfMemory };

    /// Lack of memory is OUT_OF_MEMORY, 110 (JVM TI 11).
    fn from(_: AllocError) -> Self {
        TiError::OutOfMemory
    }
}

ghost use Rattle.std.specs.Prelude.{◌≡◌};
ghost use Rattle.ti_types.specs.TiError.{name_of, number_of};
