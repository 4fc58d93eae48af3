//! The errors that a reply can have.

use std::alloc::AllocError;
use thiserror::Error;

/// Why a request is refused: an error of JDWP (Java 8).
#[derive(Clone, Copy, Debug, PartialEq, Eq, Error)]
pub enum JdwpError {
    /// 10 INVALID_THREAD: the id is no thread's.
    #[error("the id is no thread's")]
    InvalidThread = 10,
    /// 11 INVALID_THREAD_GROUP: the id is no thread group's.
    #[error("the id is no thread group's")]
    InvalidThreadGroup = 11,
    /// 13 THREAD_NOT_SUSPENDED: the thread is not suspended, or has not reached a safe point yet.
    #[error("the thread is not suspended")]
    ThreadNotSuspended = 13,
    /// 20 INVALID_OBJECT: the id is no object's.
    #[error("the id is no object's")]
    InvalidObject = 20,
    /// 21 INVALID_CLASS: the id is no class's.
    #[error("the id is no class's")]
    InvalidClass = 21,
    /// 23 INVALID_METHODID: the id is no method's.
    #[error("the id is no method's")]
    InvalidMethodId = 23,
    /// 24 INVALID_LOCATION: the method has no such location.
    #[error("the method has no such location")]
    InvalidLocation = 24,
    /// 30 INVALID_FRAMEID: the id is no frame's.
    #[error("the id is no frame's")]
    InvalidFrameId = 30,
    /// 31 NO_MORE_FRAMES: the oldest frame of a stack is not popped.
    #[error("the oldest frame is not popped")]
    NoMoreFrames = 31,
    /// 32 OPAQUE_FRAME: a native frame is not popped, nor one that it called.
    #[error("a native frame is in the way")]
    OpaqueFrame = 32,
    /// 35 INVALID_SLOT: the frame has no variable of this slot.
    #[error("the frame has no such variable")]
    InvalidSlot = 35,
    /// 99 NOT_IMPLEMENTED: the command or the kind of event is not served.
    #[error("not implemented")]
    NotImplemented = 99,
    /// 101 ABSENT_INFORMATION: the class has no source file, or the method no lines or no variables.
    #[error("absent information")]
    AbsentInformation = 101,
    /// 102 INVALID_EVENT_TYPE: there is no such kind of event.
    #[error("no such kind of event")]
    InvalidEventType = 102,
    /// 103 ILLEGAL_ARGUMENT: the data of the request is not laid out as its command says.
    #[error("illegal argument")]
    IllegalArgument = 103,
    /// 110 OUT_OF_MEMORY: there is no memory, or a bound leaves no room.
    #[error("out of memory")]
    OutOfMemory = 110,
    /// 112 VM_DEAD: the session has ended.
    #[error("the session has ended")]
    VmDead = 112,
    /// 503 INVALID_INDEX: a stack has no frame at the start, or a table no entry.
    #[error("nothing at the start")]
    InvalidIndex = 503,
    /// 504 INVALID_LENGTH: a stack has fewer frames than were asked for, or a table fewer entries.
    #[error("fewer than asked for")]
    InvalidLength = 504,
    /// 511 NATIVE_METHOD: a native method has no lines.
    #[error("a native method has no lines")]
    NativeMethod = 511,
}

impl JdwpError {
    /// The number of the error in a reply.
    pub fn number(self) -> u16
        ensures { result ≡ number_of self }
    {
        self as u16
    }
}

impl From<AllocError> for JdwpError {
    ghost use Rattle.std.specs.Prelude.{◌≡◌};
    ghost use Rattle.ti_jdwp.specs.declared.error.JdwpError.TheVariants.{OutOfMemory};

    ghost from_gives = { λ _ e. e ≡ OutOfMemory };

    /// Lack of memory is OUT_OF_MEMORY, 110.
    fn from(_: AllocError) -> Self {
        JdwpError::OutOfMemory
    }
}

ghost use Rattle.std.specs.Prelude.{◌≡◌};
ghost use Rattle.ti_jdwp.specs.Errors.{number_of};
