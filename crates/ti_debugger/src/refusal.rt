//! Why a request has no reply yet, or has an error.

use std::alloc::AllocError;
use ti_jdwp::JdwpError;
use ti_service::ClassError;
use ti_types::TiError;

/// Why there is no body for the reply to a request.
#[derive(Clone, Copy)]
pub(crate) enum Refusal {
    /// The reply is this error.
    Error(JdwpError),
    /// 215 `Busy`: what the answer needs was in use. The request waits, and is tried again soon.
    Later,
}

impl From<JdwpError> for Refusal {
    fn from(error: JdwpError) -> Self {
        Refusal::Error(error)
    }
}

impl From<AllocError> for Refusal {
    ghost use Rattle.std.specs.Prelude.{◌≡◌};
    ghost use Rattle.ti_jdwp.specs.declared.error.JdwpError.TheVariants.{OutOfMemory};
    ghost use Rattle.ti_debugger.specs.declared.refusal.Refusal.TheVariants.{Error};

    ghost from_gives = { λ _ r. r ≡ Error OutOfMemory };

    fn from(_: AllocError) -> Self {
        Refusal::Error(JdwpError::OutOfMemory)
    }
}

impl From<ClassError> for Refusal {
    /// The errors of classes and methods are the protocol's, by other numbers.
    fn from(error: ClassError) -> Self {
        refusal_of_class(error)
    }
}

/// What a reply says where a class or a method is refused: 21, 23, 101, 511 or 110, or nothing yet.
pub(crate) fn refusal_of_class(error: ClassError) -> Refusal
    ensures { result ≡ class_refusal error }
{
    match error {
        ClassError::InvalidClass => Refusal::Error(JdwpError::InvalidClass),
        ClassError::InvalidMethod => Refusal::Error(JdwpError::InvalidMethodId),
        ClassError::AbsentInformation => Refusal::Error(JdwpError::AbsentInformation),
        ClassError::NativeMethod => Refusal::Error(JdwpError::NativeMethod),
        ClassError::OutOfMemory | ClassError::Full => Refusal::Error(JdwpError::OutOfMemory),
        ClassError::Busy => Refusal::Later,
    }
}

/// What a reply says where a call at a thread is refused. A thread that is not there has no stack to read: 13.
pub(crate) fn refusal_of_call(error: TiError) -> Refusal
    ensures { result ≡ call_refusal error }
{
    match error {
        TiError::Busy => Refusal::Later,
        TiError::InvalidThread => Refusal::Error(JdwpError::InvalidThread),
        TiError::ThreadNotAlive => Refusal::Error(JdwpError::ThreadNotSuspended),
        _ => Refusal::Error(JdwpError::OutOfMemory),
    }
}

ghost use Rattle.std.specs.Prelude.{◌≡◌};
ghost use Rattle.ti_debugger.specs.Refusals.{class_refusal, call_refusal};
