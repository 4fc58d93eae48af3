//! The codes that are no error of a thread's or of an environment's.

use ti_thread::TurnOutcome;
use ti_types::TiError;

/// All is done, or the answer is there.
pub const CQ_OK: u32 = 0;
/// The thread is held at its poll.
pub const CQ_HELD: u32 = 301;
/// The call waits for the thread.
pub const CQ_WAITING: u32 = 302;
/// There is no event, or no trace that was read.
pub const CQ_NONE: u32 = 303;
/// The handle is empty, of another kind, or full when an empty one is wanted. Or its environment makes a trace step by step.
pub const CQ_MISUSED: u32 = 304;
/// Frames of the thread were popped, and its runtime has not taken note of it.
pub const CQ_POPPED: u32 = 305;

/// The code of what a thread's own call comes to.
pub fn told_code(told: TurnOutcome) -> u32
    ensures { result ≡ code_told told }
{
    match told {
        TurnOutcome::Done => CQ_OK,
        TurnOutcome::Held => CQ_HELD,
        TurnOutcome::Refused(error) => error.number(),
        TurnOutcome::Popped => CQ_POPPED,
    }
}

/// The code of what is done or refused.
pub fn done_code(done: Result<(), TiError>) -> u32
    ensures { result ≡ code_done done }
{
    match done {
        Ok(()) => CQ_OK,
        Err(error) => error.number(),
    }
}

/// The code of a call: `CQ_OK`, after what it told was written, or that of its error.
macro_rules! code {
    ($call:expr) => {
        match $call {
            Ok(_) => crate::codes::CQ_OK,
            Err(error) => error.number(),
        }
    };
    ($call:expr, $told:pat => $write:expr) => {
        match $call {
            Ok($told) => {
                $write;
                crate::codes::CQ_OK
            }
            Err(error) => error.number(),
        }
    };
}

ghost use Rattle.std.specs.Prelude.{◌≡◌};
ghost use Rattle.ti_capi.specs.Codes.{code_told, code_done};

pub(crate) use code;
