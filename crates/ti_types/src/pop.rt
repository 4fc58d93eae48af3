//! When a frame may not be popped.

use crate::error::TiError;
use crate::place::{Frame, Place};

/// Why the newest frame of a thread that is alive may not be popped. `None` if it may. The first of these that fits (JVM TI
/// 11, PopFrame):
///
/// - 13 THREAD_NOT_SUSPENDED: the thread is not suspended.
/// - 31 NO_MORE_FRAMES: the newest frame or its caller is not there.
/// - 32 OPAQUE_FRAME: one of the two is native.
pub fn popping_refusal(
    suspended: bool,
    newest: Option<Frame>,
    caller: Option<Frame>,
) -> Option<TiError>
    ensures { result ≡ popping_refusal_of suspended newest caller }
{
    if !suspended {
        return Some(TiError::ThreadNotSuspended);
    }
    match (newest, caller) {
        (Some(newest), Some(caller)) => match (newest.place, caller.place) {
            (Place::Java(_), Place::Java(_)) => None,
            _ => Some(TiError::OpaqueFrame),
        },
        _ => Some(TiError::NoMoreFrames),
    }
}

ghost use Rattle.std.specs.Prelude.{◌≡◌};
ghost use Rattle.ti_types.specs.Pops.{popping_refusal as popping_refusal_of};
