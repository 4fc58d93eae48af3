//! When a thread may not hand over.

use ti_frames::Frames;
use ti_types::{Limits, Place, Safe, TiError};

/// Why a thread that runs with these frames, and has spent `own`, may not hand over. `None` if it may.
///
/// - `NoNativeFrame` (207): to native, and its newest frame is not native, or there is none.
/// - `OwnSpent` (208): to native or blocked, and less than 2 is left.
#[inline(always)]
pub fn refusal_of_hand(limits: &Limits, frames: &Frames, own: u64, safe: Safe) -> Option<TiError>
    requires { own ≤ limits.now.own }
    ensures { (v : ThreadView) → runs_is v.mode ≡ true → v.frames ≡ frames.now.frames → result ≡ own_refusal limits.now v own (entry.Hand safe) }
{
    let native = match frames.top(0) {
        Some(frame) => matches!(frame.place, Place::Native),
        None => false,
    };
    match safe {
        Safe::AtPoll => None,
        Safe::Native if !native => Some(TiError::NoNativeFrame),
        Safe::Native | Safe::Blocked(_) => {
            if limits.own - own < 2 {
                Some(TiError::OwnSpent)
            } else {
                None
            }
        }
    }
}

ghost use Rattle.std.specs.Prelude.{◌≡◌, ◌≤◌, true};
ghost use Rattle.ti_types.specs.declared.entry.Entry.TheVariants as entry;
ghost use Rattle.ti_types.specs.declared.view.ThreadView.{ThreadView};
ghost use Rattle.ti_replay.specs.Answers.{is_running as runs_is};
ghost use Rattle.ti_replay.specs.Refusals.{own_refusal};
