//! Replays: whether a history is legal, what it leaves of a thread, and what it replies to its calls.

use crate::fault::ReplayFault;
use crate::progress::Progress;
use std::alloc::Global;
use ti_types::{Answer, Entry, Limits, ThreadView};

/// What a history leaves of a thread (this profile, `specs/View` and `specs/Legal`). That is its mode, its frames, whether
/// it is suspended, whose stop is in force, and one word for each environment.
///
/// The error is `Illegal` if the history is not legal, with the place of the first entry that may not come there. It is
/// `Memory` if there is no memory for the view.
pub fn replay(alloc: Global, limits: Limits, entries: &[Entry]) -> Result<ThreadView, ReplayFault>
    ensures legal { IfOk result (λ v. is_legal limits entries.now ≡ true) }
    ensures view { IfOk result (λ v. v ≡ view limits entries.now) }
    ensures fault { IfErr result (IsFaultOf limits entries.now) }
{
    let mut progress = Progress::new(alloc, &limits)?;
    for (at, entry) in entries.iter().enumerate() {
        let legal = progress.advance(&limits, *entry)?;
        if !legal {
            return Err(ReplayFault::Illegal { at });
        }
    }
    Ok(progress.into_view())
}

/// What a history replies to the entry at a place, counted from 0 (this profile, `specs/Replies`). `None` if there is no
/// such entry, if it is no call or read, or if it is a call that still waits. The errors are those of `replay`.
pub fn reply_at(
    alloc: Global,
    limits: Limits,
    entries: &[Entry],
    place: usize,
) -> Result<Option<Answer>, ReplayFault>
    ensures legal { OnOk result (is_legal limits entries.now ≡ true) }
    ensures reply { IfOk result (λ a. option_map said a ≡ reply limits entries.now place) }
    ensures fault { IfErr result (IsFaultOf limits entries.now) }
{
    let mut progress = Progress::new(alloc, &limits)?;
    let mut given = None;
    for (at, entry) in entries.iter().enumerate() {
        if !progress.may_enter(&limits, *entry) {
            return Err(ReplayFault::Illegal { at });
        }
        given = progress.enter_asking(alloc, &limits, *entry, place, given)?;
    }
    Ok(given)
}

/// What a history replies to the entry at each place: `reply_at` of every place, in one pass over the history (this profile,
/// `specs/Replies`). An entry that is no call or read has `None`, and so has a call that still waits. The errors are those
/// of `replay`.
pub fn replies(
    alloc: Global,
    limits: Limits,
    entries: &[Entry],
) -> Result<Vec<Option<Answer>>, ReplayFault>
    ensures legal { OnOk result (is_legal limits entries.now ≡ true) }
    ensures places { IfOk result (λ told. length told.items ≡ length entries.now) }
    ensures replies { IfOk result (λ told. (place : ℕ) → told_at told.items place ≡ reply limits entries.now place) }
    ensures fault { IfErr result (IsFaultOf limits entries.now) }
{
    let mut progress = Progress::new(alloc, &limits)?;
    let mut told = Vec::with_capacity(alloc, entries.len())?;
    for (at, entry) in entries.iter().enumerate() {
        if !progress.may_enter(&limits, *entry) {
            return Err(ReplayFault::Illegal { at });
        }
        progress.enter_telling(alloc, &limits, *entry, &mut told)?;
    }
    Ok(told)
}

ghost use Rattle.std.specs.Prelude.{◌≡◌, ℕ, true, IfOk, IfErr, OnOk, length};
ghost use Rattle.ti_replay.specs.View.{view};
ghost use Rattle.ti_replay.specs.Legal.{is_legal};
ghost use Rattle.std.specs.Option.{option_map};
ghost use Rattle.ti_types.specs.Answer.{said};
ghost use Rattle.ti_replay.specs.Replies.{reply, told_at};
ghost use Rattle.ti_replay.specs.Fault.{IsFaultOf};
