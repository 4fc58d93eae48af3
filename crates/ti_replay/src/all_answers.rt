//! Entries one after another, with the answers to all calls.

use crate::answers::answer_entry;
use crate::view::take_entry;
use std::alloc::{AllocError, Global};
use std::mem;
use ti_types::{Answer, Entry, ThreadView};

/// Writes an answer at a place of the list, unless there is one already.
#[tactic(auto, using(crate::proofs::TellingLaws::told_put))]
#[inline(always)]
fn put(told: &mut [Option<Answer>], at: usize, answer: Option<Answer>)
    requires there { at < length told.old }
    ensures length { length told.new ≡ length told.old }
    ensures told { (place : ℕ) → told_at told.new place ≡ option_or (told_at told.old place) (if at == place then option_map said answer else None) }
{
    if told[at].is_none() {
        let _none = mem::replace(&mut told[at], answer);
    }
}

/// Lets an entry take place, and writes the answer to it at its place, unless there is one already. The error is lack of
/// memory.
#[inline(always)]
fn tell_entry(
    alloc: Global,
    view: &mut ThreadView,
    told: &mut [Option<Answer>],
    at: usize,
    entry: Entry,
) -> Result<(), AllocError>
    requires few { length view.old.frames < 2 ^ 32 }
    requires there { at < length told.old }
    ensures view { OnOk result (view.new ≡ after view.old entry) }
    ensures length { length told.new ≡ length told.old }
    ensures told { OnOk result ((place : ℕ) → told_at told.new place ≡ option_or (told_at told.old place) (if at == place then answer_to view.old entry else None)) }
{
    let answer = answer_entry(alloc, view, entry)?;
    put(told, at, answer);
    take_entry(view, entry)?;
    Ok(())
}

/// Lets the next entry take place, and adds the answer to it at the end. The error is lack of memory.
#[inline(always)]
#[tactic(auto, using(crate::proofs::TellingLaws::told_push))]
pub fn tell_next(
    alloc: Global,
    view: &mut ThreadView,
    told: &mut Vec<Option<Answer>>,
    entry: Entry,
) -> Result<(), AllocError>
    requires few { length view.old.frames < 2 ^ 32 }
    ensures view { OnOk result (view.new ≡ after view.old entry) }
    ensures length { OnOk result (length told.new.items ≡ length told.old.items + 1) }
    ensures told { OnOk result ((place : ℕ) → told_at told.new.items place ≡ option_or (told_at told.old.items place) (if length told.old.items == place then answer_to view.old entry else None)) }
{
    let answer = answer_entry(alloc, view, entry)?;
    told.push(answer)?;
    take_entry(view, entry)?;
    Ok(())
}

#[tactic(auto, using(crate::proofs::AskingLaws::wait_frames))]
/// Lets these waiting calls take place, one after another, and writes the answer to each at its place. The error is lack of
/// memory.
pub fn tell_entries(
    alloc: Global,
    view: &mut ThreadView,
    told: &mut [Option<Answer>],
    entries: &[(usize, Entry)],
) -> Result<(), AllocError>
    requires few { length view.old.frames < 2 ^ 32 }
    requires calls { all_calls entries.now ≡ true }
    requires below { are_below (length told.old) entries.now ≡ true }
    ensures view { OnOk result (view.new ≡ after_all view.old entries.now) }
    ensures length { length told.new ≡ length told.old }
    ensures told { OnOk result ((place : ℕ) → told_at told.new place ≡ option_or (told_at told.old place) (reply_from view.old entries.now place)) }
{
    for (at, entry) in entries {
        tell_entry(alloc, view, told, *at, *entry)?;
    }
    Ok(())
}

ghost use Rattle.std.specs.Prelude.{◌≡◌, ◌<◌, ◌+◌, ◌^◌, ℕ, true, length, OnOk, ◌==◌, if◌then◌else◌, None};
ghost use Rattle.std.specs.Option.{option_map, option_or};
ghost use Rattle.ti_types.specs.Answer.{said};
ghost use Rattle.ti_replay.specs.View.{after, after_all};
ghost use Rattle.ti_replay.specs.Replies.{answer_to, reply_from, told_at};
ghost use Rattle.ti_replay.specs.PlacedState.{all_calls, are_below};
