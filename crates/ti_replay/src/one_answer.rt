//! Entries one after another, with the answer to one of the calls.

use crate::answers::answer_entry;
use crate::view::take_entry;
use std::alloc::{AllocError, Global};
use ti_types::{Answer, Entry, ThreadView};

/// Lets an entry take place, and gives the answer to the entry at `place`. That is `given` if there is one. Otherwise it is
/// the answer to this entry, if it is the one at that place. The error is lack of memory.
pub fn take_entry_asking(
    alloc: Global,
    view: &mut ThreadView,
    at: usize,
    entry: Entry,
    place: usize,
    given: Option<Answer>,
) -> Result<Option<Answer>, AllocError>
    requires { length view.old.frames < 2 ^ 32 }
    ensures view { OnOk result (view.new ≡ after view.old entry) }
    ensures reply { IfOk result (λ a. option_map said a ≡ option_or (option_map said given) (if at == place then answer_to view.old entry else None)) }
{
    let given = match given {
        Some(answer) => Some(answer),
        None => {
            if at == place {
                answer_entry(alloc, view, entry)?
            } else {
                None
            }
        }
    };
    take_entry(view, entry)?;
    Ok(given)
}

#[tactic(auto, using(crate::proofs::AskingLaws::wait_few))]
/// Lets these waiting calls take place, one after another, and gives the answer to the one at `place`. That is `given` if
/// there is one. The error is lack of memory.
pub fn take_entries_asking(
    alloc: Global,
    view: &mut ThreadView,
    entries: &[(usize, Entry)],
    place: usize,
    given: Option<Answer>,
) -> Result<Option<Answer>, AllocError>
    requires few { length view.old.frames < 2 ^ 32 }
    requires calls { all_calls entries.now ≡ true }
    ensures view { OnOk result (view.new ≡ after_all view.old entries.now) }
    ensures reply { IfOk result (λ a. option_map said a ≡ option_or (option_map said given) (reply_from view.old entries.now place)) }
{
    let mut told = given;
    for (at, entry) in entries {
        told = take_entry_asking(alloc, view, *at, *entry, place, told)?;
    }
    Ok(told)
}

ghost use Rattle.std.specs.Prelude.{◌≡◌, ◌<◌, ◌^◌, true, length, IfOk, OnOk, ◌==◌, if◌then◌else◌};
ghost use Rattle.std.specs.Option.{option_map, option_or};
ghost use Rattle.ti_types.specs.Answer.{said};
ghost use Rattle.ti_replay.specs.View.{after, after_all};
ghost use Rattle.ti_replay.specs.Replies.{answer_to, reply_from};
ghost use Rattle.ti_replay.specs.PlacedState.{all_calls};
