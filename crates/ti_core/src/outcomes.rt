//! A whole list of events, with an outcome for each.

use crate::engine::Core;
use std::alloc::Global;
use ti_types::{Event, Limits, Outcome, TiError, Ticket};

/// The answer to a posted call, if it is there.
fn answered(core: &mut Core, ticket: Ticket) -> Option<Outcome>
    ensures limits { core.new.limits ≡ core.old.limits }
    ensures refines { (events : List Happening) → Refines events core.old → Refines events core.new }
    ensures settled { is_final result ≡ true }
    ensures finished { (events : List Happening) → Refines events core.old → IsFinished events core.old (Some (Outcome.Posted ticket)) result }
    ensures kept { (k : Ticket) → is_uncollected core.old k ≡ true → is_posted (Some (Outcome.Posted ticket)) k ≡ false → is_uncollected core.new k ≡ true }
{
    match core.take(ticket) {
        Some(answer) => Some(Outcome::Gave(answer)),
        None => None,
    }
}

/// Makes of an outcome what it is at the end of a run: the outcome of a posted call is its answer.
fn finish(core: &mut Core, outcome: &mut Option<Outcome>)
    ensures limits { core.new.limits ≡ core.old.limits }
    ensures refines { (events : List Happening) → Refines events core.old → Refines events core.new }
    ensures settled { is_final outcome.new ≡ true }
    ensures finished { (events : List Happening) → Refines events core.old → IsFinished events core.old outcome.old outcome.new }
    ensures kept { (k : Ticket) → is_uncollected core.old k ≡ true → is_posted outcome.old k ≡ false → is_uncollected core.new k ≡ true }
{
    let ticket = match outcome {
        Some(Outcome::Posted(ticket)) => *ticket,
        _ => return,
    };
    *outcome = answered(core, ticket);
}

/// Puts the answers of posted calls in the places of their tickets. A call that was left unanswered gets `None`.
pub fn answer_all(core: &mut Core, outcomes: &mut [Option<Outcome>])
    ensures settled { list_all is_final outcomes.new ≡ true }
    ensures told { (hs : List Happening) → HasSeen hs outcomes.old core.old → map told_later outcomes.new ≡ outs core.old.limits hs }
    ensures marks { (hs : List Happening) → HasSeen hs outcomes.old core.old → map was_for_memory outcomes.new ≡ map was_for_memory outcomes.old }
{
    for place in 0..outcomes.len() {
        finish(core, &mut outcomes[place]);
    }
}

impl Core {
    /// Lets a whole list of events happen in a new core. There is one outcome for each event: what the definitions say of it
    /// among all of them. So a posted call has its answer, or `None` if it was left unanswered.
    ///
    /// The error is 216 (this profile: `Full`) for limits that `Core::new` refuses with it. It is 110 if there is no memory
    /// for the core or for the list of outcomes. Then nothing is given.
    pub fn run(
        alloc: Global,
        limits: Limits,
        events: &[Event],
    ) -> Result<Vec<Option<Outcome>>, TiError>
        ensures outcomes { IfOk result (λ os. map told_later os.items ≡ outs limits (happenings events.now os.items)) }
        ensures settled { IfOk result (λ os. list_all is_final os.items ≡ true) }
        ensures count { IfOk result (λ os. length os.items ≡ length events.now) }
        ensures wide { OnOk result (limits.calls ≤ limits.window) }
        ensures refused { IfErr result (λ e. (e ≡ TiError.OutOfMemory) ⊎ ((e ≡ TiError.Full) × (limits.window < limits.calls))) }
    {
        // Before the core: so large a block finds room in the memory of the document's tree, if that was freed.
        let Ok(mut outcomes) = Vec::with_capacity(alloc, events.len()) else {
            return Err(TiError::OutOfMemory);
        };
        let mut core = Core::new(alloc, limits)?;
        for event in events {
            let outcome = core.step(alloc, *event);
            let Ok(()) = outcomes.push(Some(outcome)) else {
                return Err(TiError::OutOfMemory);
            };
        }
        answer_all(&mut core, &mut outcomes);
        Ok(outcomes)
    }
}

ghost use Rattle.std.specs.Prelude.{◌≡◌, ◌<◌, ◌≤◌, ◌⊎◌, length, map, List, true, false, Some, None, IfOk, IfErr, OnOk};
ghost use Rattle.ti_replay.specs.Admission.{Happening};
ghost use Rattle.ti_replay.specs.Outcomes.{told_later, was_for_memory, outs, happenings};
ghost use Rattle.ti_core.specs.Core.{is_uncollected};
ghost use Rattle.ti_core.specs.Refines.{Refines};
ghost use Rattle.std.specs.List.{list_all};
ghost use Rattle.ti_core.specs.Runs.{HasSeen, IsFinished, is_posted, is_final};
