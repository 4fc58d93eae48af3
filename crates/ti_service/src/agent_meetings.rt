//! How an agent meets threads: its desks are taken and added. If there is no room for one, it lets go of threads that were given
//! back.

use crate::agent::Agent;
use crate::agent_calls::ServiceCalls;
use crate::agent_desks::add_waiting;
use crate::agent_tries::ServiceTries;
use std::alloc::Global;
use std::sync::Wait;
use ti_types::TiError;

/// A meeting begins: until it ends it has failed.
pub(crate) fn begin_meeting(agent: &mut Agent)
    ensures { state_of agent.new ≡ at_meeting (state_of agent.old) }
{
    agent.home.unmet = true;
}

/// A meeting ends. So many threads came in all.
pub(crate) fn end_meeting(agent: &mut Agent, next: u32)
    ensures { state_of agent.new ≡ after_meeting (state_of agent.old) next }
{
    agent.know_threads(u64::from(next));
    agent.home.unmet = false;
}

/// Lets go of all threads that were given back. Whether there was one.
fn make_room<R: Wait>(agent: &mut Agent, rt: &R) -> bool
    ensures steps { LetsGoBelow (length agent.old.env.desks) (state_of agent.old) (state_of agent.new) }
    ensures fewer { result ≡ nat_lt (length agent.new.env.desks) (length agent.old.env.desks) }
{
    let count = agent.desk_count();
    agent.let_go_of_all(rt);
    agent.desk_count() < count
}

/// The same, but 215 `Busy` if the roster is in use. Then some of them were let go of.
fn make_room_now(agent: &mut Agent) -> Result<bool, TiError>
    ensures steps { OnOk result (LetsGoBelow (length agent.old.env.desks) (state_of agent.old) (state_of agent.new)) }
    ensures fewer { IfOk result (λ one. one ≡ nat_lt (length agent.new.env.desks) (length agent.old.env.desks)) }
    ensures busy { IfErr result (λ e. (e ≡ Busy) × LetsGoOfSome (state_of agent.old) (state_of agent.new)) }
{
    let count = agent.desk_count();
    agent.let_go_of_all_now()?;
    Ok(agent.desk_count() < count)
}

/// Adds the desks that wait to the environment, the lowest number first. When there is no room for the next one, it lets go of all
/// threads that were given back, and goes on if there was one.
pub(crate) fn add_all<R: Wait>(agent: &mut Agent, rt: &R) -> Result<(), TiError>
    ensures added { OnOk result (AddsAll (state_of agent.old) (state_of agent.new)) }
    ensures refused { IfErr result (λ e. AddsNot (state_of agent.old) (state_of agent.new) e) }
{
    while let Err(error) = add_waiting(agent) {
        let TiError::Full = error else {
            return Err(error);
        };
        if !make_room(agent, rt) {
            return Err(TiError::Full);
        }
    }
    Ok(())
}

/// The same, but 215 `Busy` if the roster is in use while threads are let go of.
pub(crate) fn add_all_now(agent: &mut Agent) -> Result<(), TiError>
    ensures added { OnOk result (AddsAll (state_of agent.old) (state_of agent.new)) }
    ensures refused { IfErr result (λ e. AddsNot (state_of agent.old) (state_of agent.new) e ⊎ ((e ≡ Busy) × StopsAmid (state_of agent.old) (state_of agent.new))) }
{
    while let Err(error) = add_waiting(agent) {
        let TiError::Full = error else {
            return Err(error);
        };
        if !make_room_now(agent)? {
            return Err(TiError::Full);
        }
    }
    Ok(())
}

/// Takes the environment's desks at the threads that came since it last did, and are there. They wait. It returns how many threads
/// came in all.
pub(crate) fn take_desks<R: Wait>(agent: &mut Agent, rt: &R, alloc: Global) -> Result<u32, TiError>
    requires none { agent.old.home.waiting.items ≡ [] }
    ensures taken { IfOk result (λ next. Takes (state_of agent.old) (state_of agent.new) next) }
    ensures refused { IfErr result (λ e. TakesNone (state_of agent.old) (state_of agent.new) e) }
{
    let (desks, next) = agent.home.service.meet(rt, alloc)?;
    agent.home.waiting = desks;
    agent.home.waiting.reverse();
    Ok(next)
}

/// The same, but 215 `Busy` if the roster is in use. Then nothing has changed.
pub(crate) fn take_desks_now(agent: &mut Agent, alloc: Global) -> Result<u32, TiError>
    requires none { agent.old.home.waiting.items ≡ [] }
    ensures taken { IfOk result (λ next. Takes (state_of agent.old) (state_of agent.new) next) }
    ensures refused { IfErr result (λ e. TakesNone (state_of agent.old) (state_of agent.new) e ⊎ ((e ≡ Busy) × (agent.new ≡ agent.old))) }
{
    let (desks, next) = agent.home.service.meet_now(alloc)?;
    agent.home.waiting = desks;
    agent.home.waiting.reverse();
    Ok(next)
}

ghost use Rattle.std.specs.Prelude.{◌≡◌, ◌⊎◌, [], length, nat_lt, IfErr, IfOk, OnOk};
ghost use Rattle.ti_types.specs.declared.error.TiError.TheVariants.{Busy};
ghost use Rattle.ti_service.specs.LettingGo.{LetsGoBelow, LetsGoOfSome};
ghost use Rattle.ti_service.specs.Meeting.{AddsAll, AddsNot, StopsAmid, Takes, TakesNone, after_meeting, at_meeting};
ghost use Rattle.ti_service.specs.Memberships.{state_of};
