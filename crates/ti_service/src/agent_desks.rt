//! Desks that wait, and those that an agent's environment has.

use crate::agent::Agent;
use ti_types::{ThreadNo, TiError};

/// Adds the desks that wait to the environment, the lowest number first.
pub(crate) fn add_waiting(agent: &mut Agent) -> Result<(), TiError>
    ensures adds { Adds (state_of agent.old) (state_of agent.new) }
    ensures done { OnOk result (agent.new.home.waiting.items ≡ []) }
    ensures refused { IfErr result (λ e. IsWhyNot (state_of agent.new) e) }
{
    while let Some(desk) = agent.home.waiting.pop() {
        match agent.add_desk(desk) {
            Ok(()) => (),
            Err((error, desk)) => {
                agent.home.waiting.push_reserved(desk);
                return Err(error);
            }
        }
    }
    Ok(())
}

/// The thread of the last desk. `None` if the environment has no desk.
pub(crate) fn last_thread(agent: &Agent) -> Option<ThreadNo>
    ensures there { IfSome result (λ t. place_in agent.now.env.desks t < length agent.now.env.desks) }
    ensures none { IfNone result (agent.now.env.desks ≡ []) }
{
    let count = agent.desk_count();
    if count == 0 {
        return None;
    }
    agent.thread_at(count - 1)
}

ghost use Rattle.std.specs.Prelude.{◌≡◌, ◌<◌, [], length, IfErr, IfSome, IfNone, OnOk};
ghost use Rattle.ti_agent.specs.Env.{place_in};
ghost use Rattle.ti_service.specs.Agent.{IsWhyNot};
ghost use Rattle.ti_service.specs.Meeting.{Adds};
ghost use Rattle.ti_service.specs.Memberships.{state_of};
