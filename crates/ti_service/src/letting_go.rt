//! How an agent lets go of a thread whose desk was found.

use crate::agent::Agent;
use std::sync::Wait;
use ti_types::{ThreadNo, TiError};

/// Lets go of a thread, whose desk has this index, as `ServiceCalls::let_go` does.
pub(crate) fn let_go_at<R: Wait>(agent: &mut Agent, rt: &R, thread: ThreadNo, index: u32) -> bool
    requires place { index ≡ place_in agent.old.env.desks thread }
    ensures steps { LetsGo (state_of agent.old) (state_of agent.new) thread result }
{
    if agent.out_by_index(index) > 0 || agent.home.service.is_live(rt, thread) {
        return false;
    }
    agent.take_by_index(index).is_some()
}

/// The same as `let_go_at`, but it never waits. The error is 215 `Busy`, as of `ServiceTries::let_go_now`.
pub(crate) fn let_go_at_now(
    agent: &mut Agent,
    thread: ThreadNo,
    index: u32,
) -> Result<bool, TiError>
    requires place { index ≡ place_in agent.old.env.desks thread }
    ensures steps { IfOk result (λ gone. LetsGo (state_of agent.old) (state_of agent.new) thread gone) }
    ensures busy { IfErr result (λ e. (e ≡ Busy) × (agent.new ≡ agent.old)) }
{
    if agent.out_by_index(index) > 0 {
        return Ok(false);
    }
    let there = agent.home.service.is_live_now(thread)?;
    if there {
        return Ok(false);
    }
    Ok(agent.take_by_index(index).is_some())
}

ghost use Rattle.std.specs.Prelude.{◌≡◌, IfOk, IfErr};
ghost use Rattle.ti_types.specs.declared.error.TiError.TheVariants.{Busy};
ghost use Rattle.ti_agent.specs.Env.{place_in};
ghost use Rattle.ti_service.specs.LettingGo.{LetsGo};
ghost use Rattle.ti_service.specs.Memberships.{state_of};
