//! Which events an agent is told, each source of events by itself.

use crate::agent::Agent;
use crate::event::EventKind;
use ti_methods::ClassNo;
use ti_roster::{LifeKind, NextLife};
use ti_types::TiError;

/// Enables a kind of event that is disabled.
///
/// The error is 215 `Busy` if it is one of threads' lives, and the roster is in use. Then nothing changes.
pub(crate) fn enable_now(agent: &mut Agent, kind: EventKind) -> Result<(), TiError>
    ensures enables { OnOk result (Enables kind (state_of agent.old) (state_of agent.new)) }
    ensures busy { IfErr result (λ e. (e ≡ Busy) × IsLife kind × (agent.new ≡ agent.old)) }
{
    match kind.life() {
        Some(kind) => enable_life_now(agent, kind),
        None => {
            enable_classes(agent);
            Ok(())
        }
    }
}

/// Enables ClassPrepare, by one look at the classes.
fn enable_classes(agent: &mut Agent)
    ensures enables { EnablesClasses (state_of agent.old) (state_of agent.new) }
{
    let count = agent.home.service.classes().class_count();
    agent.home.events.class = Some(count);
}

/// Enables a kind of event of threads' lives, by one hold of the roster.
fn enable_life_now(agent: &mut Agent, kind: LifeKind) -> Result<(), TiError>
    ensures enables { OnOk result (EnablesLife kind (state_of agent.old) (state_of agent.new)) }
    ensures busy { IfErr result (λ e. (e ≡ Busy) × (agent.new ≡ agent.old)) }
{
    let count = agent.home.service.event_count_now()?;
    agent.home.events.life.set(kind, Some(count));
    Ok(())
}

/// The next event of a thread's life that the agent is told, by one hold of the roster, or by none if no such kind is enabled.
///
/// The error is 215 `Busy` if the roster is in use. Then nothing changes.
pub(crate) fn next_life_now(agent: &mut Agent) -> Result<Option<NextLife>, TiError>
    ensures tells { IfOk result (λ told. TellsLife (state_of agent.old) (state_of agent.new) told) }
    ensures busy { IfErr result (λ e. (e ≡ Busy) × IsLifeEnabled (state_of agent.old) × (agent.new ≡ agent.old)) }
{
    if agent.home.events.life.first().is_none() {
        return Ok(None);
    }
    let told = agent.home.service.tell_now(agent.home.events.life)?;
    agent.home.events.life.next = told.next;
    Ok(told.told)
}

/// The next class that the agent is told of.
pub(crate) fn next_class(agent: &mut Agent) -> Option<ClassNo>
    ensures tells { TellsClass (state_of agent.old) (state_of agent.new) result }
{
    let class = ClassNo(agent.home.events.class?);
    agent.home.service.classes().look_for(class).ok()?;
    agent.home.events.class = Some(class.0 + 1);
    Some(class)
}

ghost use Rattle.std.specs.Prelude.{◌≡◌, IfOk, IfErr, OnOk};
ghost use Rattle.ti_types.specs.declared.error.TiError.TheVariants.{Busy};
ghost use Rattle.ti_service.specs.Memberships.{state_of};
ghost use Rattle.ti_service.specs.Telling.{Enables, EnablesClasses, EnablesLife, IsLife, IsLifeEnabled, TellsClass, TellsLife};
