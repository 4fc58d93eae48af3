//! Events that an environment is told, and its end.

use crate::codes::{CQ_MISUSED, CQ_NONE, CQ_OK, done_code};
use crate::handle::CqEnv;
use crate::handle_lends::behind;
use crate::held::HeldEnv;
use crate::values::{CqEvent, event_kind_in, event_out};
use std::alloc::Global;
use ti_service::ServiceTries;
use ti_types::TiError;

/// SetEventNotificationMode (JVM TI 11), of one kind of event.
#[unsafe(no_mangle)]
pub extern "C" fn cq_set_event_notification_mode(env: &mut CqEnv, enabled: bool, kind: u32) -> u32
    ensures { Calls (SetsModeBy enabled (event_kind_read kind)) ⊤ env.old env.new result }
{
    behind!(agent in env.held_env());
    let Some(kind) = event_kind_in(kind) else {
        return TiError::IllegalArgument.number();
    };
    done_code(agent.set_event_notification_mode_now(kind, enabled))
}

/// The next event.
#[unsafe(no_mangle)]
pub extern "C" fn cq_next_event(env: &mut CqEnv, event: &mut CqEvent) -> u32
    ensures { Calls (TellsEventBy event.old event.new) (event.new ≡ event.old) env.old env.new result }
{
    behind!(agent in env.held_env());
    match agent.next_event_now() {
        Ok(Some(next)) => {
            *event = event_out(next);
            CQ_OK
        }
        Ok(None) => CQ_NONE,
        Err(error) => error.number(),
    }
}

/// DisposeEnvironment (JVM TI 11).
#[unsafe(no_mangle)]
pub extern "C" fn cq_dispose_environment(alloc: Global, env: &mut CqEnv) -> u32
    ensures { DisposesBy (agent_in env.old) env.old env.new result }
{
    let Some(held) = env.held_env() else {
        return CQ_MISUSED;
    };
    let code = dispose(alloc, held);
    if code == CQ_OK {
        env.clear(alloc);
    }
    code
}

/// Disposes of the environment in a box. It stays there if it is not disposed of.
fn dispose(alloc: Global, held: &mut HeldEnv) -> u32
    ensures { DisposesIn held.old held.new result }
{
    let Some(agent) = held.agent.take() else {
        return CQ_MISUSED;
    };
    match agent.dispose_now(alloc) {
        Ok(_service) => CQ_OK,
        Err((error, agent)) => {
            held.agent = Some(agent);
            error.number()
        }
    }
}

ghost use Rattle.std.specs.Prelude.{◌≡◌, ⊤};
ghost use Rattle.ti_capi.specs.Calls.{Calls, SetsModeBy, TellsEventBy};
ghost use Rattle.ti_capi.specs.Values.{event_kind_read};
ghost use Rattle.ti_capi.specs.Disposing.{DisposesBy, DisposesIn};
ghost use Rattle.ti_capi.specs.Handles.{agent_in};
