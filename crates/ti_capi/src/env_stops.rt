//! Breakpoints, steps and pops of frames, and the stops that an environment is told of.

use crate::codes::{CQ_MISUSED, CQ_NONE, CQ_OK, code};
use crate::handle::CqEnv;
use crate::handle_lends::behind;
use crate::values::{CqStop, stop_kind_in, stop_out, stop_thread_in};
use std::alloc::Global;
use ti_service::{StopCall, StopCalls, StopError, StopKind, StopReply};
use ti_types::{MethodNo, ThreadNo, TiError};

/// The code of what is done or refused.
fn code_of(done: Result<(), StopError>) -> u32
    ensures { result ≡ code_of done }
{
    match done {
        Ok(()) => CQ_OK,
        Err(error) => error.number(),
    }
}

/// SetBreakpoint (JVM TI 11).
#[unsafe(no_mangle)]
pub extern "C" fn cq_set_breakpoint(
    alloc: Global,
    env: &mut CqEnv,
    method: u32,
    location: u32,
) -> u32
    ensures { Calls (BreaksBy (method_no method) location (call.SetBreakpoint (place_of (method_no method) location))) ⊤ env.old env.new result }
{
    behind!(agent in env.held_env());
    code_of(agent.set_breakpoint_now(alloc, MethodNo(method), location))
}

/// ClearBreakpoint (JVM TI 11).
#[unsafe(no_mangle)]
pub extern "C" fn cq_clear_breakpoint(
    alloc: Global,
    env: &mut CqEnv,
    method: u32,
    location: u32,
) -> u32
    ensures { Calls (BreaksBy (method_no method) location (call.ClearBreakpoint (place_of (method_no method) location))) ⊤ env.old env.new result }
{
    behind!(agent in env.held_env());
    code_of(agent.clear_breakpoint_now(alloc, MethodNo(method), location))
}

/// Makes a call about stops.
fn ask(env: &mut CqEnv, call: StopCall) -> u32
    ensures { Calls (StopsBy call) ⊤ env.old env.new result }
{
    behind!(agent in env.held_env());
    code!(agent.stop_now(call))
}

/// The call that enables or disables a kind of stop.
fn mode_call(enabled: bool, kind: StopKind, thread: Option<ThreadNo>) -> StopCall
    ensures { result ≡ mode_call enabled kind thread }
{
    if enabled {
        StopCall::Enable(kind, thread)
    } else {
        StopCall::Disable(kind, thread)
    }
}

/// SetEventNotificationMode (JVM TI 11), of Breakpoint, SingleStep and FramePop, at one thread or at all.
#[unsafe(no_mangle)]
pub extern "C" fn cq_set_stop_notification_mode(
    env: &mut CqEnv,
    enabled: bool,
    kind: u32,
    thread: u32,
) -> u32
    ensures { Calls (ModesFor enabled (kind_read kind) (thread_read thread)) ⊤ env.old env.new result }
{
    match stop_kind_in(kind) {
        Some(kind) => ask(env, mode_call(enabled, kind, stop_thread_in(thread))),
        None => no_kind(env),
    }
}

/// The code of a call with a number that is no kind's.
fn no_kind(env: &mut CqEnv) -> u32
    ensures { Calls (λ s n code. (n ≡ s) × (code ≡ number_of IllegalArgument)) ⊤ env.old env.new result }
{
    let Some(held) = env.held_env() else {
        return CQ_MISUSED;
    };
    if held.agent.is_none() {
        return CQ_MISUSED;
    }
    TiError::IllegalArgument.number()
}

/// NotifyFramePop (JVM TI 11).
#[unsafe(no_mangle)]
pub extern "C" fn cq_notify_frame_pop(env: &mut CqEnv, thread: u32, frames: u32) -> u32
    ensures { Calls (StopsBy (call.NotifyFramePop (thread_no thread) frames)) ⊤ env.old env.new result }
{
    ask(env, StopCall::NotifyFramePop(ThreadNo(thread), frames))
}

/// Lets a thread go on that stopped for the environment.
#[unsafe(no_mangle)]
pub extern "C" fn cq_end_stop(env: &mut CqEnv, thread: u32) -> u32
    ensures { Calls (StopsBy (call.LetGo (thread_no thread))) ⊤ env.old env.new result }
{
    ask(env, StopCall::LetGo(ThreadNo(thread)))
}

/// The next stop of a thread for the environment.
#[unsafe(no_mangle)]
pub extern "C" fn cq_next_stop(env: &mut CqEnv, stop: &mut CqStop) -> u32
    ensures { Calls (NextStopBy stop.old stop.new) (stop.new ≡ stop.old) env.old env.new result }
{
    behind!(agent in env.held_env());
    match agent.stop_now(StopCall::Next) {
        Ok(StopReply::Told(Some(told))) => {
            *stop = stop_out(told);
            CQ_OK
        }
        Ok(StopReply::Told(None)) => CQ_NONE,
        Ok(_) => unreachable!(),
        Err(error) => error.number(),
    }
}

ghost use Rattle.std.specs.Prelude.{◌≡◌, ⊤};
ghost use Rattle.ti_types.specs.TiError.{number_of};
ghost use Rattle.ti_types.specs.declared.error.TiError.TheVariants.{IllegalArgument};
ghost use Rattle.ti_stops.specs.declared.call.StopCall.TheVariants as call;
ghost use Rattle.ti_service.specs.Stops.{place_of};
ghost use Rattle.ti_capi.specs.Calls.{Calls};
ghost use Rattle.ti_capi.specs.Stops.{BreaksBy, ModesFor, NextStopBy, StopsBy, code_of, kind_read, mode_call, thread_no, thread_read};
ghost use Rattle.ti_capi.specs.Threads.{method_no};
