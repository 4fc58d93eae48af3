//! Two traces under one suspension.

use std::alloc::Global;
use std::sync::Wait;
use ti_service::Agent;
use ti_types::{ThreadNo, TiError, TraceBuf};

/// Suspends a thread, and takes two traces of its newest frames. They are equal, unless another environment resumes the
/// thread or pops a frame after the suspension.
///
/// It waits until the thread has polled. Its errors are those of `Agent::suspend_thread` and `Agent::get_stack_trace`. At the
/// first one nothing more is asked.
pub fn trace_twice<R: Wait>(
    rt: &R,
    alloc: Global,
    agent: &mut Agent,
    thread: ThreadNo,
    max_count: i32,
) -> Result<(TraceBuf, TraceBuf), TiError>
    ensures same { IfOk result (λ two. (p q : DeskState) → slice_get agent.old.env.desks (place_in agent.old.env.desks thread) ≡ Some p → slice_get agent.new.env.desks (place_in agent.new.env.desks thread) ≡ Some q → IsLeftAlone p q → two.0.frames ≡ two.1.frames) }
    ensures taken { IfOk result (λ two. TakesTwo agent.old.env agent.new.env thread max_count two.0.frames two.1.frames) }
    ensures refused { IfErr result (λ e. RefusesTwo agent.old.env agent.new.env thread max_count e) }
{
    agent.suspend_thread(rt, thread)?;
    let first = agent.get_stack_trace(rt, alloc, thread, 0, max_count)?;
    let second = agent.get_stack_trace(rt, alloc, thread, 0, max_count)?;
    Ok((first, second))
}

ghost use Rattle.std.specs.Prelude.{◌≡◌, Some, IfOk, IfErr, slice_get};
ghost use Rattle.ti_handshake.specs.Desk.{DeskState};
ghost use Rattle.ti_agent.specs.Env.{place_in};
ghost use Rattle.watch.specs.Traces.{IsLeftAlone, RefusesTwo, TakesTwo};
