//! Calls of an environment at a thread.

use crate::codes::CQ_WAITING;
use crate::handle::CqEnv;
use crate::handle_lends::behind;
use crate::values::{CqAnswer, CqFrame, ticket_out};
use crate::writes::write_answer;
use std::alloc::Global;
use ti_slot::Asked;
use ti_types::{Call, ThreadNo};

/// Posts a call, and writes what is answered at once, or the ticket.
// It is compiled into each function for C, which knows the call. So is all that it calls, down to the slot, for a call that is
// answered at once.
#[inline(always)]
fn post(
    alloc: Global,
    env: &mut CqEnv,
    thread: u32,
    call: Call,
    answer: &mut CqAnswer,
    frames: &mut [CqFrame],
) -> u32
    ensures { Asks (thread_no thread) call env.old env.new result answer.old answer.new frames.old frames.new }
{
    behind!(agent in env.held_env());
    match agent.post_now(alloc, ThreadNo(thread), call) {
        Ok(Asked::Answered(told)) => write_answer(told, answer, frames),
        Ok(Asked::Waiting(ticket)) => {
            answer.ticket = ticket_out(ticket);
            CQ_WAITING
        }
        Err(error) => error.number(),
    }
}

/// GetThreadState (JVM TI 11).
#[unsafe(no_mangle)]
pub extern "C" fn cq_get_thread_state(
    alloc: Global,
    env: &mut CqEnv,
    thread: u32,
    answer: &mut CqAnswer,
) -> u32
    ensures { AsksPlain (thread_no thread) call.State env.old env.new result answer.old answer.new }
{
    post(alloc, env, thread, Call::State, answer, &mut [])
}

/// GetFrameCount (JVM TI 11).
#[unsafe(no_mangle)]
pub extern "C" fn cq_get_frame_count(
    alloc: Global,
    env: &mut CqEnv,
    thread: u32,
    answer: &mut CqAnswer,
) -> u32
    ensures { AsksPlain (thread_no thread) call.FrameCount env.old env.new result answer.old answer.new }
{
    post(alloc, env, thread, Call::FrameCount, answer, &mut [])
}

/// GetFrameLocation (JVM TI 11).
#[unsafe(no_mangle)]
pub extern "C" fn cq_get_frame_location(
    alloc: Global,
    env: &mut CqEnv,
    thread: u32,
    depth: i32,
    answer: &mut CqAnswer,
) -> u32
    ensures { AsksPlain (thread_no thread) (call.Location depth) env.old env.new result answer.old answer.new }
{
    post(
        alloc,
        env,
        thread,
        Call::Location { depth },
        answer,
        &mut [],
    )
}

/// GetStackTrace (JVM TI 11).
#[unsafe(no_mangle)]
pub extern "C" fn cq_get_stack_trace(
    alloc: Global,
    env: &mut CqEnv,
    thread: u32,
    start: i32,
    max_count: i32,
    answer: &mut CqAnswer,
    frames: &mut [CqFrame],
) -> u32
    ensures { Asks (thread_no thread) (call.Trace start max_count) env.old env.new result answer.old answer.new frames.old frames.new }
{
    post(
        alloc,
        env,
        thread,
        Call::Trace { start, max_count },
        answer,
        frames,
    )
}

/// SuspendThread (JVM TI 11).
#[unsafe(no_mangle)]
pub extern "C" fn cq_suspend_thread(
    alloc: Global,
    env: &mut CqEnv,
    thread: u32,
    answer: &mut CqAnswer,
) -> u32
    ensures { AsksPlain (thread_no thread) call.Suspend env.old env.new result answer.old answer.new }
{
    post(alloc, env, thread, Call::Suspend, answer, &mut [])
}

/// ResumeThread (JVM TI 11).
#[unsafe(no_mangle)]
pub extern "C" fn cq_resume_thread(
    alloc: Global,
    env: &mut CqEnv,
    thread: u32,
    answer: &mut CqAnswer,
) -> u32
    ensures { AsksPlain (thread_no thread) call.Resume env.old env.new result answer.old answer.new }
{
    post(alloc, env, thread, Call::Resume, answer, &mut [])
}

/// PopFrame (JVM TI 11).
#[unsafe(no_mangle)]
pub extern "C" fn cq_pop_frame(
    alloc: Global,
    env: &mut CqEnv,
    thread: u32,
    answer: &mut CqAnswer,
) -> u32
    ensures { AsksPlain (thread_no thread) call.Pop env.old env.new result answer.old answer.new }
{
    post(alloc, env, thread, Call::Pop, answer, &mut [])
}

/// GetThreadLocalStorage (JVM TI 11).
#[unsafe(no_mangle)]
pub extern "C" fn cq_get_thread_local_storage(
    alloc: Global,
    env: &mut CqEnv,
    thread: u32,
    answer: &mut CqAnswer,
) -> u32
    ensures { AsksPlain (thread_no thread) call.GetWord env.old env.new result answer.old answer.new }
{
    post(alloc, env, thread, Call::GetWord, answer, &mut [])
}

/// SetThreadLocalStorage (JVM TI 11).
#[unsafe(no_mangle)]
pub extern "C" fn cq_set_thread_local_storage(
    alloc: Global,
    env: &mut CqEnv,
    thread: u32,
    word: u64,
    answer: &mut CqAnswer,
) -> u32
    ensures { AsksPlain (thread_no thread) (call.SetWord word) env.old env.new result answer.old answer.new }
{
    post(alloc, env, thread, Call::SetWord(word), answer, &mut [])
}

ghost use Rattle.ti_types.specs.declared.call.Call.TheVariants as call;
ghost use Rattle.ti_capi.specs.Asking.{Asks, AsksPlain, thread_no};
