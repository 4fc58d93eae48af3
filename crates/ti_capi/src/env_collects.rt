//! Answers that an environment collects, and calls that it cancels.

use crate::codes::{CQ_NONE, CQ_OK, CQ_WAITING, code};
use crate::handle::CqEnv;
use crate::handle_lends::behind;
use crate::values::{CqAnswer, CqFrame, CqTicket, ticket_in, ticket_out};
use crate::writes::write_answer;
use std::alloc::Global;
use ti_types::ThreadNo;

/// The answer to a call that waited, if it is there.
#[unsafe(no_mangle)]
pub extern "C" fn cq_collect(
    env: &mut CqEnv,
    ticket: &CqTicket,
    answer: &mut CqAnswer,
    frames: &mut [CqFrame],
) -> u32
    ensures { Collects (ticket_read ticket.now) env.old env.new result answer.old answer.new frames.old frames.new }
{
    behind!(agent in env.held_env());
    match agent.collect_now(ticket_in(*ticket)) {
        Ok(Some(told)) => write_answer(told, answer, frames),
        Ok(None) => CQ_WAITING,
        Err(error) => error.number(),
    }
}

/// Cancels a call.
#[unsafe(no_mangle)]
pub extern "C" fn cq_cancel(alloc: Global, env: &mut CqEnv, ticket: &CqTicket) -> u32
    ensures { Calls (CancelsBy (ticket_read ticket.now)) ⊤ env.old env.new result }
{
    behind!(agent in env.held_env());
    code!(agent.cancel_now(alloc, ticket_in(*ticket)))
}

/// Discards the answer to the call that was cancelled first at a thread.
#[unsafe(no_mangle)]
pub extern "C" fn cq_discard(env: &mut CqEnv, thread: u32, discarded: &mut bool) -> u32
    ensures { Calls (DiscardsBy (thread_no thread) discarded.old discarded.new) (discarded.new ≡ discarded.old) env.old env.new result }
{
    behind!(agent in env.held_env());
    code!(agent.discard_now(ThreadNo(thread)), told => *discarded = told.is_some())
}

/// The answer to the call that was cancelled first at a thread, and which call it was.
#[unsafe(no_mangle)]
pub extern "C" fn cq_collect_cancelled(
    env: &mut CqEnv,
    thread: u32,
    answer: &mut CqAnswer,
    frames: &mut [CqFrame],
) -> u32
    ensures { CollectsCancelled (thread_no thread) env.old env.new result answer.old answer.new frames.old frames.new }
{
    behind!(agent in env.held_env());
    match agent.discard_now(ThreadNo(thread)) {
        Ok(Some(discarded)) => {
            answer.ticket = ticket_out(discarded.ticket);
            write_answer(discarded.answer, answer, frames)
        }
        Ok(None) if agent.has_cancelled_at(ThreadNo(thread)) => CQ_WAITING,
        Ok(None) => CQ_NONE,
        Err(error) => error.number(),
    }
}

/// How many calls of the environment are out at a thread.
#[unsafe(no_mangle)]
pub extern "C" fn cq_out_at(env: &mut CqEnv, thread: u32, count: &mut u32) -> u32
    ensures { Calls (λ s n code. (n ≡ s) × (code ≡ 0) × (count.new ≡ outstanding s.env (thread_no thread))) (count.new ≡ count.old) env.old env.new result }
{
    behind!(agent in env.held_env());
    *count = agent.out_at(ThreadNo(thread));
    CQ_OK
}

/// Which environment's stop is in force at a thread.
#[unsafe(no_mangle)]
pub extern "C" fn cq_stopper(env: &mut CqEnv, thread: u32, number: &mut u32) -> u32
    ensures { Calls (TellsStopperBy (thread_no thread) number.old number.new) (number.new ≡ number.old) env.old env.new result }
{
    behind!(agent in env.held_env());
    match agent.stopper_now(ThreadNo(thread)) {
        Ok(Some(stopper)) => {
            *number = stopper.0;
            CQ_OK
        }
        Ok(None) => CQ_NONE,
        Err(error) => error.number(),
    }
}

ghost use Rattle.std.specs.Prelude.{◌≡◌, ⊤};
ghost use Rattle.ti_agent.specs.Env.{outstanding};
ghost use Rattle.ti_capi.specs.Asking.{Collects, CollectsCancelled, thread_no};
ghost use Rattle.ti_capi.specs.Calls.{Calls, CancelsBy, DiscardsBy, TellsStopperBy};
ghost use Rattle.ti_capi.specs.Values.{ticket_read};
