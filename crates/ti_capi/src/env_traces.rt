//! Traces of several threads, which an environment makes step by step. While it does, it makes no other call.

use crate::codes::{CQ_MISUSED, CQ_NONE, CQ_OK};
use crate::handle::CqEnv;
use crate::held::HeldEnv;
use crate::held_trace::HeldTrace;
use crate::values::{CqFrame, CqStackInfo};
use crate::writes::write_stack;
use std::alloc::Global;
use ti_service::{Agent, Gathering};
use ti_types::{ThreadNo, TiError};

/// Puts what became of a trace into a box: the trace, or the environment as it was. If it has begun, what the last one told is
/// discarded.
fn put_begun(held: &mut HeldEnv, begun: Result<Gathering, (TiError, Agent)>) -> u32
    ensures { IsBegun begun held.old held.new result }
{
    match begun {
        Ok(first) => {
            held.trace = Some(HeldTrace::of(first));
            held.stacks = None;
            CQ_OK
        }
        Err((error, same)) => {
            held.agent = Some(same);
            error.number()
        }
    }
}

/// Begins a trace of all threads by the environment of a box. It is as it was if the trace does not begin.
fn gather_all(alloc: Global, held: &mut HeldEnv, max_count: i32) -> u32
    ensures { BeginsIn (BeginsAll max_count) (RefusesAll max_count) held.old held.new result }
{
    let Some(agent) = held.agent.take() else {
        return CQ_MISUSED;
    };
    put_begun(held, agent.gather_all_stack_traces(alloc, max_count))
}

/// Begins GetAllStackTraces (JVM TI 11). What the last trace told is discarded then.
#[unsafe(no_mangle)]
pub extern "C" fn cq_gather_all_stack_traces(alloc: Global, env: &mut CqEnv, max_count: i32) -> u32
    ensures { Works (BeginsIn (BeginsAll max_count) (RefusesAll max_count)) ⊤ env.old env.new result }
{
    match env.held_env() {
        Some(held) => gather_all(alloc, held, max_count),
        None => CQ_MISUSED,
    }
}

/// The threads of these numbers.
fn thread_numbers(alloc: Global, numbers: &[u32]) -> Result<Vec<ThreadNo>, TiError>
    ensures all { IfOk result (λ l. l.items ≡ numbered numbers.now) }
    ensures memory { IfErr result (λ e. e ≡ OutOfMemory) }
{
    let mut threads = Vec::with_capacity(alloc, numbers.len())?;
    for i in 0..numbers.len() {
        threads.push_reserved(ThreadNo(numbers[i]));
    }
    Ok(threads)
}

/// Begins a trace of the threads of these numbers. The agent comes back as it was if the trace does not begin.
fn begin_list(
    alloc: Global,
    agent: Agent,
    numbers: &[u32],
    max_count: i32,
) -> Result<Gathering, (TiError, Agent)>
    ensures begins { IfOk result (λ t. BeginsList (numbered numbers.now) max_count agent t) }
    ensures home { IfOk result (λ t. t.home ≡ agent.home) }
    ensures refused { IfErr result (λ r. RefusesThreads (numbered numbers.now) max_count agent r.0) }
    ensures back { IfErr result (λ r. r.1 ≡ agent) }
{
    match thread_numbers(alloc, numbers) {
        Ok(threads) => agent.gather_thread_list_stack_traces(alloc, &threads, max_count),
        Err(error) => Err((error, agent)),
    }
}

/// Begins a trace of the threads of these numbers by the environment of a box. It is as it was if the trace does not begin.
fn gather_list(alloc: Global, held: &mut HeldEnv, numbers: &[u32], max_count: i32) -> u32
    ensures { BeginsIn (BeginsList (numbered numbers.now) max_count) (RefusesThreads (numbered numbers.now) max_count) held.old held.new result }
{
    let Some(agent) = held.agent.take() else {
        return CQ_MISUSED;
    };
    put_begun(held, begin_list(alloc, agent, numbers, max_count))
}

/// Begins GetThreadListStackTraces (JVM TI 11). What the last trace told is discarded then.
#[unsafe(no_mangle)]
pub extern "C" fn cq_gather_thread_list_stack_traces(
    alloc: Global,
    env: &mut CqEnv,
    threads: &[u32],
    max_count: i32,
) -> u32
    ensures { Works (BeginsIn (BeginsList (numbered threads.now) max_count) (RefusesThreads (numbered threads.now) max_count)) ⊤ env.old env.new result }
{
    match env.held_env() {
        Some(held) => gather_list(alloc, held, threads, max_count),
        None => CQ_MISUSED,
    }
}

/// Puts a trace back into a box. If it has come to its end, the environment is put there in its place, with what was read.
///
/// Returns whether it has come to its end.
fn put_back(held: &mut HeldEnv, trace: Gathering) -> bool
    ensures { PutsBack trace held.old held.new result }
{
    match trace.finish() {
        Ok((agent, told)) => {
            held.agent = Some(agent);
            held.stacks = told;
            true
        }
        Err(rest) => {
            held.trace = Some(HeldTrace::of(rest));
            false
        }
    }
}

/// One step of the trace of a box.
fn step(held: &mut HeldEnv, over: &mut bool) -> u32
    ensures { StepsIn over.old over.new held.old held.new result }
{
    let Some(kept) = held.trace.take() else {
        return CQ_MISUSED;
    };
    let mut trace = kept.into_trace();
    match trace.step() {
        Ok(_) => {
            *over = put_back(held, trace);
            CQ_OK
        }
        Err(error) => {
            held.trace = Some(HeldTrace::of(trace));
            error.number()
        }
    }
}

/// One step of the trace that was begun.
#[unsafe(no_mangle)]
pub extern "C" fn cq_gather_step(env: &mut CqEnv, over: &mut bool) -> u32
    ensures { Works (StepsIn over.old over.new) (over.new ≡ over.old) env.old env.new result }
{
    match env.held_env() {
        Some(held) => step(held, over),
        None => CQ_MISUSED,
    }
}

/// Gives the trace up that was begun, if not all of its threads were seen standing. Its steps go on to its end.
#[unsafe(no_mangle)]
pub extern "C" fn cq_gather_give_up(env: &mut CqEnv) -> u32
    ensures { Works GivesUpIn ⊤ env.old env.new result }
{
    let Some(held) = env.held_env() else {
        return CQ_MISUSED;
    };
    let Some(kept) = held.trace.take() else {
        return CQ_MISUSED;
    };
    let mut trace = kept.into_trace();
    let _ = trace.give_up();
    held.trace = Some(HeldTrace::of(trace));
    CQ_OK
}

/// Binds what the last trace of an environment tells. While it makes another trace, or has no last one, the function for C that asks
/// ends with the code that says so.
macro_rules! gathered {
    ($stacks:ident in $held:expr) => {
        let Some(held) = $held else {
            return CQ_MISUSED;
        };
        let Some(_) = &mut held.agent else {
            return CQ_MISUSED;
        };
        let Some($stacks) = &held.stacks else {
            return CQ_NONE;
        };
    };
}

/// How many threads the last trace tells of.
#[unsafe(no_mangle)]
pub extern "C" fn cq_gathered(env: &mut CqEnv, count: &mut u64) -> u32
    ensures { Tells (Counts count.new) (count.new ≡ count.old) env.old env.new result }
{
    gathered!(stacks in env.held_env());
    *count = stacks.len() as u64;
    CQ_OK
}

/// What the last trace tells of one thread: its state, and its frames as far as there is room.
#[unsafe(no_mangle)]
pub extern "C" fn cq_gathered_stack(
    env: &mut CqEnv,
    index: u64,
    info: &mut CqStackInfo,
    frames: &mut [CqFrame],
) -> u32
    ensures { Tells (TellsStack index info.old info.new frames.old frames.new) ((info.new ≡ info.old) × (frames.new ≡ frames.old)) env.old env.new result }
{
    gathered!(stacks in env.held_env());
    match stacks.get(index as usize) {
        Some(stack) => {
            write_stack(stack, info, frames);
            CQ_OK
        }
        None => TiError::IllegalArgument.number(),
    }
}

ghost use Rattle.std.specs.Prelude.{◌≡◌, ⊤, IfErr, IfOk};
ghost use Rattle.ti_types.specs.declared.error.TiError.TheVariants.{OutOfMemory};
ghost use Rattle.ti_capi.specs.Gathers.{BeginsAll, BeginsIn, BeginsList, Counts, GivesUpIn, IsBegun, PutsBack, RefusesAll, RefusesThreads, StepsIn, Tells, TellsStack, Works, numbered};
