//! The events that a call makes.

use std::alloc::{AllocError, Global};
use ti_live::AgentCall;
use ti_types::{Call, EnvNo, Event, Limits, ThreadNo};

/// The same call at each of these threads.
fn asks(
    alloc: Global,
    env: EnvNo,
    threads: &[ThreadNo],
    call: Call,
) -> Result<Vec<Event>, AllocError>
    ensures { IfOk result (λ v. v.items ≡ map (λ t. Ask env t call) threads.now) }
{
    let mut events = Vec::with_capacity(alloc, threads.len())?;
    for thread in threads {
        events.push(Event::Ask(env, *thread, call))?;
    }
    Ok(events)
}

/// All threads, in the order of their numbers. The error is lack of memory.
#[tactic(auto, using(crate::proofs::EventLaws::threads_next))]
pub fn every_thread(alloc: Global, limits: Limits) -> Result<Vec<ThreadNo>, AllocError>
    ensures { IfOk result (λ v. v.items ≡ every_thread limits) }
{
    let mut threads = Vec::new(alloc);
    for n in 0..limits.threads {
        threads.push(ThreadNo(n))?;
    }
    Ok(threads)
}

/// Counts one more at a thread, if there is such a thread. No thread has more than `most` before.
fn count_one(counts: &mut Vec<usize>, thread: ThreadNo, most: usize)
    requires few { (k : ℕ) → slice_index counts.old.items k ≤ most }
    requires room { most + 1 < 2 ^ 64 }
    ensures length { length counts.new.items ≡ length counts.old.items }
    ensures counts { (t : ThreadNo) → t.0 < length counts.old.items → slice_index counts.new.items t.0 ≡ slice_index counts.old.items t.0 + (if thread.0 == t.0 then 1 else 0) }
    ensures few { (k : ℕ) → slice_index counts.new.items k ≤ most + 1 }
{
    let index = thread.0 as usize;
    if index < counts.len() {
        counts[index] += 1;
    }
}

/// How often each thread is in a list. The error is lack of memory.
#[tactic(auto, using(crate::proofs::EventLaws::times_take))]
pub fn counts(alloc: Global, limits: Limits, threads: &[ThreadNo]) -> Result<Vec<usize>, AllocError>
    ensures length { IfOk result (λ v. length v.items ≡ limits.threads) }
    ensures counts { IfOk result (λ v. (t : ThreadNo) → t.0 < limits.threads → slice_index v.items t.0 ≡ times t threads.now) }
{
    let mut counts = vec![in alloc; 0; limits.threads as usize]?;
    for i in 0..threads.len() {
        count_one(&mut counts, threads[i], i);
    }
    Ok(counts)
}

/// Adds a thread if its count is not 0.
fn push_counted(listed: &mut Vec<ThreadNo>, n: u32, count: usize) -> Result<(), AllocError>
    ensures { OnOk result (listed.new.items ≡ listed.old.items ++ (if nat_lt 0 count then record { 0 = n } ∷ [] else [])) }
{
    if count > 0 {
        listed.push(ThreadNo(n))?;
    }
    Ok(())
}

/// The threads whose counts are not 0, in the order of their numbers.
#[tactic(auto, using(crate::proofs::EventLaws::threads_next))]
fn counted(alloc: Global, limits: Limits, counts: &[usize]) -> Result<Vec<ThreadNo>, AllocError>
    requires { length counts.now ≡ limits.threads }
    ensures { IfOk result (λ v. v.items ≡ filter (λ t. nat_lt 0 (slice_index counts.now t.0)) (every_thread limits)) }
{
    let mut listed = Vec::new(alloc);
    for n in 0..limits.threads {
        push_counted(&mut listed, n, counts[n as usize])?;
    }
    Ok(listed)
}

/// The threads of a list, each once, in the order of their numbers.
#[tactic(auto, using(crate::proofs::EventLaws::once_is))]
fn once(alloc: Global, limits: Limits, threads: &[ThreadNo]) -> Result<Vec<ThreadNo>, AllocError>
    ensures { IfOk result (λ v. v.items ≡ once limits threads.now) }
{
    let counts = counts(alloc, limits, threads)?;
    let listed = counted(alloc, limits, &counts)?;
    Ok(listed)
}

/// Adds a stop of each of these threads.
fn push_stops(events: &mut Vec<Event>, env: EnvNo, threads: &[ThreadNo]) -> Result<(), AllocError>
    ensures { OnOk result (events.new.items ≡ events.old.items ++ map (λ t. Stop env t) threads.now) }
{
    for thread in threads {
        events.push(Event::Stop(env, *thread))?;
    }
    Ok(())
}

/// Adds a read of each of these threads.
fn push_reads(
    events: &mut Vec<Event>,
    env: EnvNo,
    threads: &[ThreadNo],
    max_count: &i32,
) -> Result<(), AllocError>
    ensures { OnOk result (events.new.items ≡ events.old.items ++ map (λ t. Read env t max_count.now) threads.now) }
{
    for thread in threads {
        events.push(Event::Read(env, *thread, *max_count))?;
    }
    Ok(())
}

/// Adds a go of each of these threads.
fn push_gos(events: &mut Vec<Event>, env: EnvNo, threads: &[ThreadNo]) -> Result<(), AllocError>
    ensures { OnOk result (events.new.items ≡ events.old.items ++ map (λ t. Go env t) threads.now) }
{
    for thread in threads {
        events.push(Event::Go(env, *thread))?;
    }
    Ok(())
}

/// The events of a trace: a stop of each thread, a read for each element of the list, and a go of each thread.
fn looks(
    alloc: Global,
    limits: Limits,
    env: EnvNo,
    threads: &[ThreadNo],
    max_count: i32,
) -> Result<Vec<Event>, AllocError>
    ensures { IfOk result (λ v. v.items ≡ looks limits env threads.now max_count) }
{
    let listed = once(alloc, limits, threads)?;
    let mut events = Vec::with_capacity(alloc, listed.len())?;
    push_stops(&mut events, env, &listed)?;
    push_reads(&mut events, env, threads, &max_count)?;
    push_gos(&mut events, env, &listed)?;
    Ok(events)
}

/// The events that a call makes, if it is not refused as a whole. The error is lack of memory.
pub fn events_of(
    alloc: Global,
    limits: Limits,
    env: EnvNo,
    call: &AgentCall,
) -> Result<Vec<Event>, AllocError>
    ensures { IfOk result (λ v. v.items ≡ events_of limits env call.now) }
{
    let event = match call {
        AgentCall::SuspendList(threads) => {
            return asks(alloc, env, threads.as_slice(), Call::Suspend);
        }
        AgentCall::ResumeList(threads) => {
            return asks(alloc, env, threads.as_slice(), Call::Resume);
        }
        AgentCall::AllStacks(max_count) => {
            let threads = every_thread(alloc, limits)?;
            return looks(alloc, limits, env, &threads, *max_count);
        }
        AgentCall::ListStacks(threads, max_count) => {
            return looks(alloc, limits, env, threads.as_slice(), *max_count);
        }
        AgentCall::Ask(thread, call) => Event::Ask(env, *thread, *call),
        AgentCall::AddCaps(caps) => Event::AddCaps(env, *caps),
        AgentCall::Relinquish(caps) => Event::Relinquish(env, *caps),
        AgentCall::GetCaps => Event::GetCaps(env),
        AgentCall::SetEnvWord(word) => Event::SetEnvWord(env, *word),
        AgentCall::GetEnvWord => Event::GetEnvWord(env),
    };
    let mut events = Vec::new(alloc);
    events.push(event)?;
    Ok(events)
}

ghost use Rattle.std.specs.Prelude.{◌≡◌, ◌++◌, ◌∷◌, [], OnOk, ◌<◌, ◌≤◌, ◌+◌, ◌^◌, ◌==◌, if◌then◌else◌, ℕ, map, length, nat_lt, IfOk, slice_index};
ghost use Rattle.std.specs.List.{filter};
ghost use Rattle.ti_types.specs.declared.numbers.ThreadNo.{ThreadNo};
ghost use Rattle.ti_types.specs.declared.event.Event.TheVariants.{Ask, Stop, Read, Go};
ghost use Rattle.ti_report.specs.Doings.{every_thread, times, once, looks, events_of};
