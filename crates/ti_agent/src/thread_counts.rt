//! Counts how often each thread is in a list. Under one stop, a thread is read that many times. Threads are named by their
//! places here. Counting costs the length of the list, however many threads the environment has met.

use indexmap::IndexMap;
use std::alloc::Global;
use ti_env::EnvState;
use ti_types::{ThreadNo, TiError};

/// The first `count` threads, in the order of their places. 110 OUT_OF_MEMORY if there is no memory for the list.
pub(crate) fn all_threads(alloc: Global, count: u32) -> Result<Vec<ThreadNo>, TiError>
    ensures all { IfOk result (λ v. v.items ≡ each_thread count) }
    ensures memory { IfErr result (λ e. e ≡ OutOfMemory) }
{
    let mut threads = Vec::with_capacity(alloc, count as usize)?;
    for i in 0..count {
        threads.push_reserved(ThreadNo(i));
    }
    Ok(threads)
}

/// The first `count` threads, each with one read to come. 110 OUT_OF_MEMORY if there is no memory for the list.
pub(crate) fn all_with_one_read(alloc: Global, count: u32) -> Result<Vec<(ThreadNo, u64)>, TiError>
    ensures all { IfOk result (λ v. v.items ≡ all_once count) }
    ensures memory { IfErr result (λ e. e ≡ OutOfMemory) }
{
    let mut list = Vec::with_capacity(alloc, count as usize)?;
    for i in 0..count {
        list.push_reserved((ThreadNo(i), 1));
    }
    Ok(list)
}

/// Whether each of the first `count` threads has a call left for its stop and one for its read.
pub(crate) fn are_all_paid(state: &EnvState, count: u32) -> bool
    ensures { result ≡ are_paid state.now (all_once count) }
{
    for i in 0..count {
        if state.left(ThreadNo(i)) < 2 {
            return false;
        }
    }
    true
}

/// How often each thread of a list is in it, by its place. 110 OUT_OF_MEMORY if there is no memory for the counts. 209
/// CALLS_SPENT if a thread has too few calls left for its stop and all of its reads.
pub(crate) fn count_each(
    alloc: Global,
    state: &EnvState,
    threads: &[ThreadNo],
) -> Result<IndexMap<u32, u64>, TiError>
    requires there { are_there (length state.now.spent) threads.now ≡ true }
    ensures counts { IfOk result (λ m. AreCounts threads.now m.entries) }
    ensures paid { MatchResult result (λ _. are_paid state.now (each_once (length state.now.spent) threads.now) ≡ true) (λ e. IsNotCounted state.now threads.now e) }
{
    let mut counts = IndexMap::with_capacity(alloc, threads.len())?;
    for i in 0..threads.len() {
        let thread = threads[i];
        let reads = state.left(thread).saturating_sub(1);
        let count = counts.get(&thread.0).copied().unwrap_or(0);
        if count >= reads {
            return Err(TiError::CallsSpent);
        }
        match counts.insert(thread.0, count + 1) {
            Ok(_before) => (),
            Err(_refused) => return Err(TiError::OutOfMemory),
        }
    }
    Ok(counts)
}

/// The threads that were counted, in the order of the counts. 110 OUT_OF_MEMORY if there is no memory for the list.
fn listed(alloc: Global, counts: &IndexMap<u32, u64>) -> Result<Vec<(ThreadNo, u64)>, TiError>
    ensures listed { IfOk result (λ v. v.items ≡ listed_of counts.now.entries) }
    ensures memory { IfErr result (λ e. e ≡ OutOfMemory) }
{
    let mut list = Vec::with_capacity(alloc, counts.len())?;
    for i in 0..counts.len() {
        let Some((place, reads)) = counts.get_index(i) else {
            unreachable!()
        };
        list.push_reserved((ThreadNo(*place), *reads));
    }
    Ok(list)
}

/// The threads that were counted, each once, in the order of their places. Each has as many reads to come as were counted.
/// 110 OUT_OF_MEMORY if there is no memory for the list.
pub(crate) fn counted_threads(
    alloc: Global,
    counts: IndexMap<u32, u64>,
) -> Result<Vec<(ThreadNo, u64)>, TiError>
    ensures listed { IfOk result (λ v. (n : ℕ) (threads : List Thread) → are_there n threads ≡ true → AreCounts threads counts.entries → v.items ≡ each_once n threads) }
    ensures memory { IfErr result (λ e. e ≡ OutOfMemory) }
{
    let mut counts = counts;
    counts.sort_keys()?;
    listed(alloc, &counts)
}

ghost use Rattle.std.specs.Prelude.{ℕ, List, ◌≡◌, ◌<◌, true, length, IfOk, IfErr, OnOk, MatchResult};
ghost use Rattle.ti_types.specs.declared.error.TiError.TheVariants.{CallsSpent, OutOfMemory};
ghost use Rattle.ti_types.specs.declared.numbers.ThreadNo.{ThreadNo as Thread};
ghost use Rattle.ti_vmop.specs.Turns.{are_paid};
ghost use Rattle.ti_agent.specs.Traces.{all_once, each_once, each_thread, listed_of, are_there, AreCounts, IsNotCounted};
