//! Runs a live script under a gate.

use crate::fault::Fault;
use std::alloc::{AllocError, Global};
use std::sync::Wait;
use std::thread::Threads;
use ti_live::{AgentCall, Listed, LiveReport, Script};
use ti_runner::Gate;
use ti_script::Live;
use ti_types::{Event, ThreadNo};

/// A copy of a list of threads.
fn threads_again(alloc: Global, threads: &Listed<ThreadNo>) -> Result<Listed<ThreadNo>, AllocError>
    ensures { IfOk result (λ copy. copy ≡ threads.now) }
{
    let items = Vec::from_slice(alloc, threads.as_slice())?;
    Ok(Listed::from(items))
}

/// A copy of a call.
fn call_again(alloc: Global, call: &AgentCall) -> Result<AgentCall, AllocError>
    ensures { IfOk result (λ copy. copy ≡ call.now) }
{
    let copy = match call {
        AgentCall::Ask(thread, call) => AgentCall::Ask(*thread, *call),
        AgentCall::AddCaps(caps) => AgentCall::AddCaps(*caps),
        AgentCall::Relinquish(caps) => AgentCall::Relinquish(*caps),
        AgentCall::GetCaps => AgentCall::GetCaps,
        AgentCall::SetEnvWord(word) => AgentCall::SetEnvWord(*word),
        AgentCall::GetEnvWord => AgentCall::GetEnvWord,
        AgentCall::SuspendList(threads) => {
            AgentCall::SuspendList(threads_again(alloc, threads)?)
        }
        AgentCall::ResumeList(threads) => { AgentCall::ResumeList(threads_again(alloc, threads)?) }
        AgentCall::AllStacks(most) => AgentCall::AllStacks(*most),
        AgentCall::ListStacks(threads, most) => {
            AgentCall::ListStacks(threads_again(alloc, threads)?, *most)
        }
    };
    Ok(copy)
}

/// A copy of an agent's calls.
fn calls_again(alloc: Global, calls: &[AgentCall]) -> Result<Listed<AgentCall>, AllocError>
    ensures { IfOk result (λ copy. copy ≡ calls.now) }
{
    let mut copy = Listed::with_room(alloc, calls.len())?;
    for call in calls {
        let one = call_again(alloc, call)?;
        copy.push(one)?;
    }
    Ok(copy)
}

/// A copy of the calls of all agents.
fn all_calls_again(
    alloc: Global,
    calls: &[Listed<AgentCall>],
) -> Result<Listed<Listed<AgentCall>>, AllocError>
    ensures { IfOk result (λ copy. copy ≡ calls.now) }
{
    let mut copy = Listed::with_room(alloc, calls.len())?;
    for agent in calls {
        let one = calls_again(alloc, agent.as_slice())?;
        copy.push(one)?;
    }
    Ok(copy)
}

/// A copy of the operations of all threads.
fn walks_again(alloc: Global, walks: &[Listed<Event>]) -> Result<Listed<Listed<Event>>, AllocError>
    ensures { IfOk result (λ copy. copy ≡ walks.now) }
{
    let mut copy = Listed::with_room(alloc, walks.len())?;
    for walk in walks {
        let items = Vec::from_slice(alloc, walk.as_slice())?;
        copy.push(Listed::from(items))?;
    }
    Ok(copy)
}

/// What is run of a live script: a copy of everything but the names.
fn script_in(alloc: Global, live: &Live) -> Result<Script, AllocError>
    ensures { IfOk result (λ script. script ≡ script_of live.now) }
{
    let walks = walks_again(alloc, live.walks.as_slice())?;
    let calls = all_calls_again(alloc, live.calls.as_slice())?;
    Ok(Script {
        limits: live.limits,
        walks,
        calls,
    })
}

/// Runs a live script. Each thread and each agent of it has a thread of the operating system, and the gate is asked before
/// each operation and call. For every schedule, the report fits the script, and its histories are legal. Source: this
/// profile.
///
/// The faults:
///
/// - `Memory`: memory runs out, or a thread could not be started. The threads and agents that had started went through their
///   lists.
/// - `Cell`: a cell was in use at its end, or the report does not fit the script.
///
/// Nothing is promised about when a run ends, or that it ends: a gate may make a thread wait.
pub fn run_live<H: Threads + Wait + Sync + AllocGlobal, G: Gate>(
    rt: &H,
    live: &Live,
    gate: &G,
) -> Result<LiveReport, Fault>
    ensures fits { IfOk result (λ report. Fits (script_of live.now) report) }
    ensures fault { IfErr result (λ e. IsRunFault e) }
{
    let script = script_in(rt.alloc(), live)?;
    let report = ti_runner::run_live(rt, &script, gate)?;
    Ok(report)
}

ghost use Rattle.std.specs.Prelude.{◌≡◌, IfOk, IfErr};
ghost use Rattle.ti_report.specs.Fits.{Fits};
ghost use Rattle.ti_driver.specs.Reports.{IsRunFault, script_of};
