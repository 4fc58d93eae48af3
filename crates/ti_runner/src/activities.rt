//! Gives each list of a script to a thread of the operating system, and joins them.

use crate::agent_calls::{Called, call_all};
use crate::fault::RunFault;
use crate::gate::Gate;
use crate::thread_walk::{Walked, walk};
use std::alloc::{AllocError, Global};
use std::sync::{Mutex, Wait};
use std::thread;
use std::thread::{Promise, PromisedHandle, Scope, Threads, join_promised};
use ti_agent::Env;
use ti_handshake::{Fresh, SharedCell};
use ti_live::{AgentCall, Listed, Script};
use ti_types::{EnvNo, Event, ThreadNo};
use ti_vmop::VmTurn;

/// The promise that a walk gives back the owner's seat of this cell.
#[derive(Clone, Copy)]
pub(crate) struct SeatOf<'a>(&'a SharedCell);

impl<'a> Promise<Walked> for SeatOf<'a> {
    ghost use Rattle.ti_runner.specs.Cells.{IsBack};

    ghost kept_by = { λ p w. IsBack p.0.now w.seat };
}

/// The promise that an agent gives back a seat at each of these cells.
#[derive(Clone, Copy)]
pub(crate) struct SeatsAt<'a>(&'a [SharedCell]);

impl<'a> Promise<Called> for SeatsAt<'a> {
    ghost use Rattle.std.specs.Prelude.{◌≡◌};
    ghost use Rattle.ti_runner.specs.Cells.{seats_at};

    ghost kept_by = { λ p c. seats_at c.seats.items ≡ p.0.now };
}

/// What the walks and the agents give back.
type Left = (Vec<Walked>, Vec<Called>);

/// Starts the thread of one walk. It takes memory for as many refused operations as the walk has operations.
fn start_walk<'s, E, R: Wait + Sync, G: Gate>(
    scope: &Scope<'s, E>,
    rt: &'s R,
    alloc: Global,
    gate: &'s G,
    cell: &'s SharedCell,
    fresh: Fresh,
    thread: ThreadNo,
    operations: &'s [Event],
) -> Result<PromisedHandle<Walked, SeatOf<'s>>, RunFault>
    requires cell { fresh.cell ≡ cell.now }
    ensures { IfOk result (λ h. h.promise.0.now ≡ cell.now) }
{
    let refused = Vec::with_capacity(alloc, operations.len())?;
    let started = scope.spawn_with(
        SeatOf(cell),
        move || -> Walked
            ensures { IsBack fresh.cell result.seat }
        { walk(rt, gate, fresh, thread, operations, refused) },
    );
    match started {
        Ok(handle) => Ok(handle),
        Err(refused) => Err(AllocError::from(refused).into()),
    }
}

/// Starts the thread of one agent.
fn start_agent<'s, E, R: Wait + Sync, G: Gate>(
    scope: &Scope<'s, E>,
    rt: &'s R,
    alloc: Global,
    gate: &'s G,
    cells: &'s [SharedCell],
    turn: &'s Mutex<VmTurn>,
    number: EnvNo,
    env: Env,
    calls: &'s [AgentCall],
) -> Result<PromisedHandle<Called, SeatsAt<'s>>, RunFault>
    requires { cells_at env.env.desks ≡ cells.now }
    ensures { IfOk result (λ h. h.promise.0.now ≡ cells.now) }
{
    let replies = Vec::with_capacity(alloc, calls.len())?;
    let seats = Vec::with_capacity(alloc, cells.len())?;
    let started = scope.spawn_with(
        SeatsAt(cells),
        move || -> Called
            requires empty { seats.items ≡ [] }
            requires room { length env.env.desks ≤ vec_capacity seats }
            ensures { seats_at result.seats.items ≡ cells_at env.env.desks }
        { call_all(rt, alloc, gate, turn, number, env, calls, replies, seats) },
    );
    match started {
        Ok(handle) => Ok(handle),
        Err(refused) => Err(AllocError::from(refused).into()),
    }
}

/// Starts the threads of all walks, in their order.
fn start_walks<'s, E, R: Wait + Sync, G: Gate>(
    scope: &Scope<'s, E>,
    rt: &'s R,
    alloc: Global,
    gate: &'s G,
    cells: &'s [SharedCell],
    threads: Vec<Fresh>,
    walks: &'s [Listed<Event>],
) -> Result<Vec<PromisedHandle<Walked, SeatOf<'s>>>, RunFault>
    requires threads { seats_at threads.items ≡ cells.now }
    requires count { length cells.now ≡ length walks.now }
    ensures { IfOk result (λ hs. map (λ h. h.promise.0.now) hs.items ≡ cells.now) }
{
    let mut walkers = Vec::with_capacity(alloc, cells.len())?;
    let mut number: u32 = 0;
    for fresh in threads {
        let k = walkers.len();
        walkers.push_reserved(start_walk(
            scope,
            rt,
            alloc,
            gate,
            &cells[k],
            fresh,
            ThreadNo(number),
            walks[k].as_slice(),
        )?);
        number = number.wrapping_add(1);
    }
    Ok(walkers)
}

/// Starts the threads of all agents, in their order.
fn start_agents<'s, E, R: Wait + Sync, G: Gate>(
    scope: &Scope<'s, E>,
    rt: &'s R,
    alloc: Global,
    gate: &'s G,
    cells: &'s [SharedCell],
    turn: &'s Mutex<VmTurn>,
    envs: Vec<Env>,
    calls: &'s [Listed<AgentCall>],
) -> Result<Vec<PromisedHandle<Called, SeatsAt<'s>>>, RunFault>
    requires desks { All (λ e. cells_at e.env.desks ≡ cells.now) envs.items }
    requires count { length envs.items ≡ length calls.now }
    ensures { IfOk result (λ hs. All (λ h. h.promise.0.now ≡ cells.now) hs.items) }
{
    let mut agents = Vec::with_capacity(alloc, calls.len())?;
    let mut number: u32 = 0;
    for env in envs {
        let k = agents.len();
        agents.push_reserved(start_agent(
            scope,
            rt,
            alloc,
            gate,
            cells,
            turn,
            EnvNo(number),
            env,
            calls[k].as_slice(),
        )?);
        number = number.wrapping_add(1);
    }
    Ok(agents)
}

/// Starts all threads, and joins them.
fn in_scope<'s, E, R: Threads + Wait + Sync, G: Gate>(
    scope: &Scope<'s, E>,
    rt: &'s R,
    alloc: Global,
    gate: &'s G,
    script: &'s Script,
    cells: &'s [SharedCell],
    threads: Vec<Fresh>,
    envs: Vec<Env>,
    turn: &'s Mutex<VmTurn>,
) -> Result<Left, RunFault>
    requires threads { seats_at threads.items ≡ cells.now }
    requires desks { All (λ e. cells_at e.env.desks ≡ cells.now) envs.items }
    requires walks { length cells.now ≡ length script.now.walks }
    requires calls { length envs.items ≡ length script.now.calls }
    ensures walked { IfOk result (λ left. AreBack cells.now left.0.items) }
    ensures called { IfOk result (λ left. All (λ c. seats_at c.seats.items ≡ cells.now) left.1.items) }
{
    let walkers = start_walks(
        scope,
        rt,
        alloc,
        gate,
        cells,
        threads,
        script.walks.as_slice(),
    )?;
    let agents = start_agents(
        scope,
        rt,
        alloc,
        gate,
        cells,
        turn,
        envs,
        script.calls.as_slice(),
    )?;
    Ok((join_promised(rt, walkers)?, join_promised(rt, agents)?))
}

/// Goes through all lists, each in a thread of its own. If a thread cannot be started, those that were started still go
/// through their lists, since the scope waits for them.
pub(crate) fn activities<R: Threads + Wait + Sync, G: Gate>(
    rt: &R,
    alloc: Global,
    gate: &G,
    script: &Script,
    cells: &[SharedCell],
    threads: Vec<Fresh>,
    envs: Vec<Env>,
    turn: &Mutex<VmTurn>,
) -> Result<Left, RunFault>
    requires threads { seats_at threads.items ≡ cells.now }
    requires desks { All (λ e. cells_at e.env.desks ≡ cells.now) envs.items }
    requires walks { length cells.now ≡ length script.now.walks }
    requires calls { length envs.items ≡ length script.now.calls }
    ensures walked { IfOk result (λ left. AreBack cells.now left.0.items) }
    ensures called { IfOk result (λ left. All (λ c. seats_at c.seats.items ≡ cells.now) left.1.items) }
{
    thread::scope(
        thread::scope_env(),
        rt,
        move |scope| -> Result<Left, RunFault>
            requires threads { seats_at threads.items ≡ cells.now }
            requires desks { All (λ e. cells_at e.env.desks ≡ cells.now) envs.items }
            requires walks { length cells.now ≡ length script.now.walks }
            requires calls { length envs.items ≡ length script.now.calls }
            ensures walked { IfOk result (λ left. AreBack cells.entry.now left.0.items) }
            ensures called { IfOk result (λ left. All (λ c. seats_at c.seats.items ≡ cells.entry.now) left.1.items) }
        { in_scope(scope, rt, alloc, gate, script, cells, threads, envs, turn) },
    )
}

ghost use Rattle.std.specs.Prelude.{◌≡◌, ◌≤◌, IfOk, [], length, map, vec_capacity};
ghost use Rattle.std.specs.List.{All};
ghost use Rattle.ti_agent.specs.Env.{cells_at};
ghost use Rattle.ti_runner.specs.Cells.{IsBack, AreBack, seats_at};
