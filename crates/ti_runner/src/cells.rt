//! Makes the cells of a run, the threads at them, and the environments.

use std::alloc::Global;
use ti_agent::{Env, FreeDesk};
use ti_handshake::{Desk, Fresh, SharedCell};
use ti_types::{EnvNo, Limits, ThreadNo, TiError};

/// The cells of a run, in the order of the threads' numbers, with the threads and the desks at them.
#[derive(Drop)]
pub(crate) struct Cells {
    /// One for each thread.
    pub cells: Vec<SharedCell>,
    /// The threads, none of which has started.
    pub threads: Vec<Fresh>,
    /// For each thread the desks of the environments, in the order of their numbers.
    pub desks: Vec<Vec<Desk>>,
}

/// Makes a cell for each thread. The only error is lack of memory.
pub(crate) fn make_cells(alloc: Global, limits: Limits) -> Result<Cells, TiError>
    ensures count { IfOk result (λ m. length m.cells.items ≡ limits.threads) }
    ensures threads { IfOk result (λ m. seats_at m.threads.items ≡ m.cells.items) }
    ensures desks { IfOk result (λ m. AreDesks limits limits.envs m.cells.items (map (λ l. l.items) m.desks.items)) }
{
    let count = limits.threads as usize;
    let mut cells = Vec::with_capacity(alloc, count)?;
    let mut threads = Vec::with_capacity(alloc, count)?;
    let mut desks = Vec::with_capacity(alloc, count)?;
    for number in 0..limits.threads {
        let (cell, fresh, others) = SharedCell::make(alloc, limits, ThreadNo(number))?;
        cells.push_reserved(cell);
        threads.push_reserved(fresh);
        desks.push_reserved(others);
    }
    Ok(Cells {
        cells,
        threads,
        desks,
    })
}

/// Takes the desk of the last of these environments.
fn take_desk(
    cell: &SharedCell,
    limits: Limits,
    thread: ThreadNo,
    env: EnvNo,
    desks: &mut Vec<Desk>,
) -> Desk
    requires desks { desks.old.items ≡ new_desks cell.now (subject_of limits thread) (env.0 + 1) }
    ensures desk { result ≡ new_desk cell.now (subject_of limits thread) env }
    ensures rest { desks.new.items ≡ new_desks cell.now (subject_of limits thread) env.0 }
{
    let _cell = cell;
    let _limits = limits;
    let _thread = thread;
    let _env = env;
    match desks.pop() {
        Some(desk) => desk,
        None => unreachable!(),
    }
}

/// Adds an unused desk to an environment. The errors are those of `FreeDesk::new` and `Env::add_desk`.
fn add_desk(environment: &mut Env, desk: Desk) -> Result<(), TiError>
    ensures added { OnOk result (cells_at environment.new.env.desks ≡ cells_at environment.old.env.desks ++ desk.cell ∷ []) }
    ensures limits { OnOk result (environment.new.env.state.limits ≡ environment.old.env.state.limits) }
{
    let free = match FreeDesk::new(desk) {
        Ok(free) => free,
        Err((error, _desk)) => return Err(error),
    };
    match environment.add_desk(free) {
        Ok(()) => Ok(()),
        Err((error, _free)) => Err(error),
    }
}

/// Makes the last of these environments, with a desk at each cell.
fn environment(
    alloc: Global,
    limits: Limits,
    cells: &[SharedCell],
    desks: &mut [Vec<Desk>],
    env: EnvNo,
) -> Result<Env, TiError>
    requires count { length cells.now ≡ limits.threads }
    requires desks { AreDesks limits (env.0 + 1) cells.now (map (λ l. l.items) desks.old) }
    ensures here { IfOk result (λ e. cells_at e.env.desks ≡ cells.now) }
    ensures rest { IfOk result (λ e. AreDesks limits env.0 cells.now (map (λ l. l.items) desks.new)) }
{
    let mut environment = Env::with_no_desks(alloc, env, limits);
    for thread in 0..limits.threads {
        let k = thread as usize;
        let desk = take_desk(&cells[k], limits, ThreadNo(thread), env, &mut desks[k]);
        add_desk(&mut environment, desk)?;
    }
    Ok(environment)
}

/// Makes all environments, in the order of their numbers.
pub(crate) fn environments(
    alloc: Global,
    limits: Limits,
    cells: &[SharedCell],
    desks: Vec<Vec<Desk>>,
) -> Result<Vec<Env>, TiError>
    requires count { length cells.now ≡ limits.threads }
    requires desks { AreDesks limits limits.envs cells.now (map (λ l. l.items) desks.items) }
    ensures count { IfOk result (λ envs. length envs.items ≡ limits.envs) }
    ensures here { IfOk result (λ envs. All (λ e. cells_at e.env.desks ≡ cells.now) envs.items) }
{
    let mut desks = desks;
    let mut envs = Vec::with_capacity(alloc, limits.envs as usize)?;
    for i in 0..limits.envs {
        let env = EnvNo(limits.envs - 1 - i);
        envs.push_reserved(environment(alloc, limits, cells, &mut desks, env)?);
    }
    envs.reverse();
    Ok(envs)
}

ghost use Rattle.std.specs.Prelude.{ℕ, ◌≡◌, ◌+◌, ◌++◌, [], ◌∷◌, IfOk, OnOk, length, map};
ghost use Rattle.std.specs.List.{All};
ghost use Rattle.ti_cell.specs.View.{subject_of};
ghost use Rattle.ti_handshake.specs.NewDesks.{new_desk, new_desks};
ghost use Rattle.ti_agent.specs.Env.{cells_at};
ghost use Rattle.ti_runner.specs.Cells.{AreDesks, seats_at};
