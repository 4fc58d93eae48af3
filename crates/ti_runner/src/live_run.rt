//! Runs a live script from start to end.

use crate::activities::activities;
use crate::cells::{Cells, environments, make_cells};
use crate::closed_cells::{Told, close_all, give_back};
use crate::fault::RunFault;
use crate::gate::Gate;
use std::sync::{Mutex, Wait};
use std::thread::Threads;
use ti_live::{LiveReport, Script};
use ti_report::fits;
use ti_vmop::VmTurn;

/// Runs a script. Each thread of it is walked by a thread of the operating system, and each agent's calls are made by one.
/// The gate is asked before each operation and call. The report fits its script, for every schedule.
///
/// The errors (this profile):
///
/// - `Memory`: memory ran out, or a thread could not be started. The activities that had started went through their lists.
/// - `Cell`: the script's limits are not recorded (`Limits::recorded`), or do not fit the number of its lists. Or a cell
///   could not be closed at its end, or the report does not fit.
pub fn run_live<R: Threads + Wait + Sync + AllocGlobal, G: Gate>(
    rt: &R,
    script: &Script,
    gate: &G,
) -> Result<LiveReport, RunFault>
    ensures { IfOk result (λ report. Fits script.now report) }
{
    let alloc = rt.alloc();
    let limits = script.limits;
    if !limits.kept
        || script.walks.as_slice().len() != limits.threads as usize
        || script.calls.as_slice().len() != limits.envs as usize
    {
        return Err(RunFault::Cell);
    }
    let Cells {
        cells,
        threads,
        desks,
    } = make_cells(alloc, limits)?;
    let envs = environments(alloc, limits, &cells, desks)?;
    let turn = Mutex::new(VmTurn::new());
    let (walked, called) = activities(rt, alloc, gate, script, &cells, threads, envs, &turn)?;
    let mut walked = walked;
    let mut told = Told::new(alloc);
    give_back(&cells, &mut walked, called, &mut told)?;
    close_all(cells, walked, &mut told)?;
    let report = told.into_report();
    if !fits(alloc, script, &report)? {
        return Err(RunFault::Cell);
    }
    Ok(report)
}

ghost use Rattle.std.specs.Prelude.{◌≡◌, IfOk};
ghost use Rattle.ti_report.specs.Fits.{Fits};
