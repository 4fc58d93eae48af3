//! What the workers do: one job after another, until they have to stop or have made their rounds.

use crate::method::Method;
use crate::parse::parse;
use crate::search::{WAYS, search};
use crate::shared::Shared;
use crate::sort::sort;
use crate::tally::Tally;
use crate::worker::{Spent, Worker};
use std::rt::Clock;
use std::sync::Wait;
use std::time::{CpuClock, Duration};
use ti_handshake::Fresh;
use ti_service::Service;

/// What a worker has to do.
#[derive(Clone, Copy)]
pub struct Task<'t> {
    /// How many rounds of its jobs it makes. `None` for as many as there is time for.
    pub rounds: Option<u32>,
    /// The document that it parses.
    pub text: &'t [u8],
}

impl Task<'_> {
    /// How many jobs these rounds have.
    fn jobs(self) -> u64 {
        match self.rounds {
            Some(rounds) => u64::from(rounds) * ROUND,
            None => u64::MAX,
        }
    }
}

/// How many microseconds a worker sleeps in each round.
const REST: u64 = 500;

/// How many jobs a round has.
const ROUND: u64 = 4;

/// Does one job, and gives whether the result is right.
fn job<R: Wait + Clock + AllocGlobal>(
    rt: &R,
    worker: &mut Worker,
    turn: u64,
    text: &[u8],
) -> Result<bool, Spent>
    ensures same { worker.new ≡ worker.old }
{
    match turn % ROUND {
        0 => Ok(parse(rt, worker, text)?.whole),
        1 => sort(rt, rt.alloc(), worker, (turn % 65_536) as u32),
        2 => Ok(search(rt, worker)? == WAYS),
        _ => {
            worker.enter(Method::Rest)?;
            worker.sleep(rt, Duration::from_micros(REST))?;
            worker.leave()?;
            Ok(true)
        }
    }
}

/// Does one job after another, and gives how many were done. It ends when the worker has to stop or has made its rounds, or
/// when a job fails.
fn jobs<R: Wait + Clock + AllocGlobal>(
    rt: &R,
    shared: &Shared,
    worker: &mut Worker,
    task: Task<'_>,
    number: u32,
) -> u64
    ensures same { worker.new ≡ worker.old }
{
    if worker.enter(Method::Worker).is_err() {
        return 0;
    }
    for done in 0..task.jobs() {
        let turn = done.wrapping_add(u64::from(number));
        if shared.is_over() || !matches!(job(rt, worker, turn, task.text), Ok(true)) {
            return done;
        }
    }
    task.jobs()
}

/// A worker's life, from its start until it is given back. It gives how many jobs were done. `None` if it is not given back.
fn live<R: Wait + Clock + AllocGlobal>(
    rt: &R,
    shared: &Shared,
    mut service: Service,
    fresh: Fresh,
    task: Task<'_>,
) -> Option<u64> {
    let number = fresh.thread().0;
    let mut worker = Worker::start(rt, &mut service, fresh)?;
    let jobs = jobs(rt, shared, &mut worker, task, number);
    let ended = worker.end(rt, &mut service)?;
    service.detach_thread(rt, ended).ok()?;
    Some(jobs)
}

/// A worker's life, with its processor time. `None` if it is not given back.
pub fn work<R: Wait + Clock + CpuClock + AllocGlobal>(
    rt: &R,
    shared: &Shared,
    service: Service,
    fresh: Fresh,
    task: Task<'_>,
) -> Option<Tally> {
    let began = rt.thread_cpu_time();
    let jobs = live(rt, shared, service, fresh, task);
    let cpu = match (began, rt.thread_cpu_time()) {
        (Ok(began), Ok(ended)) => ended.saturating_sub(began).as_nanos(),
        _ => 0,
    };
    shared.note_done();
    Some(Tally {
        jobs: jobs?,
        cpu: u64::try_from(cpu).unwrap_or(u64::MAX),
        churned: 0,
    })
}

ghost use Rattle.std.specs.Prelude.{◌≡◌};
