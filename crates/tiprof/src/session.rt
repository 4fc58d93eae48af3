//! A run: workers with threads of their own, new threads that come and go, and an agent that samples them.

use crate::one_sample::DEPTH;
use crate::options::Options;
use crate::roles::{fill_all, roles};
use crate::samples::{Sampled, sample};
use crate::shared::Shared;
use crate::tally::Tally;
use crate::work::Task;
use std::io::Input;
use std::rt::Clock;
use std::sync::Wait;
use std::thread::{Threads, join};
use std::time::CpuClock;
use ti_service::{Agent, Service};
use ti_types::Limits;

/// The result of a run.
#[derive(Drop)]
pub struct Ran {
    pub sampled: Sampled,
    pub tally: Tally,
}

/// Samples. If the sampling does not end by itself, it also listens for the end of standard input.
fn sample_beside<R: Threads + Wait + Sync + Clock + Input + Eprint + AllocGlobal>(
    rt: &R,
    shared: &Shared,
    agent: Agent,
    options: Options,
) -> Option<Sampled> {
    if options.is_bounded() {
        return sample(rt, shared, agent, options);
    }
    let (sampled, ()) = join(
        rt,
        move || -> Option<Sampled> { sample(rt, shared, agent, options) },
        move || shared.listen(rt),
    );
    sampled
}

/// Lets workers and an agent come to a service, and samples while they run. `None` if memory runs out, or a line cannot be
/// written.
fn run_over<R: Threads + Wait + Sync + Clock + CpuClock + Input + Eprint + AllocGlobal>(
    rt: &R,
    service: &mut Service,
    options: Options,
    text: &[u8],
) -> Option<Ran> {
    let roles = roles(rt, service, options)?;
    let agent = service.attach_environment(rt, rt.alloc()).ok()?;
    let task = Task {
        rounds: options.jobs,
        text,
    };
    let shared = Shared::new();
    let shared = &shared;
    let (tally, sampled) = join(
        rt,
        move || -> Option<Tally> { fill_all(rt, shared, roles, task) },
        move || -> Option<Sampled> { sample_beside(rt, shared, agent, options) },
    );
    Some(Ran {
        sampled: sampled?,
        tally: tally?,
    })
}

/// Runs the workers on this text and lets new threads come and go, and samples them meanwhile. `None` if memory runs out, or a
/// line cannot be written.
pub fn run<R: Threads + Wait + Sync + Clock + CpuClock + Input + Eprint + AllocGlobal>(
    rt: &R,
    options: Options,
    text: &[u8],
) -> Option<Ran> {
    let limits = Limits::lasting(1, 1, DEPTH)?;
    let mut service = Service::make(rt.alloc(), limits).ok()?;
    run_over(rt, &mut service, options, text)
}
