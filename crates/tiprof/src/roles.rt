//! What the threads of the operating system are for, besides the sampling.

use crate::churn::churn;
use crate::options::Options;
use crate::shared::Shared;
use crate::tally::Tally;
use crate::work::{Task, work};
use crate::worker::attach;
use std::rt::Clock;
use std::sync::Wait;
use std::thread;
use std::thread::Threads;
use std::time::CpuClock;
use ti_handshake::Fresh;
use ti_service::Service;

/// What a thread of the operating system is for. It has a handle of the service for itself.
#[derive(Drop)]
pub enum Role {
    /// To run a worker, which has not started.
    Work(Service, Fresh),
    /// To let so many new threads a second come and go.
    Churn(Service, u32),
}

/// Attaches the workers, and gives the roles: one for each of them, and then one for the new threads if there are to be any.
/// `None` if memory runs out.
pub fn roles<R: Wait + AllocGlobal>(
    rt: &R,
    service: &mut Service,
    options: Options,
) -> Option<Vec<Role>> {
    let mut roles = Vec::new(rt.alloc());
    for number in 0..options.threads {
        let name = format!(in rt.alloc(); "worker {number}").ok()?;
        let fresh = attach(rt, service, name)?;
        roles.push(Role::Work(service.share().ok()?, fresh)).ok()?;
    }
    if let Some(rate) = options.churn {
        roles.push(Role::Churn(service.share().ok()?, rate)).ok()?;
    }
    Some(roles)
}

/// Fills a role to its end. `None` if memory runs out, a thread is not given back, or the clock can't be read.
fn fill<R: Wait + Clock + CpuClock + AllocGlobal>(
    rt: &R,
    shared: &Shared,
    role: Role,
    task: Task<'_>,
) -> Option<Tally> {
    match role {
        Role::Work(service, fresh) => work(rt, shared, service, fresh, task),
        Role::Churn(mut service, rate) => Some(Tally {
            churned: churn(rt, shared, &mut service, rate)?,
            ..Tally::nothing()
        }),
    }
}

/// Fills all roles, each by a thread of its own, and gives what they did together. `None` as for one of them, or if a thread
/// cannot be started.
pub fn fill_all<R: Threads + Wait + Sync + Clock + CpuClock + AllocGlobal>(
    rt: &R,
    shared: &Shared,
    roles: Vec<Role>,
    task: Task<'_>,
) -> Option<Tally> {
    let tallies = thread::map_vec(
        rt,
        roles,
        &|role: Role| -> Option<Tally> { fill(rt, shared, role, task) },
    )
    .ok()?;
    let mut all = Tally::nothing();
    for tally in tallies.iter() {
        all = all.and((*tally)?);
    }
    Some(all)
}
