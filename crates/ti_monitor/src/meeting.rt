//! How threads are met and let go of.

use crate::metrics::Metrics;
use crate::watched::Watched;
use std::alloc::Global;
use ti_service::{Agent, Event, EventKind, LifeKind, ServiceTries, ThreadInfo};
use ti_types::{ThreadNo, TiError};

/// How many threads have a place at most.
const MOST: usize = 65_536;

/// How many events are counted at once.
const EVENTS: u32 = 4_096;

/// The bits of a thread that has ended.
const TERMINATED: u32 = 0x2;

/// Enables the events that are counted, as far as they are not. The error is 215 `Busy` if the roster is in use: then some of them may
/// be enabled.
pub(crate) fn enable_events(agent: &mut Agent) -> Result<(), TiError>
    ensures agent { MayEnable (state_of agent.old) (state_of agent.new) }
{
    agent.set_event_notification_mode_now(EventKind::ThreadAttached, true)?;
    agent.set_event_notification_mode_now(EventKind::ThreadDetached, true)
}

/// Counts the threads that were attached or given back since the last time. It gives the first one that was attached.
pub(crate) fn count_events(agent: &mut Agent, metrics: &mut Metrics) -> Option<ThreadNo> {
    let mut first = None;
    for _ in 0..EVENTS {
        let Ok(Some(next)) = agent.next_event_now() else {
            break;
        };
        metrics.events_lost = metrics.events_lost.saturating_add(next.lost);
        let Event::Life(life) = next.event else {
            continue;
        };
        match life.kind {
            LifeKind::ThreadAttached => {
                metrics.attached = metrics.attached.saturating_add(1);
                first = first.or(Some(life.thread));
            }
            LifeKind::ThreadDetached => metrics.detached = metrics.detached.saturating_add(1),
            LifeKind::ThreadStart | LifeKind::ThreadEnd => {}
        }
    }
    first
}

/// Counts the threads that were there before the monitor was told of any: those that came before the first that was told.
pub(crate) fn count_earlier(watched: &[Watched], first: Option<ThreadNo>, metrics: &mut Metrics) {
    for one in watched {
        if first.is_none_or(|first| one.thread.0 < first.0) {
            metrics.attached = metrics.attached.saturating_add(1);
        }
    }
}

/// A thread that was just met, with its name. One that was given back meanwhile has no name.
///
/// The error is 110 OUT_OF_MEMORY, or 215 `Busy` if the roster is in use.
fn watched_at(alloc: Global, agent: &mut Agent, thread: ThreadNo) -> Result<Watched, TiError> {
    match agent.get_thread_info_now(alloc, thread) {
        Ok(ThreadInfo { name, priority }) => Ok(Watched::new(thread, name, priority)),
        Err(error @ (TiError::OutOfMemory | TiError::Busy)) => Err(error),
        Err(_) => {
            let mut watched = Watched::new(thread, String::new(alloc), 0);
            watched.see(TERMINATED);
            Ok(watched)
        }
    }
}

/// The index of the first desk of the agent's that is at a thread behind all that are watched.
fn first_new(agent: &Agent, watched: &[Watched]) -> u32 {
    let mut index = agent.desk_count();
    let Some(last) = watched.last() else {
        return 0;
    };
    while index > 0 {
        match agent.thread_at(index - 1) {
            Some(thread) if thread.0 > last.thread.0 => index -= 1,
            _ => break,
        }
    }
    index
}

/// Watches the threads that the agent has met since the last time, as far as there is room and memory. False if the roster is
/// in use: then it may be tried again soon.
pub(crate) fn watch_new(alloc: Global, agent: &mut Agent, watched: &mut Vec<Watched>) -> bool {
    for index in first_new(agent, watched)..agent.desk_count() {
        let Some(thread) = agent.thread_at(index) else {
            return true;
        };
        if watched.len() >= MOST || watched.reserve(1).is_err() {
            return true;
        }
        match watched_at(alloc, agent, thread) {
            Ok(one) => watched.push_reserved(one),
            Err(error) => return error != TiError::Busy,
        }
    }
    true
}

/// Lets go of threads that were given back, where no call is out. Only one that has ended, or has not started, can have been.
pub(crate) fn let_go_of_ended(agent: &mut Agent, watched: &mut [Watched]) {
    for one in watched.iter_mut() {
        let may_be_back = one.has_ended() || one.is_new();
        if !one.gone && may_be_back && one.out.is_none() {
            one.gone = agent.let_go_now(one.thread) == Ok(true);
        }
    }
}

ghost use Rattle.ti_service.specs.Memberships.{state_of};
ghost use Rattle.ti_monitor.specs.Monitors.{MayEnable};
