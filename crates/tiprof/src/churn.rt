//! New threads, which come and go while others are sampled.

use crate::parse::{document, parse};
use crate::shared::Shared;
use crate::worker::{Worker, attach};
use std::rt::Clock;
use std::sync::Wait;
use std::thread;
use std::time::{Duration, Instant};
use ti_service::Service;

/// How many numbers the longest array of a new thread's document has.
const NUMBERS: u32 = 800;

/// How many milliseconds it sleeps at most before it looks again whether the sampling is over.
const NAP: u64 = 10;

/// How long after the beginning of its interval a thread comes. It differs from thread to thread, so that they do not keep step
/// with the samples.
fn delay(interval: Duration, number: u64) -> Duration {
    let part = (number % 64 * 37 % 64) as u32;
    (interval / 64).saturating_mul(part)
}

/// A new thread's life: it comes, parses a document, ends, and is given back. `None` if memory runs out.
fn live<R: Wait + AllocGlobal>(
    rt: &R,
    service: &mut Service,
    number: u64,
    text: &[u8],
) -> Option<()> {
    let name = format!(in rt.alloc(); "new thread {number}").ok()?;
    let fresh = attach(rt, service, name)?;
    let mut worker = Worker::start(rt, service, fresh)?;
    let _found = parse(rt, &mut worker, text);
    let ended = worker.end(rt, service)?;
    service.detach_thread(rt, ended).ok()
}

/// Lets so many threads a second come and go, one after another, until the sampling is over. It gives how many did. `None` if
/// memory runs out, or the clock can't be read.
pub fn churn<R: Wait + Clock + AllocGlobal>(
    rt: &R,
    shared: &Shared,
    service: &mut Service,
    rate: u32,
) -> Option<u64> {
    let interval = Duration::from_secs(1).checked_div(rate)?;
    let text = document(rt.alloc(), NUMBERS).ok()?;
    come_and_go(rt, shared, service, interval, text.as_bytes())
}

/// Lets a thread come and go in each interval, which parses this text, until the sampling is over. It gives how many did.
fn come_and_go<R: Wait + Clock + AllocGlobal>(
    rt: &R,
    shared: &Shared,
    service: &mut Service,
    interval: Duration,
    text: &[u8],
) -> Option<u64> {
    let began = Instant::now(rt).ok()?;
    let mut due = Duration::ZERO;
    let mut gone: u64 = 0;
    for _ in rt.forever() {
        if shared.is_over() {
            break;
        }
        let comes = due.saturating_add(delay(interval, gone));
        let early = comes.saturating_sub(began.elapsed(rt).ok()?);
        if early > Duration::ZERO {
            thread::sleep(rt, early.min(Duration::from_millis(NAP)));
            continue;
        }
        live(rt, service, gone, text)?;
        gone = gone.saturating_add(1);
        due = due.saturating_add(interval);
    }
    Some(gone)
}
