//! Watches, which tell a runtime which of its threads are wanted.
//!
//! `cebdyraq_watch.c` calls these, one at a time for each watch, and wakes who sleeps until a thread is wanted.

use crate::codes::{CQ_MISUSED, CQ_NONE, CQ_OK, code, done_code};
use crate::handle::{CqService, CqThread, CqWatch};
use crate::held::{Held, HeldThread};
use crate::service_calls::{boxed, fill};
use std::alloc::Global;
use ti_service::Service;
use ti_types::{ThreadNo, TiError};
use ti_wanted::Watch;

/// A watch of no thread in a box. It has the count of news of another one, if there is one.
fn open(alloc: Global, beside: &mut CqWatch) -> Result<Box<Held>, TiError>
    ensures beside { watch_in beside.new ≡ watch_in beside.old }
    ensures opened { IfOk result (λ b. watch_of (Some b.value) ≡ Some []) }
    ensures refused { IfErr result (λ e. e ≡ OutOfMemory) }
{
    let watch = match beside.watch() {
        Some(watch) => watch.beside(alloc)?,
        None => Watch::new(alloc)?,
    };
    boxed(alloc, Held::Watch(watch))
}

/// Opens a watch of no thread. If the other handle is one of a watch, both have one count of news.
#[unsafe(no_mangle)]
pub extern "C" fn cebdyraq_open_watch(
    alloc: Global,
    beside: &mut CqWatch,
    watch: &mut CqWatch,
) -> u32
    ensures { OpensWatch beside.old beside.new watch.old watch.new result }
{
    if !watch.is_empty() {
        return CQ_MISUSED;
    }
    fill(watch, open(alloc, beside))
}

/// Closes a watch. Threads that it watches are told to nobody.
#[unsafe(no_mangle)]
pub extern "C" fn cebdyraq_close_watch(alloc: Global, watch: &mut CqWatch) -> u32
    ensures { ClosesWatch watch.old watch.new result }
{
    if !watch.is_watch() {
        return CQ_MISUSED;
    }
    watch.clear(alloc);
    CQ_OK
}

/// The watch is told of the thread of a box from now on, and at once if somebody calls for it.
fn watch_thread_in(alloc: Global, held: &mut HeldThread, watch: &mut Watch) -> u32
    ensures { WatchesIn held.old held.new watch.old watch.new result }
{
    let Some(thread) = held.thread.take() else {
        return CQ_MISUSED;
    };
    match watch.add(alloc, thread.thread.thread()) {
        Ok((watched, again)) => {
            let (thread, told) = thread.watch(Some(watched));
            held.thread = Some(thread);
            code!(told, called => if called { again.enter() })
        }
        Err(error) => {
            held.thread = Some(thread);
            error.number()
        }
    }
}

/// A watch is told of a thread from now on, and at once if somebody calls for it. What was told before no longer is.
#[unsafe(no_mangle)]
pub extern "C" fn cebdyraq_watch_thread(
    alloc: Global,
    thread: &mut CqThread,
    watch: &mut CqWatch,
) -> u32
    ensures { WatchesThread thread.old thread.new watch.old watch.new result }
{
    let Some(held) = thread.held_thread() else {
        return CQ_MISUSED;
    };
    let Some(watch) = watch.watch() else {
        return CQ_MISUSED;
    };
    watch_thread_in(alloc, held, watch)
}

/// Nobody is told of the thread of a box from now on.
fn unwatch_thread_in(held: &mut HeldThread) -> u32
    ensures { TellsNobodyIn held.old held.new result }
{
    let Some(thread) = held.thread.take() else {
        return CQ_MISUSED;
    };
    let (thread, told) = thread.watch(None);
    held.thread = Some(thread);
    code!(told)
}

/// Nobody is told of a thread from now on.
#[unsafe(no_mangle)]
pub extern "C" fn cebdyraq_unwatch_thread(thread: &mut CqThread) -> u32
    ensures { TellsNobody thread.old thread.new result }
{
    match thread.held_thread() {
        Some(held) => unwatch_thread_in(held),
        None => CQ_MISUSED,
    }
}

/// The number of no thread, under which a watch is told that somebody asks for a stop, or no longer does.
const ALL_THREADS: ThreadNo = ThreadNo(u32::MAX);

/// The watch is told of the stops of a service from now on.
fn watch_stops_of(alloc: Global, service: &mut Service, watch: &mut Watch) -> u32
    ensures { StopsWatched service.old service.new watch.old watch.new result }
{
    match watch.add(alloc, ALL_THREADS) {
        Ok((watched, _)) => done_code(service.watch_stops_now(Some(watched))),
        Err(error) => error.number(),
    }
}

/// A watch is told when an environment asks for a stop, or no longer does, from now on. What was told before no longer is.
#[unsafe(no_mangle)]
pub extern "C" fn cebdyraq_watch_stops(
    alloc: Global,
    service: &mut CqService,
    watch: &mut CqWatch,
) -> u32
    ensures { WatchesStops service.old service.new watch.old watch.new result }
{
    let Some(service) = service.service() else {
        return CQ_MISUSED;
    };
    let Some(watch) = watch.watch() else {
        return CQ_MISUSED;
    };
    watch_stops_of(alloc, service, watch)
}

/// The number of a thread that has become wanted and was not told of.
#[unsafe(no_mangle)]
pub extern "C" fn cebdyraq_next_wanted(watch: &mut CqWatch, thread: &mut u32) -> u32
    ensures { TellsNext watch.old watch.new thread.old thread.new result }
{
    let Some(watch) = watch.watch() else {
        return CQ_MISUSED;
    };
    match watch.next() {
        Some(wanted) => {
            *thread = wanted.0;
            CQ_OK
        }
        None => CQ_NONE,
    }
}

/// The address of the count of news of a watch, which grows before a call by which a thread becomes wanted returns.
#[unsafe(no_mangle)]
pub extern "C" fn cebdyraq_news_of(watch: &mut CqWatch, news: &mut *mut u64) -> u32
    ensures { NewsBehind (watch_in watch.old) (watch_in watch.new) (news.new ≡ news.old) watch.old watch.new result }
{
    let Some(watch) = watch.watch() else {
        return CQ_MISUSED;
    };
    *news = watch.news();
    CQ_OK
}

ghost use Rattle.std.specs.Prelude.{◌≡◌, [], Some, IfOk, IfErr};
ghost use Rattle.ti_types.specs.declared.error.TiError.TheVariants.{OutOfMemory};
ghost use Rattle.ti_capi.specs.Handles.{watch_in, watch_of};
ghost use Rattle.ti_capi.specs.Watches.{ClosesWatch, NewsBehind, OpensWatch, TellsNext, TellsNobody, StopsWatched, TellsNobodyIn, WatchesIn, WatchesStops, WatchesThread};
