//! Starts and ends of threads, which their service notes.

use crate::codes::{CQ_MISUSED, told_code};
use crate::handle::CqThread;
use crate::held::HeldThread;
use ti_service::Service;
use ti_thread::{AnyThread, HostThread, TurnOutcome};
use ti_types::TiError;

/// What becomes of a thread.
#[derive(Clone, Copy)]
pub enum Noted {
    /// It starts.
    Start,
    /// It ends.
    End,
}

/// Starts a thread by its service.
fn start(service: &mut Service, thread: AnyThread) -> (AnyThread, TurnOutcome)
    ensures { Starts thread result.0 service.old service.new result.1 }
{
    match thread {
        AnyThread::Fresh(fresh) => match service.start_thread_now(fresh) {
            Ok(running) => (AnyThread::Running(running), TurnOutcome::Done),
            Err((error, fresh)) => (AnyThread::Fresh(fresh), TurnOutcome::Refused(error)),
        },
        other => (other, TurnOutcome::Refused(TiError::NotNew)),
    }
}

/// Ends a thread by its service.
fn end(service: &mut Service, thread: AnyThread) -> (AnyThread, TurnOutcome)
    ensures { Ends thread result.0 service.old service.new result.1 }
{
    match thread {
        AnyThread::Running(running) => match service.end_thread_now(running) {
            Ok(ended) => (AnyThread::Ended(ended), TurnOutcome::Done),
            Err((error, running)) => (AnyThread::Running(running), TurnOutcome::Refused(error)),
        },
        other => (other, TurnOutcome::Refused(TiError::NotRunning)),
    }
}

/// The thread of a box does it, and its service notes it.
fn note_in(held: &mut HeldThread, what: Noted) -> u32
    ensures { NotesIn what held.old held.new result }
{
    let Some(host) = held.thread.take() else {
        return CQ_MISUSED;
    };
    let (thread, pops) = host.for_turn();
    let (thread, told) = match what {
        Noted::Start => start(&mut held.service, thread),
        Noted::End => end(&mut held.service, thread),
    };
    held.thread = Some(HostThread::after_turn(thread, pops));
    told_code(told)
}

/// The thread of a handle does it.
fn note_of(thread: &mut CqThread, what: Noted) -> u32
    ensures { Notes what thread.old thread.new result }
{
    match thread.held_thread() {
        Some(held) => note_in(held, what),
        None => CQ_MISUSED,
    }
}

/// Starts the thread.
#[unsafe(no_mangle)]
pub extern "C" fn cq_start(thread: &mut CqThread) -> u32
    ensures { Notes noted.Start thread.old thread.new result }
{
    note_of(thread, Noted::Start)
}

/// Ends the thread.
#[unsafe(no_mangle)]
pub extern "C" fn cq_end(thread: &mut CqThread) -> u32
    ensures { Notes noted.End thread.old thread.new result }
{
    note_of(thread, Noted::End)
}

ghost use Rattle.ti_capi.specs.declared.thread_lives.Noted.TheVariants as noted;
ghost use Rattle.ti_capi.specs.Lives.{Ends, Notes, NotesIn, Starts};
