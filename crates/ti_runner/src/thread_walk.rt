//! Walks a thread through its operations, one after another.

use crate::gate::Gate;
use std::sync::Wait;
use ti_cell::OwnSeat;
use ti_handshake::{AtSafe, Ended, Fresh, Polled, Running};
use ti_live::Refusal;
use ti_types::{Event, Kind, Step, ThreadNo, TiError};

/// A thread between two operations of its walk.
#[derive(Drop)]
enum Phase {
    New(Fresh),
    Runs(Running),
    Rests(AtSafe),
    Over(Ended),
}

/// What an operation leaves: the thread, and the error if it was refused.
type Took = (Phase, Option<TiError>);

/// What a walk gives back.
#[derive(Drop)]
pub struct Walked {
    /// The owner's seat of the thread's cell.
    pub seat: OwnSeat,
    /// The refused operations, in their order.
    pub refused: Vec<Refusal>,
    /// Whether the gate ended the walk.
    pub spent: bool,
}

/// Starts a new thread, and waits while a stop is in force at it. 210 if it is not new.
fn start<R: Wait>(rt: &R, phase: Phase) -> Took
    ensures { cell_of result.0 ≡ cell_of phase }
{
    match phase {
        Phase::New(fresh) => (Phase::Runs(fresh.start(rt)), None),
        other => (other, Some(TiError::NotNew)),
    }
}

/// Lets a thread that handed over return, and waits while it is barred. 205 if it is not safe.
fn back<R: Wait>(rt: &R, phase: Phase) -> Took
    ensures { cell_of result.0 ≡ cell_of phase }
{
    match phase {
        Phase::Rests(safe) => (Phase::Runs(safe.back(rt)), None),
        other => (other, Some(TiError::NotSafe)),
    }
}

/// Makes a step of a running thread. 204 if it does not run, or the error of the step.
fn step(phase: Phase, step: Step) -> Took
    ensures { cell_of result.0 ≡ cell_of phase }
{
    match phase {
        Phase::Runs(running) => {
            let mut running = running;
            let refused = running.step(step).err();
            (Phase::Runs(running), refused)
        }
        other => (other, Some(TiError::NotRunning)),
    }
}

/// Polls. If the thread is held, it returns before anything else, and waits until it may. 204 if it does not run.
fn poll<R: Wait>(rt: &R, phase: Phase) -> Took
    ensures { cell_of result.0 ≡ cell_of phase }
{
    match phase {
        Phase::Runs(running) => {
            let mut running = running;
            if running.poll_clear() {
                return (Phase::Runs(running), None);
            }
            match running.poll(rt) {
                Polled::Go(again) => (Phase::Runs(again), None),
                Polled::Held(safe) => (Phase::Runs(safe.back(rt)), None),
            }
        }
        other => (other, Some(TiError::NotRunning)),
    }
}

/// The thread after a hand-over, and the error if it was refused.
fn handed(came: Result<AtSafe, (TiError, Running)>) -> Took
    ensures { cell_of result.0 ≡ cell_of_handed came }
{
    match came {
        Ok(safe) => (Phase::Rests(safe), None),
        Err((error, running)) => (Phase::Runs(running), Some(error)),
    }
}

/// Lets a running thread enter native code. 204 if it does not run, or the error of the hand-over.
fn native<R: Wait>(rt: &R, phase: Phase) -> Took
    ensures { cell_of result.0 ≡ cell_of phase }
{
    match phase {
        Phase::Runs(running) => handed(running.native(rt)),
        other => (other, Some(TiError::NotRunning)),
    }
}

/// Blocks a running thread. 204 if it does not run, or the error of the hand-over.
fn block<R: Wait>(rt: &R, phase: Phase, kind: Kind) -> Took
    ensures { cell_of result.0 ≡ cell_of phase }
{
    match phase {
        Phase::Runs(running) => handed(running.block(rt, kind)),
        other => (other, Some(TiError::NotRunning)),
    }
}

/// Ends a running thread. 204 if it does not run.
fn end<R: Wait>(rt: &R, phase: Phase) -> Took
    ensures { cell_of result.0 ≡ cell_of phase }
{
    match phase {
        Phase::Runs(running) => (Phase::Over(running.end(rt)), None),
        other => (other, Some(TiError::NotRunning)),
    }
}

/// Makes one operation. One that does not fit the thread's state is not made. A start of a thread that is not new is refused
/// with 210, and a return of one that is not safe with 205. Any other is refused with 204 if the thread does not run. An
/// event that is no thread's own does nothing.
fn take<R: Wait>(rt: &R, phase: Phase, operation: Event) -> Took
    ensures { cell_of result.0 ≡ cell_of phase }
{
    match operation {
        Event::Start(_) => start(rt, phase),
        Event::Own(_, made) => step(phase, made),
        Event::Poll(_) => poll(rt, phase),
        Event::ToNative(_) => native(rt, phase),
        Event::ToBlocked(_, kind) => block(rt, phase, kind),
        Event::Back(_) => back(rt, phase),
        Event::End(_) => end(rt, phase),
        _ => (phase, None),
    }
}

/// The seat of a thread whose walk is done. A thread that runs is ended first.
fn leave<R: Wait>(rt: &R, phase: Phase) -> OwnSeat
    ensures cell { result.cell ≡ cell_of phase }
    ensures owner { result.view.number ≡ 0 }
{
    match phase {
        Phase::New(fresh) => {
            fresh.facts();
            fresh.into_seat()
        }
        Phase::Runs(running) => {
            let ended = running.end(rt);
            ended.facts();
            ended.into_seat()
        }
        Phase::Rests(safe) => {
            safe.facts();
            safe.into_seat()
        }
        Phase::Over(ended) => {
            ended.facts();
            ended.into_seat()
        }
    }
}

/// Walks a thread through its operations. Each is made, or is noted in `refused`, which has room for all. A thread that runs
/// at the end is ended. A new or a safe one stays as it is. Then the gate's `walked` is called.
pub(crate) fn walk<R: Wait, G: Gate>(
    rt: &R,
    gate: &G,
    fresh: Fresh,
    thread: ThreadNo,
    operations: &[Event],
    refused: Vec<Refusal>,
) -> Walked
    ensures cell { result.seat.cell ≡ fresh.cell }
    ensures owner { result.seat.view.number ≡ 0 }
{
    let mut refused = refused;
    let mut spent = false;
    let mut phase = Phase::New(fresh);
    let mut number: u32 = 0;
    for operation in operations {
        if !gate.before_op(thread, number) {
            spent = true;
            break;
        }
        let (next, fault) = take(rt, phase, *operation);
        phase = next;
        if let Some(error) = fault {
            let _full = refused.push(Refusal {
                operation: number,
                error: error.number(),
            });
        }
        number = number.wrapping_add(1);
    }
    let seat = leave(rt, phase);
    gate.walked(thread);
    Walked {
        seat,
        refused,
        spent,
    }
}

ghost use Rattle.std.specs.Prelude.{◌≡◌};
ghost use Rattle.ti_runner.specs.Walks.{cell_of, cell_of_handed};
