//! Whether the refusals of a walk's operations are right.

use ti_live::Refusal;
use ti_replay::rules::{is_new, is_running, is_safe};
use ti_types::{Event, Limits, Mode, Safe, Step, TiError};

/// Why an operation does not fit the thread's mode.
fn mode_refusal(mode: Mode, event: Event) -> Option<TiError>
    ensures { result ≡ mode_refusal mode event }
{
    match event {
        Event::Start(_) => (!is_new(mode)).then_some(TiError::NotNew),
        Event::Back(_) => (!is_safe(mode)).then_some(TiError::NotSafe),
        _ => (!is_running(mode)).then_some(TiError::NotRunning),
    }
}

/// What an operation costs if it is made.
fn cost_of(event: Event) -> u64
    ensures cost { result ≡ cost_of event }
    ensures few { result ≤ 2 }
{
    match event {
        Event::Own(_, _) => 1,
        Event::ToNative(_) | Event::ToBlocked(_, _) => 2,
        _ => 0,
    }
}

/// Whether the thread's frames may refuse a step with the error of this number.
fn is_step_error(step: Step, number: u32) -> bool
    ensures { result ≡ is_step_error step number }
{
    match step {
        Step::Enter(_) | Step::EnterNative(_) => number == 201,
        Step::At(_) => number == 202 || number == 203,
        Step::Leave => number == 202,
    }
}

/// Whether the thread's frames may refuse an operation with the error of this number.
fn is_frame_error(event: Event, number: u32) -> bool
    ensures { result ≡ is_frame_error event number }
{
    match event {
        Event::Own(_, step) => is_step_error(step, number),
        Event::ToNative(_) => number == 207,
        _ => false,
    }
}

/// The thread's mode after an operation that was made.
fn has_made(mode: Mode, event: Event) -> Mode
    ensures { result ≡ has_made mode event }
{
    match event {
        Event::Start(_) | Event::Back(_) => Mode::Running,
        Event::ToNative(_) => Mode::AtSafe(Safe::Native),
        Event::ToBlocked(_, kind) => Mode::AtSafe(Safe::Blocked(kind)),
        Event::End(_) => Mode::Ended,
        _ => mode,
    }
}

/// Whether a thread may refuse an operation with the error of this number. `why` is the error for the thread's mode.
fn is_refused_by(limits: Limits, own: u64, why: Option<TiError>, event: Event, number: u32) -> bool
    requires { own ≤ limits.own }
    ensures { result ≡ is_refused_by limits own why event number }
{
    match why {
        Some(error) => number == error.number(),
        None => {
            is_frame_error(event, number)
                || (number == 208 && !(own + cost_of(event) <= limits.own))
        }
    }
}

/// Whether an operation may have been refused with the error of this number, or made if there is none.
pub fn is_so(limits: Limits, mode: Mode, own: u64, event: Event, error: Option<u32>) -> bool
    requires { own ≤ limits.own }
    ensures { result ≡ is_so limits mode own event error }
{
    match error {
        Some(number) => is_refused_by(limits, own, mode_refusal(mode, event), event, number),
        None => mode_refusal(mode, event).is_none() && own + cost_of(event) <= limits.own,
    }
}

/// The error of the first of these refusals, if that is of the operation of this number.
pub fn error_of(refused: &[Refusal], number: usize) -> Option<u32>
    ensures { result ≡ error_of number refused.now }
{
    match refused.first() {
        Some(refusal) if refusal.operation as usize == number => Some(refusal.error),
        _ => None,
    }
}

/// The refusals after those of the operation of this number.
pub fn refusals_behind(refused: &[Refusal], number: usize) -> &[Refusal]
    ensures { result.now ≡ refusals_behind number refused.now }
{
    match refused.split_first() {
        Some((refusal, rest)) if refusal.operation as usize == number => rest,
        _ => refused,
    }
}

/// The thread's mode after an operation that was refused with this error, or made.
pub fn mode_behind(mode: Mode, event: Event, error: Option<u32>) -> Mode
    ensures { result ≡ mode_behind mode event error }
{
    match error {
        Some(_) => mode,
        None => has_made(mode, event),
    }
}

/// What the thread has spent after an operation that was refused with this error, or made and paid for.
pub fn own_behind(limits: Limits, own: u64, event: Event, error: Option<u32>) -> u64
    requires { own ≤ limits.own }
    ensures { result ≡ own_behind own event error }
{
    let _limits = limits;
    match error {
        Some(_) => own,
        None => own + cost_of(event),
    }
}

ghost use Rattle.std.specs.Prelude.{◌≡◌, ◌≤◌, ◌+◌, ℕ, Option};
ghost use Rattle.ti_types.specs.declared.error.TiError.{TiError};
ghost use Rattle.ti_report.specs.Refusals.{mode_refusal, cost_of, is_step_error, is_frame_error, has_made, is_refused_by, is_so, error_of, refusals_behind, mode_behind, own_behind};
