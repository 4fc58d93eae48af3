//! The tests that a history's rules are made of, on plain values.

use crate::costs::Costs;
use ti_types::{Call, Entry, EnvNo, FrameList, Limits, Mode, Place, Safe, Step, ThreadView};

/// Whether a thread of this mode runs (HotSpot Runtime Overview: in Java or in the VM).
pub fn is_running(mode: Mode) -> bool
    ensures { result ≡ running_is mode }
{
    matches!(mode, Mode::Running)
}

/// Whether a thread of this mode has not started yet (HotSpot Runtime Overview: new).
pub fn is_new(mode: Mode) -> bool
    ensures { result ≡ new_is mode }
{
    matches!(mode, Mode::New)
}

/// Whether a thread of this mode is in native code, blocked or at a poll, so that its frames do not change (JEP 312).
pub fn is_safe(mode: Mode) -> bool
    ensures { result ≡ safe_is mode }
{
    matches!(mode, Mode::AtSafe(_))
}

/// Whether a thread of this mode is alive: it has started and has not ended (JVM TI 11, GetThreadState's ALIVE).
pub fn is_alive(mode: Mode) -> bool
    ensures { result ≡ alive_is mode }
{
    matches!(mode, Mode::Running | Mode::AtSafe(_))
}

/// Whether an entry lets the waiting calls take place: a hand-over or an end (JEP 312).
pub fn is_hand_over(entry: Entry) -> bool
    ensures { result ≡ hand_over_is entry }
{
    matches!(entry, Entry::Hand(_) | Entry::End)
}

/// Whether a call waits for a running thread: the calls that read frames do, and so do a suspension and a pop. This profile,
/// after JEP 312: the operation runs once the thread is safe.
pub fn waits(call: Call) -> bool
    ensures { result ≡ waits_is call }
{
    matches!(
        call,
        Call::FrameCount | Call::Trace { .. } | Call::Location { .. } | Call::Suspend | Call::Pop
    )
}

/// Whether a call waits at a thread of this mode. All calls at a thread that does not run take place at once.
pub fn is_put_off(mode: Mode, call: Call) -> bool
    ensures { result ≡ (waits_is call && running_is mode) }
{
    waits(call) && is_running(mode)
}

/// Whether an entry is a call of the sort that waits for a running thread.
pub fn is_waiting_call(entry: Entry) -> bool
    ensures { result ≡ waiting_call_is entry }
{
    match entry {
        Entry::Asked(_, _, call) => waits(call),
        _ => false,
    }
}

/// Whether there is a frame and the newest is native. A hand-over to native code needs that (otherwise 207).
pub fn newest_is_native(frames: &FrameList) -> bool
    ensures { result ≡ newest_native_is frames.now }
{
    match frames.newest() {
        Some(frame) => matches!(frame.place, Place::Native),
        None => false,
    }
}

/// Whether frames allow a step (this profile). To enter a method, there must be room below the depth (otherwise 201). To
/// leave a frame or go on in it, there must be one (otherwise 202). To go on in it, it must not be native (otherwise 203).
pub fn step_fits(limits: &Limits, frames: &FrameList, step: Step) -> bool
    ensures { result ≡ step_fits_by limits.now frames.now step }
{
    match step {
        Step::Enter(_) | Step::EnterNative(_) => frames.len() < limits.depth as usize,
        Step::At(_) => match frames.newest() {
            Some(frame) => matches!(frame.place, Place::Java(_)),
            None => false,
        },
        Step::Leave => frames.newest().is_some(),
    }
}

/// Whether no `max_count` or `depth` of a call is negative (otherwise 103; JVM TI 11).
pub fn is_well_formed(call: Call) -> bool
    ensures { result ≡ well_formed_is call }
{
    call.is_well_formed()
}

/// Whether a stop is in force and is this environment's. A read and a go need that (otherwise 212).
pub fn is_stopper(stopper: Option<EnvNo>, env: EnvNo) -> bool
    ensures { result ≡ stopper_is stopper env }
{
    match stopper {
        Some(other) => other.0 == env.0,
        None => false,
    }
}

/// Whether an entry may come next: the table of legal entries (this profile, `specs/Legal`).
///
/// It is given the view that the history has left, whether the thread is called for (`armed`), and what the thread has spent
/// (`own`). `costs` is what the entry's environment has asked and spent.
#[inline(always)]
pub fn fits(
    limits: &Limits,
    view: &ThreadView,
    armed: bool,
    own: u64,
    costs: Costs,
    entry: Entry,
) -> bool
    ensures { result ≡ fits_by limits.now
        (record { view = view.now; armed = armed; own = own; calls = costs.calls; asked = costs.asked }) entry }
{
    let runs = is_running(view.mode);
    match entry {
        Entry::Start => matches!(view.mode, Mode::New) && view.stopper.is_none(),
        Entry::Own(step) => runs && step_fits(limits, &view.frames, step) && own < limits.own,
        Entry::Hand(Safe::Native) => {
            runs && newest_is_native(&view.frames) && limits.own.saturating_sub(own) >= 2
        }
        Entry::Hand(Safe::Blocked(_)) => runs && limits.own.saturating_sub(own) >= 2,
        Entry::Hand(Safe::AtPoll) => runs && armed,
        Entry::Back => {
            matches!(view.mode, Mode::AtSafe(_)) && !(view.suspended || view.stopper.is_some())
        }
        Entry::End => runs,
        Entry::Asked(env, number, call) => {
            env.0 < limits.envs
                && costs.calls < limits.calls
                && is_well_formed(call)
                && number == costs.asked
        }
        Entry::Stop(env) => {
            env.0 < limits.envs && costs.calls < limits.calls && view.stopper.is_none()
        }
        Entry::Read(env, max_count) => {
            env.0 < limits.envs
                && costs.calls < limits.calls
                && max_count >= 0
                && is_stopper(view.stopper, env)
                && !runs
        }
        Entry::Go(env) => env.0 < limits.envs && is_stopper(view.stopper, env),
    }
}

ghost use Rattle.std.specs.Prelude.{◌≡◌, ◌&&◌};
ghost use Rattle.ti_replay.specs.Answers.{is_running as running_is, is_alive as alive_is};
ghost use Rattle.ti_replay.specs.Legal.{fits as fits_by, step_fits as step_fits_by, newest_is_native as newest_native_is, is_well_formed as well_formed_is, is_stopper as stopper_is, is_new as new_is, is_safe as safe_is};
ghost use Rattle.ti_replay.specs.Settling.{waits as waits_is, is_waiting_call as waiting_call_is, is_hand_over as hand_over_is};
