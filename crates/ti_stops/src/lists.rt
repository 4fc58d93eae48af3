//! What environments asked for, and who waits for them.

use crate::error::StopError;
use crate::kind::StopKind;
use crate::stop::Stop;
use ti_types::{EnvNo, Frame, MethodNo, Place, ThreadNo};

/// An environment hears of a kind of event, at one thread, or at all.
#[derive(Clone, Copy)]
pub(crate) struct Mode {
    pub(crate) env: EnvNo,
    pub(crate) kind: StopKind,
    pub(crate) thread: Option<ThreadNo>,
}

impl Mode {
    /// Whether it is the environment's of this kind, at exactly this thread, or at all.
    fn is_it(&self, env: EnvNo, kind: StopKind, thread: Option<ThreadNo>) -> bool
        ensures { result ≡ is_mode env kind thread self.now }
    {
        self.env.0 == env.0
            && self.kind.number() == kind.number()
            && is_same_target(self.thread, thread)
    }

    /// Whether the environment hears by it of this kind of event at a thread.
    fn is_heard(&self, env: EnvNo, kind: StopKind, thread: ThreadNo) -> bool
        ensures { result ≡ is_heard env kind thread self.now }
    {
        self.env.0 == env.0 && self.kind.number() == kind.number() && covers(self.thread, thread)
    }
}

/// A breakpoint of an environment.
#[derive(Clone, Copy)]
pub(crate) struct Breakpoint {
    pub(crate) env: EnvNo,
    pub(crate) at: Frame,
}

impl Breakpoint {
    /// Whether it is the environment's at this place.
    pub(crate) fn is_it(&self, env: EnvNo, at: Frame) -> bool
        ensures { result ≡ is_breakpoint env at self.now }
    {
        self.env.0 == env.0 && is_same_frame(self.at, at)
    }

    /// Whether it is the environment's in one of so many methods, from this one on.
    fn is_in(&self, env: EnvNo, first: MethodNo, count: u32) -> bool
        ensures { result ≡ is_breakpoint_in env first count self.now }
    {
        self.env.0 == env.0 && first.0 <= self.at.method.0 && self.at.method.0 - first.0 < count
    }
}

/// An environment is told when a thread leaves the frame that is this many from the oldest, which is 1.
#[derive(Clone, Copy)]
pub(crate) struct Pop {
    pub(crate) env: EnvNo,
    pub(crate) thread: ThreadNo,
    pub(crate) frames: u32,
}

impl Pop {
    /// Whether it is the environment's of this frame of a thread.
    fn is_it(&self, env: EnvNo, thread: ThreadNo, frames: u32) -> bool
        ensures { result ≡ is_pop env thread frames self.now }
    {
        self.env.0 == env.0 && self.thread.0 == thread.0 && self.frames == frames
    }

    /// Whether its frame is the newest of a thread that has so many, or above that.
    pub(crate) fn is_left(&self, thread: ThreadNo, frames: u32) -> bool
        ensures { result ≡ is_left thread frames self.now }
    {
        self.thread.0 == thread.0 && frames <= self.frames
    }

    /// The same, of an environment.
    fn is_popped(&self, env: EnvNo, thread: ThreadNo, frames: u32) -> bool
        ensures { result ≡ is_popped env thread frames self.now }
    {
        self.env.0 == env.0 && self.is_left(thread, frames)
    }
}

/// A stop waits for an environment.
#[derive(Clone, Copy)]
pub(crate) struct Waiting {
    pub(crate) env: EnvNo,
    pub(crate) stop: Stop,
    /// Whether the environment was told of it.
    pub(crate) told: bool,
}

impl Waiting {
    /// Whether it waits for the environment, which was not told of it.
    fn is_untold(&self, env: EnvNo) -> bool
        ensures { result ≡ is_untold env self.now }
    {
        self.env.0 == env.0 && !self.told
    }

    /// Whether a thread waits for the environment, which was told of it.
    pub(crate) fn is_told_at(&self, env: EnvNo, thread: ThreadNo) -> bool
        ensures { result ≡ is_told_at env thread self.now }
    {
        self.env.0 == env.0 && self.stop.thread.0 == thread.0 && self.told
    }
}

fn is_same_place(a: Place, b: Place) -> bool
    ensures { result ≡ is_same_place a b }
{
    match (a, b) {
        (Place::Java(p), Place::Java(q)) => p == q,
        (Place::Native, Place::Native) => true,
        (Place::Java(_), Place::Native) | (Place::Native, Place::Java(_)) => false,
    }
}

fn is_same_frame(a: Frame, b: Frame) -> bool
    ensures { result ≡ is_same_frame a b }
{
    a.method.0 == b.method.0 && is_same_place(a.place, b.place)
}

/// Whether the same thread is meant by both, or all are.
fn is_same_target(a: Option<ThreadNo>, b: Option<ThreadNo>) -> bool
    ensures { result ≡ is_same_target a b }
{
    match (a, b) {
        (Some(t), Some(u)) => t.0 == u.0,
        (None, None) => true,
        (Some(_), None) | (None, Some(_)) => false,
    }
}

/// Whether this thread is meant, or all are.
fn covers(target: Option<ThreadNo>, thread: ThreadNo) -> bool
    ensures { result ≡ covers target thread }
{
    match target {
        Some(t) => t.0 == thread.0,
        None => true,
    }
}

/// Whether exactly this thread is meant.
pub(crate) fn is_target(thread: ThreadNo, target: Option<ThreadNo>) -> bool
    ensures { result ≡ is_target thread target }
{
    match target {
        Some(t) => t.0 == thread.0,
        None => false,
    }
}

impl Stop {
    /// Whether there is a reason for it.
    fn is_stop(&self) -> bool
        ensures { result ≡ is_stop self.now }
    {
        self.breakpoint || self.single_step || self.frame_pop
    }
}

/// Whether an environment is among these.
pub(crate) fn has_env(envs: &[EnvNo], env: EnvNo) -> bool
    ensures { result ≡ list_any (is_env env) envs.now }
{
    envs.iter().any(|one| one.0 == env.0)
}

/// An environment is among these from now on. 110 OUT_OF_MEMORY if there is no memory for it. Then nothing changes.
pub(crate) fn put_env(envs: &mut Vec<EnvNo>, env: EnvNo) -> Result<(), StopError>
    ensures put { OnOk result (envs.new.items ≡ with_env env envs.old.items) }
    ensures memory { IfErr result (λ e. e ≡ OutOfMemory) }
    ensures unchanged { OnErr result (envs.new.items ≡ envs.old.items) }
{
    if !has_env(envs, env) {
        envs.reserve(1)?;
        envs.push_reserved(env);
    }
    Ok(())
}

/// Whether an environment hears of a kind of event at a thread.
pub(crate) fn hears(modes: &[Mode], env: EnvNo, kind: StopKind, thread: ThreadNo) -> bool
    ensures { result ≡ list_any (is_heard env kind thread) modes.now }
{
    modes.iter().any(|mode| mode.is_heard(env, kind, thread))
}

/// Whether the environment of a pop is told of it when a thread leaves its newest frame of so many.
pub(crate) fn is_due(
    modes: &[Mode],
    envs: &[EnvNo],
    thread: ThreadNo,
    frames: u32,
    pop: &Pop,
) -> bool
    ensures { result ≡ (is_left thread frames pop.now && (list_any (is_heard pop.now.env FramePop thread) modes.now && list_any (is_env pop.now.env) envs.now)) }
{
    pop.is_left(thread, frames)
        && hears(modes, pop.env, StopKind::FramePop, thread)
        && has_env(envs, pop.env)
}

/// Whether an environment has a breakpoint at a place.
pub(crate) fn has_breakpoint(breakpoints: &[Breakpoint], env: EnvNo, at: Frame) -> bool
    ensures { result ≡ list_any (is_breakpoint env at) breakpoints.now }
{
    breakpoints
        .iter()
        .any(|breakpoint| breakpoint.is_it(env, at))
}

/// Whether an environment asked for exactly this pop.
pub(crate) fn has_pop(pops: &[Pop], env: EnvNo, thread: ThreadNo, frames: u32) -> bool
    ensures { result ≡ list_any (is_pop env thread frames) pops.now }
{
    pops.iter().any(|pop| pop.is_it(env, thread, frames))
}

/// Whether an environment asked for the pop of the newest frame of a thread that has so many, or of one above it.
pub(crate) fn has_popped(pops: &[Pop], env: EnvNo, thread: ThreadNo, frames: u32) -> bool
    ensures { result ≡ list_any (is_popped env thread frames) pops.now }
{
    pops.iter().any(|pop| pop.is_popped(env, thread, frames))
}

/// Whether a thread waits for anybody.
pub(crate) fn is_waiting(waiting: &[Waiting], thread: ThreadNo) -> bool
    ensures { result ≡ list_any (waits_at thread) waiting.now }
{
    waiting.iter().any(|one| one.stop.thread.0 == thread.0)
}

/// Whether a thread waits for an environment that was told.
pub(crate) fn is_told_at(waiting: &[Waiting], env: EnvNo, thread: ThreadNo) -> bool
    ensures { result ≡ list_any (is_told_at env thread) waiting.now }
{
    waiting.iter().any(|one| one.is_told_at(env, thread))
}

/// Takes out the environment's mode of this kind, at exactly this thread, or at all. There is as much room as before.
pub(crate) fn drop_mode(modes: &mut Vec<Mode>, env: EnvNo, kind: StopKind, thread: Option<ThreadNo>)
    ensures items { modes.new.items ≡ filter (λ m. not (is_mode env kind thread m)) modes.old.items }
    ensures len { vec_len modes.new ≤ vec_len modes.old }
    ensures capacity { vec_capacity modes.new ≡ vec_capacity modes.old }
{
    modes.retain(|mode| !mode.is_it(env, kind, thread));
}

/// Tells an environment of the stop that has waited longest for it, of those that it was not told of.
pub(crate) fn tell_next(waiting: &mut [Waiting], env: EnvNo) -> Option<Stop>
    ensures told { result ≡ next_stop env waiting.old }
    ensures list { waiting.new ≡ next_told env waiting.old }
    ensures none { IfNone result (waiting.new ≡ waiting.old) }
{
    for i in 0..waiting.len() {
        if waiting[i].is_untold(env) {
            waiting[i].told = true;
            return Some(waiting[i].stop);
        }
    }
    None
}

/// Where a thread comes to: it reached a place, or it is about to leave its newest frame there, and has so many frames.
#[derive(Clone, Copy)]
pub(crate) struct Arrival {
    pub(crate) thread: ThreadNo,
    pub(crate) at: Frame,
    pub(crate) leaves: Option<u32>,
}

/// The stop of a thread for an environment. There may be no reason for it.
pub(crate) fn stop_by(
    modes: &[Mode],
    breakpoints: &[Breakpoint],
    pops: &[Pop],
    arrival: Arrival,
    env: EnvNo,
) -> Stop
    ensures { result ≡ stop_by (asked modes.now breakpoints.now pops.now) arrival env }
{
    let Arrival { thread, at, leaves } = arrival;
    match leaves {
        Some(frames) => Stop {
            thread,
            at,
            breakpoint: false,
            single_step: false,
            frame_pop: has_popped(pops, env, thread, frames)
                && hears(modes, env, StopKind::FramePop, thread),
        },
        None => Stop {
            thread,
            at,
            breakpoint: has_breakpoint(breakpoints, env, at)
                && hears(modes, env, StopKind::Breakpoint, thread),
            single_step: hears(modes, env, StopKind::SingleStep, thread),
            frame_pop: false,
        },
    }
}

/// Whether a thread stops for one of these environments.
pub(crate) fn stops_for(
    modes: &[Mode],
    breakpoints: &[Breakpoint],
    pops: &[Pop],
    arrival: Arrival,
    envs: &[EnvNo],
) -> bool
    ensures { result ≡ stops_for (stop_by (asked modes.now breakpoints.now pops.now) arrival) envs.now }
{
    envs.iter().any(|env| stop_by(modes, breakpoints, pops, arrival, *env).is_stop())
}

/// Whether an environment has a breakpoint in one of so many methods, from this one on.
fn has_breakpoint_in(breakpoints: &[Breakpoint], env: EnvNo, first: MethodNo, count: u32) -> bool
    ensures { result ≡ list_any (is_breakpoint_in env first count) breakpoints.now }
{
    breakpoints
        .iter()
        .any(|breakpoint| breakpoint.is_in(env, first, count))
}

/// Whether an environment asked for the pop of a frame of a thread.
fn has_pop_at(pops: &[Pop], env: EnvNo, thread: ThreadNo) -> bool
    ensures { result ≡ list_any (is_own_pop_at env thread) pops.now }
{
    pops.iter()
        .any(|pop| pop.env.0 == env.0 && pop.thread.0 == thread.0)
}

/// Whether a thread may have to stop for an environment in one of so many methods, from this one on.
fn may_stop_by(
    modes: &[Mode],
    breakpoints: &[Breakpoint],
    pops: &[Pop],
    thread: ThreadNo,
    first: MethodNo,
    count: u32,
    env: EnvNo,
) -> bool
    ensures { result ≡ may_stop_by (asked modes.now breakpoints.now pops.now) thread first count env }
{
    let breaks = has_breakpoint_in(breakpoints, env, first, count)
        && hears(modes, env, StopKind::Breakpoint, thread);
    let steps = hears(modes, env, StopKind::SingleStep, thread);
    let pops = has_pop_at(pops, env, thread) && hears(modes, env, StopKind::FramePop, thread);
    breaks || steps || pops
}

/// The same, for one of these environments.
pub(crate) fn may_stop_in(
    modes: &[Mode],
    breakpoints: &[Breakpoint],
    pops: &[Pop],
    thread: ThreadNo,
    first: MethodNo,
    count: u32,
    envs: &[EnvNo],
) -> bool
    ensures { result ≡ list_any (may_stop_by (asked modes.now breakpoints.now pops.now) thread first count) envs.now }
{
    envs.iter().any(|env| may_stop_by(modes, breakpoints, pops, thread, first, count, *env))
}

/// Adds the stops of a thread for these environments. There has to be room for them.
pub(crate) fn add_stops(
    modes: &[Mode],
    breakpoints: &[Breakpoint],
    pops: &[Pop],
    arrival: Arrival,
    envs: &[EnvNo],
    waiting: &mut Vec<Waiting>,
)
    requires room { vec_len waiting.old + length envs.now ≤ vec_capacity waiting.old }
    ensures { waiting.new.items ≡ waiting.old.items ++ waits_by (stop_by (asked modes.now breakpoints.now pops.now) arrival) envs.now }
{
    for i in 0..envs.len() {
        let env = envs[i];
        let stop = stop_by(modes, breakpoints, pops, arrival, env);
        if stop.is_stop() {
            waiting.push_reserved(Waiting {
                env,
                stop,
                told: false,
            });
        }
    }
}

ghost use Rattle.ti_stops.specs.declared.kind.StopKind.TheVariants.{FramePop};
ghost use Rattle.std.specs.Prelude.{◌&&◌, ◌≡◌, ◌≤◌, ◌+◌, ◌++◌, not, length, filter, vec_len, vec_capacity, IfErr, IfNone, OnErr, OnOk};
ghost use Rattle.ti_stops.specs.declared.error.StopError.TheVariants.{OutOfMemory};
ghost use Rattle.std.specs.List.{list_any};
ghost use Rattle.ti_stops.specs.Arrivals.{asked, stop_by};
ghost use Rattle.ti_stops.specs.Lists.{covers, is_breakpoint, is_breakpoint_in, is_env, is_heard, is_left, is_mode, is_own_pop_at, is_pop, is_popped, is_same_frame, is_same_place, is_same_target, is_target, is_told_at, is_untold, next_stop, next_told, waits_at};
ghost use Rattle.ti_stops.specs.Stops.{is_stop, may_stop_by, stops_for, waits_by, with_env};
