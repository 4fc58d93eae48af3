//! A trace of several threads that is made step by step, by calls that never wait.

use crate::env::Env;
use crate::home::{Alone, Home};
use std::marker::Model;
use ti_chunked::Chunked;
use ti_env::EnvState;
use ti_handshake::Desk;
use ti_trail::GhostList;
use ti_types::{EnvNo, StackInfo, ThreadNo, TraceBuf};

/// How far a trace of several threads has come.
#[derive(Clone, Copy)]
pub enum Phase {
    /// So many of the threads are stopped.
    Stopping(usize),
    /// All are stopped. So many of them were seen standing.
    Seeing(usize),
    /// All were seen standing. They are read.
    Reading,
    /// All were read. So many of the threads are let go.
    LettingGo(usize),
    /// It was given up when so many were stopped. So many of these are let go.
    GivingUp(usize, usize),
}

/// A trace of several threads that is being made, with the environment that makes it, and its home (this profile).
///
/// `Gathering::step` goes on with it, and never waits. First each thread is stopped, then each is seen standing, then each is
/// read, and then each is let go. `Gathering::finish` gives the environment back, with what was read.
///
/// Threads are stopped in the order of their numbers. So two environments that make such traces do not bar one another, if
/// both go on with them. While it is there, the threads that it has stopped do not run. So it has to be brought to its end:
/// dropping it is a compile error.
///
/// Steps wake nobody, as all calls that never wait. If threads that were let go may sleep, `Env::wake_sleepers_at` wakes them
/// afterwards.
pub struct Gathering<H: Home = Alone> {
    pub(crate) home: H,
    pub(crate) env: EnvNo,
    pub(crate) state: EnvState,
    pub(crate) desks: Chunked<Desk>,
    /// The places of the threads to stop, each with its reads to come, in their order.
    pub(crate) stopping: Vec<(ThreadNo, u64)>,
    /// The places of the threads to read, in the order of the result.
    pub(crate) places: Vec<ThreadNo>,
    pub(crate) max_count: i32,
    /// Whether only threads that are alive are told of.
    pub(crate) is_alive_only: bool,
    pub(crate) bufs: Vec<TraceBuf>,
    pub(crate) infos: Vec<StackInfo>,
    pub(crate) phase: Phase,
    /// The environment when it began.
    pub(crate) began: GhostList<Env<H>>,
}

impl<H: Home> Model for Gathering<H> {
    ghost use Rattle.std.specs.Prelude.{◌≤◌, length, vec_capacity};
    ghost use Rattle.std.specs.List.{All};
    ghost use Rattle.ti_agent.specs.Gathering.{IsAtWork};
    ghost use Rattle.ti_agent.specs.Home.{IsAtHome};
    ghost use Rattle.ti_agent.specs.HousedTrace.{HousedTrace, envs_of};

    ghost Value = { HousedTrace H };

    ghost view = { λ g. record { home = g.home; trace = record { began = envs_of g.began.items; now = record { env = g.env; state = g.state; desks = g.desks }; stopping = g.stopping.items; places = g.places.items; max_count = g.max_count; is_alive_only = g.is_alive_only; bufs = g.bufs.items; infos = g.infos.items; phase = g.phase } } };

    ghost invariant = { λ g. IsAtWork (record { began = envs_of g.began.items; now = record { env = g.env; state = g.state; desks = g.desks }; stopping = g.stopping.items; places = g.places.items; max_count = g.max_count; is_alive_only = g.is_alive_only; bufs = g.bufs.items; infos = g.infos.items; phase = g.phase }) × (length g.places.items ≤ vec_capacity g.infos) × All (IsAtHome H.about H.holds g.home) (envs_of g.began.items) };
}

/// What is told of the threads that were read: of all, or only of those that are alive.
fn told(infos: Vec<StackInfo>, is_alive_only: bool) -> Vec<StackInfo>
    ensures { result.items ≡ (if is_alive_only then filter (λ x. is_alive x.state) infos.items else infos.items) }
{
    let mut infos = infos;
    if is_alive_only {
        infos.retain(|info: &StackInfo| info.state & 1 == 1);
    }
    infos
}

impl<H: Home> Gathering<H> {
    /// What is always true of it: the environment that began it, and each of its desks, may be in its home.
    pub fn facts(&self)
        ensures { All (IsAtHome H.about H.holds self.now.home) self.now.trace.began }
    {
        let _ = &self.bufs;
    }

    /// Whether it was given up.
    pub fn is_given_up(&self) -> bool
        ensures { result ≡ is_given_up self.now.trace.phase }
    {
        matches!(self.phase, Phase::GivingUp(_, _))
    }

    /// Whether it has come to its end: all threads that it stopped are let go.
    pub fn has_ended(&self) -> bool
        ensures { result ≡ has_ended self.now.trace }
    {
        match self.phase {
            Phase::LettingGo(gone) => gone == self.stopping.len(),
            Phase::GivingUp(stopped, gone) => gone == stopped,
            _ => false,
        }
    }

    /// Gives the trace up, if not all of its threads were seen standing yet. From then on each step lets a thread go that it
    /// has stopped. Otherwise the trace goes on to its end.
    ///
    /// Returns whether it is given up.
    pub fn give_up(&mut self) -> bool
        ensures given_up { result ≡ is_given_up self.new.trace.phase }
        ensures same { self.new.trace ≡ given_up self.old.trace }
        ensures home { self.new.home ≡ self.old.home }
    {
        match self.phase {
            Phase::Stopping(stopped) => {
                self.phase = Phase::GivingUp(stopped, 0);
                true
            }
            Phase::Seeing(_) => {
                self.phase = Phase::GivingUp(self.stopping.len(), 0);
                true
            }
            Phase::GivingUp(_, _) => true,
            _ => false,
        }
    }

    /// Gives the environment back in its home, with what was read of each thread that was asked for. `None` if the trace was
    /// given up.
    ///
    /// The error is the trace as it is, if it has not come to its end.
    pub fn finish(self) -> Result<(Env<H>, Option<Vec<StackInfo>>), Gathering<H>>
        ensures ended { OnOk result (has_ended self.trace ≡ true) }
        ensures gathers { IfOk result (λ r. IfSome r.1 (λ infos. Gathers self.trace r.0.env infos.items)) }
        ensures told { IfOk result (λ r. is_some r.1 ≡ not (is_given_up self.trace.phase)) }
        ensures given_up { IfOk result (λ r. IfNone r.1 (GivesUp self.trace r.0.env)) }
        ensures refused { OnErr result (has_ended self.trace ≡ false) }
        ensures back { IfErr result (λ g. g ≡ self) }
        ensures home { IfOk result (λ r. r.0.home ≡ self.home) }
    {
        if !self.has_ended() {
            return Err(self);
        }
        let is_given_up = self.is_given_up();
        let Gathering {
            home,
            env,
            state,
            desks,
            stopping: _,
            places: _,
            max_count: _,
            is_alive_only,
            bufs: _,
            infos,
            phase: _,
            began: _,
        } = self;
        let env = Env {
            home,
            env,
            state,
            desks,
        };
        if is_given_up {
            return Ok((env, None));
        }
        Ok((env, Some(told(infos, is_alive_only))))
    }
}

ghost use Rattle.std.specs.Prelude.{◌≡◌, true, false, not, is_some, if◌then◌else◌, length, IfSome, IfNone, IfOk, IfErr, OnOk, OnErr};
ghost use Rattle.std.specs.List.{All, filter};
ghost use Rattle.ti_agent.specs.Home.{IsAtHome};
ghost use Rattle.ti_agent.specs.Traces.{is_alive};
ghost use Rattle.ti_agent.specs.Gathering.{given_up, has_ended, is_given_up, Gathers, GivesUp};
