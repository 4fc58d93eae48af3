//! The stops as a whole.

use crate::call::{StopCall, StopReply};
use crate::error::StopError;
use crate::kind::StopKind;
use crate::lists::{
    Arrival, Breakpoint, Mode, Pop, Waiting, add_stops, drop_mode, has_breakpoint, has_pop, is_due,
    is_target, is_told_at, is_waiting, may_stop_in, put_env, stops_for, tell_next,
};
use crate::stop::Stop;
use std::alloc::Global;
use std::marker::Model;
use ti_types::{EnvNo, Frame, MethodNo, ThreadNo};

/// Where environments want threads to stop, and which threads wait for them. Contracts see it as `StopsNow`.
#[derive(Drop)]
pub struct Stops {
    /// The environments that enabled something, each once, in the order in which they first did.
    envs: Vec<EnvNo>,
    modes: Vec<Mode>,
    breakpoints: Vec<Breakpoint>,
    pops: Vec<Pop>,
    /// Who waits for whom, the longest first.
    waiting: Vec<Waiting>,
}

impl Model for Stops {
    ghost use Rattle.ti_stops.specs.Stops.{StopsNow};

    ghost Value = { StopsNow };

    ghost view = { λ s. record {
      envs = s.envs.items;
      modes = s.modes.items;
      breakpoints = s.breakpoints.items;
      pops = s.pops.items;
      waiting = s.waiting.items;
    } };
}

impl Stops {
    /// Nobody asked for anything, and nobody waits. It takes no memory.
    pub fn new(alloc: Global) -> Stops
        ensures { result ≡ no_stops }
    {
        Stops {
            envs: Vec::new(alloc),
            modes: Vec::new(alloc),
            breakpoints: Vec::new(alloc),
            pops: Vec::new(alloc),
            waiting: Vec::new(alloc),
        }
    }

    /// Whether an environment hears of anything. If none does, no thread stops.
    pub fn is_watched(&self) -> bool
        ensures { result ≡ is_watched self.now }
    {
        !self.modes.is_empty()
    }

    /// One call, by an environment or by whoever is none. `StopCall` says what each call does.
    ///
    /// An `Err` changes nothing:
    ///
    /// - 13 THREAD_NOT_SUSPENDED: at `LetGo`, the thread does not wait for the environment, or the environment was not told of
    ///   it yet.
    /// - 40 DUPLICATE: the environment has this breakpoint, or waits for this pop already.
    /// - 41 NOT_FOUND: at `ClearBreakpoint`, the environment has no such breakpoint.
    /// - 110 OUT_OF_MEMORY: there is no memory for what the call would change. `Disable`, `ClearBreakpoint`, `Next`, `LetGo`,
    ///   `IsStopped` and `MayStopIn` need none.
    /// - 116 INVALID_ENVIRONMENT: an environment's call by whoever is none.
    ///
    /// An answer that is no news (`StopReply::is_news`) changes nothing either.
    pub fn call(&mut self, env: Option<EnvNo>, call: StopCall) -> Result<StopReply, StopError>
        ensures outcome { IfOk result (λ r. outcome self.old env call ≡ Ok r) }
        ensures after { IfOk result (λ r. self.new ≡ (if is_news r then after self.old env call else self.old)) }
        ensures refused { IfErr result (λ e. LacksMemory self.old env call e ⊎ (outcome self.old env call ≡ Err e)) }
        ensures unchanged { OnErr result (self.new ≡ self.old) }
    {
        match (call, env) {
            (StopCall::Reached(thread, at), _) => self.reached(thread, at),
            (StopCall::Leaves(thread, at, frames), _) => self.leaves(thread, at, frames),
            (StopCall::IsStopped(thread), _) => {
                Ok(StopReply::Waits(is_waiting(&self.waiting, thread)))
            }
            (StopCall::MayStopIn(thread, first, count), _) => {
                Ok(StopReply::Waits(self.may_stop_in(thread, first, count)))
            }
            (_, None) => Err(StopError::InvalidEnvironment),
            (StopCall::Enable(kind, thread), Some(env)) => self.enable(env, kind, thread),
            (StopCall::Disable(kind, thread), Some(env)) => {
                drop_mode(&mut self.modes, env, kind, thread);
                Ok(StopReply::Done)
            }
            (StopCall::SetBreakpoint(at), Some(env)) => self.set_breakpoint(env, at),
            (StopCall::ClearBreakpoint(at), Some(env)) => self.clear_breakpoint(env, at),
            (StopCall::NotifyFramePop(thread, frames), Some(env)) => {
                self.notify_frame_pop(env, thread, frames)
            }
            (StopCall::Next, Some(env)) => Ok(StopReply::Told(self.next(env))),
            (StopCall::LetGo(thread), Some(env)) => self.let_go(env, thread),
        }
    }

    fn may_stop_in(&self, thread: ThreadNo, first: MethodNo, count: u32) -> bool
        ensures { result ≡ may_stop_in self.now thread first count }
    {
        let (modes, breakpoints, pops) = (&self.modes, &self.breakpoints, &self.pops);
        may_stop_in(modes, breakpoints, pops, thread, first, count, &self.envs)
    }

    fn enable(
        &mut self,
        env: EnvNo,
        kind: StopKind,
        thread: Option<ThreadNo>,
    ) -> Result<StopReply, StopError>
        ensures { Obeys self.old self.new (Some env) (Enable kind thread) result }
    {
        self.modes.reserve(1)?;
        put_env(&mut self.envs, env)?;
        drop_mode(&mut self.modes, env, kind, thread);
        self.modes.push_reserved(Mode { env, kind, thread });
        Ok(StopReply::Done)
    }

    fn set_breakpoint(&mut self, env: EnvNo, at: Frame) -> Result<StopReply, StopError>
        ensures { Obeys self.old self.new (Some env) (SetBreakpoint at) result }
    {
        if has_breakpoint(&self.breakpoints, env, at) {
            return Err(StopError::Duplicate);
        }
        self.breakpoints.reserve(1)?;
        self.breakpoints.push_reserved(Breakpoint { env, at });
        Ok(StopReply::Done)
    }

    fn clear_breakpoint(&mut self, env: EnvNo, at: Frame) -> Result<StopReply, StopError>
        ensures { Obeys self.old self.new (Some env) (ClearBreakpoint at) result }
    {
        if !has_breakpoint(&self.breakpoints, env, at) {
            return Err(StopError::NotFound);
        }
        self.breakpoints
            .retain(|breakpoint| !breakpoint.is_it(env, at));
        Ok(StopReply::Done)
    }

    fn notify_frame_pop(
        &mut self,
        env: EnvNo,
        thread: ThreadNo,
        frames: u32,
    ) -> Result<StopReply, StopError>
        ensures { Obeys self.old self.new (Some env) (NotifyFramePop thread frames) result }
    {
        if has_pop(&self.pops, env, thread, frames) {
            return Err(StopError::Duplicate);
        }
        self.pops.reserve(1)?;
        self.pops.push_reserved(Pop {
            env,
            thread,
            frames,
        });
        Ok(StopReply::Done)
    }

    fn next(&mut self, env: EnvNo) -> Option<Stop>
        ensures { Obeys self.old self.new (Some env) Next (Ok (Told result)) }
    {
        tell_next(self.waiting.as_mut_slice(), env)
    }

    fn let_go(&mut self, env: EnvNo, thread: ThreadNo) -> Result<StopReply, StopError>
        ensures { Obeys self.old self.new (Some env) (LetGo thread) result }
    {
        if !is_told_at(&self.waiting, env, thread) {
            return Err(StopError::ThreadNotSuspended);
        }
        self.waiting.retain(|one| !one.is_told_at(env, thread));
        Ok(StopReply::Done)
    }

    fn reached(&mut self, thread: ThreadNo, at: Frame) -> Result<StopReply, StopError>
        ensures { Obeys self.old self.new None (Reached thread at) result }
    {
        Ok(StopReply::Stops(self.arrive(Arrival {
            thread,
            at,
            leaves: None,
        })?))
    }

    fn leaves(&mut self, thread: ThreadNo, at: Frame, frames: u32) -> Result<StopReply, StopError>
        ensures { Obeys self.old self.new None (Leaves thread at frames) result }
    {
        let stops = self.arrive(Arrival {
            thread,
            at,
            leaves: Some(frames),
        })?;
        if stops {
            let (modes, envs) = (&self.modes, &self.envs);
            self.pops
                .retain(|pop| !is_due(modes, envs, thread, frames, pop));
        }
        Ok(StopReply::Stops(stops))
    }

    /// A thread comes somewhere, and waits for each environment that wants it to stop there. Whether there is one. 110 OUT_OF_MEMORY if
    /// there is no memory to note it. Then nothing changes.
    fn arrive(&mut self, arrival: Arrival) -> Result<bool, StopError>
        ensures stops { IfOk result (λ b. b ≡ stops_for (stop_in self.old arrival) self.old.envs) }
        ensures after { IfOk result (λ b. self.new ≡ (if b then arrived self.old arrival else self.old)) }
        ensures refused { IfErr result (λ e. (e ≡ OutOfMemory) × (stops_for (stop_in self.old arrival) self.old.envs ≡ true)) }
        ensures unchanged { OnErr result (self.new ≡ self.old) }
    {
        if !stops_for(
            &self.modes,
            &self.breakpoints,
            &self.pops,
            arrival,
            &self.envs,
        ) {
            return Ok(false);
        }
        self.waiting.reserve(self.envs.len())?;
        add_stops(
            &self.modes,
            &self.breakpoints,
            &self.pops,
            arrival,
            &self.envs,
            &mut self.waiting,
        );
        Ok(true)
    }

    /// An environment is disposed of: nothing that it asked for is left, and nobody waits for it.
    pub fn leave(&mut self, env: EnvNo)
        ensures { self.new ≡ without_env self.old env }
    {
        self.envs.retain(|one| one.0 != env.0);
        self.modes.retain(|mode| mode.env.0 != env.0);
        self.breakpoints
            .retain(|breakpoint| breakpoint.env.0 != env.0);
        self.pops.retain(|pop| pop.env.0 != env.0);
        self.waiting.retain(|one| one.env.0 != env.0);
    }

    /// A thread has ended: nothing that was asked of exactly this thread is left, and it waits for nobody.
    pub fn end_thread(&mut self, thread: ThreadNo)
        ensures { self.new ≡ without_thread self.old thread }
    {
        self.modes.retain(|mode| !is_target(thread, mode.thread));
        self.pops.retain(|pop| pop.thread.0 != thread.0);
        self.waiting.retain(|one| one.stop.thread.0 != thread.0);
    }
}

ghost use Rattle.std.specs.Prelude.{◌≡◌, ◌⊎◌, if◌then◌else◌, true, Some, None, Ok, IfOk, IfErr, OnErr};
ghost use Rattle.ti_stops.specs.declared.error.StopError.TheVariants.{OutOfMemory};
ghost use Rattle.ti_stops.specs.declared.call.StopCall.TheVariants.{ClearBreakpoint, Enable, Leaves, LetGo, Next, NotifyFramePop, Reached, SetBreakpoint};
ghost use Rattle.ti_stops.specs.declared.call.StopReply.TheVariants.{Told};
ghost use Rattle.ti_stops.specs.Arrivals.{arrived, stop_in};
ghost use Rattle.ti_stops.specs.Stops.{LacksMemory, Obeys, after, is_news, is_watched, may_stop_in, no_stops, outcome, stops_for, without_env, without_thread};
