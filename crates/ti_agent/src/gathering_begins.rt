//! How a trace of several threads begins that is made step by step.

use crate::env::Env;
use crate::gathering::{Gathering, Phase};
use crate::home::Home;
use crate::thread_counts::{all_threads, all_with_one_read, count_each, counted_threads};
use crate::traces::buffers;
use std::alloc::Global;
use ti_trail::GhostList;
use ti_types::{StackInfo, ThreadNo, TiError, TraceBuf};

/// What a trace is made of: the threads to stop and to read, and the memory for the result.
pub(crate) struct Plan {
    stopping: Vec<(ThreadNo, u64)>,
    places: Vec<ThreadNo>,
    max_count: i32,
    is_alive_only: bool,
    bufs: Vec<TraceBuf>,
    infos: Vec<StackInfo>,
}

impl<H: Home> Env<H> {
    /// Takes the memory for a trace. 110 OUT_OF_MEMORY if there is none.
    fn plan(
        &self,
        alloc: Global,
        stopping: Vec<(ThreadNo, u64)>,
        places: Vec<ThreadNo>,
        max_count: i32,
        is_alive_only: bool,
    ) -> Result<Plan, TiError>
        requires asked { IsAsked self.now.env stopping.items places.items max_count }
        ensures planned { IfOk result (λ p. IsPlan self.now.env stopping.items places.items max_count is_alive_only p) }
        ensures memory { IfErr result (λ e. e ≡ OutOfMemory) }
    {
        let bufs = buffers(alloc, places.len(), max_count, self.state.limits().depth)?;
        let infos = Vec::with_capacity(alloc, places.len())?;
        Ok(Plan {
            stopping,
            places,
            max_count,
            is_alive_only,
            bufs,
            infos,
        })
    }

    /// The plan of a trace of all threads.
    fn plan_all(&self, alloc: Global, max_count: i32) -> Result<Plan, TiError>
        ensures admitted { OnOk result (refusal_of_all self.now.env.state max_count ≡ None) }
        ensures planned { IfOk result (λ p. IsPlan self.now.env (all_once (length self.now.env.desks)) (each_thread (length self.now.env.desks)) max_count true p) }
        ensures refused { IfErr result (λ e. Some e ≡ or_else (refusal_of_all self.now.env.state max_count) (Some OutOfMemory)) }
    {
        let count = self.admit_all(max_count)?;
        let places = all_threads(alloc, count)?;
        let stopping = all_with_one_read(alloc, count)?;
        self.plan(alloc, stopping, places, max_count, true)
    }

    /// The plan of a trace of the threads of a list.
    fn plan_list(
        &self,
        alloc: Global,
        threads: &[ThreadNo],
        max_count: i32,
    ) -> Result<Plan, TiError>
        ensures admitted { OnOk result (refusal_of_list self.now.env.state (places_of self.now.env.desks threads.now) max_count ≡ None) }
        ensures paid { OnOk result (refusal_of_counted self.now.env.state (places_of self.now.env.desks threads.now) ≡ None) }
        ensures planned { IfOk result (λ p. IsPlan self.now.env (each_once (length self.now.env.desks) (places_of self.now.env.desks threads.now)) (places_of self.now.env.desks threads.now) max_count false p) }
        ensures refused { IfErr result (λ e. IsListRefused self.now.env.state (places_of self.now.env.desks threads.now) max_count e) }
    {
        self.admit_list(threads, max_count)?;
        let places = self.places(alloc, threads)?;
        let counts = count_each(alloc, &self.state, &places)?;
        let stopping = counted_threads(alloc, counts)?;
        self.plan(alloc, stopping, places, max_count, false)
    }

    /// A trace by this plan. Nothing is stopped yet.
    fn begin(self, plan: Plan) -> Gathering<H>
        requires { IsPlan self.env plan.stopping.items plan.places.items plan.max_count plan.is_alive_only plan }
        ensures home { result.home ≡ self.home }
        ensures begins { Begins self.env result.trace plan.stopping.items plan.places.items plan.max_count plan.is_alive_only }
    {
        let began = GhostList::new().and(&self);
        let Env {
            home,
            env,
            state,
            desks,
        } = self;
        let Plan {
            stopping,
            places,
            max_count,
            is_alive_only,
            bufs,
            infos,
        } = plan;
        Gathering {
            home,
            env,
            state,
            desks,
            stopping,
            places,
            max_count,
            is_alive_only,
            bufs,
            infos,
            phase: Phase::Stopping(0),
            began,
        }
    }

    /// Begins GetAllStackTraces (JVM TI 11), which is then made step by step (this profile). It tells of the threads that the
    /// environment has desks at now, as far as they are alive, in the order of their numbers. There are at most `max_count`
    /// frames of each, the newest first.
    ///
    /// All memory is taken here. Nothing is stopped yet. The trace spends two calls at each thread: one for its stop and one
    /// for its read.
    ///
    /// The errors, in this order:
    ///
    /// - 103 ILLEGAL_ARGUMENT: `max_count` is negative.
    /// - 209 CALLS_SPENT: a thread has fewer than two calls left.
    /// - 110 OUT_OF_MEMORY: there is no memory for the result.
    ///
    /// Then the environment comes back as it was.
    ///
    /// # Examples
    ///
    /// ```rattle
    /// # use ti_agent::{Env, FreeDesk};
    /// # use ti_handshake::{Polled, SharedCell};
    /// # use ti_types::{Answer, EnvNo, Limits, MethodNo, Step, ThreadNo, TiError};
    /// # let (alloc, thread) = (rt.alloc(), ThreadNo(0));
    /// # let limits = Limits::new(1, 1, 4, 16, 8).ok_or("the limits are in range")?;
    /// # let (_cell, fresh, mut desks) = SharedCell::make(alloc, limits, thread)?;
    /// # let mut running = fresh.start(&rt);
    /// # running.step(Step::Enter(MethodNo(3)))?;
    /// # let desk = desks.pop().ok_or("there is one environment")?;
    /// # let free = FreeDesk::new(desk).ok().ok_or("the desk is new")?;
    /// # let mut env = Env::with_no_desks(alloc, EnvNo(0), limits);
    /// # assert!(rt; env.add_desk(free).is_ok());
    /// let Ok(mut trace) = env.gather_all_stack_traces(alloc, 8) else {
    ///     return Err("there is memory".into());
    /// };
    /// // The thread is stopped. It runs on until it polls.
    /// while trace.step().is_ok() {}
    /// assert!(rt; trace.step() == Err(TiError::StillRunning));
    /// assert!(rt; matches!(running.poll_now(), Ok(Polled::Held(_))));
    /// let (_env, told) = loop {
    ///     let _ = trace.step();
    ///     match trace.finish() {
    ///         Ok(ended) => break ended,
    ///         Err(rest) => trace = rest,
    ///     }
    /// };
    /// let told = told.ok_or("it was not given up")?;
    /// assert!(rt; told.len() == 1 && told[0].thread == thread);
    /// assert!(rt; told[0].frames.frames()[0].method == MethodNo(3));
    /// ```
    pub fn gather_all_stack_traces(
        self,
        alloc: Global,
        max_count: i32,
    ) -> Result<Gathering<H>, (TiError, Env<H>)>
        ensures admitted { OnOk result (refusal_of_all self.env.state max_count ≡ None) }
        ensures begins { IfOk result (λ g. Begins self.env g.trace (all_once (length self.env.desks)) (each_thread (length self.env.desks)) max_count true) }
        ensures home { IfOk result (λ g. g.home ≡ self.home) }
        ensures refused { IfErr result (λ r. Some r.0 ≡ or_else (refusal_of_all self.env.state max_count) (Some OutOfMemory)) }
        ensures back { IfErr result (λ r. r.1 ≡ self) }
    {
        match self.plan_all(alloc, max_count) {
            Ok(plan) => Ok(self.begin(plan)),
            Err(error) => Err((error, self)),
        }
    }

    /// Begins GetThreadListStackTraces (JVM TI 11), which is then made step by step (this profile). It tells of each thread
    /// of a list, in the list's order. There are at most `max_count` frames of each, the newest first.
    ///
    /// A thread that is not alive has no frames. A thread that is in the list more than once is stopped once, and read for
    /// each element. All memory is taken here. Nothing is stopped yet. The trace spends one call at each thread for its stop,
    /// and one for each of its reads.
    ///
    /// The errors, in this order:
    ///
    /// - 10 INVALID_THREAD: there is no desk at one of them.
    /// - 103 ILLEGAL_ARGUMENT: `max_count` is negative.
    /// - 110 OUT_OF_MEMORY: there is no memory for the list of their places, or to count how often each thread is in it.
    /// - 209 CALLS_SPENT: a thread has fewer calls left than its stop and its reads cost.
    /// - 110 OUT_OF_MEMORY: there is no memory for the result.
    ///
    /// Then the environment comes back as it was.
    pub fn gather_thread_list_stack_traces(
        self,
        alloc: Global,
        threads: &[ThreadNo],
        max_count: i32,
    ) -> Result<Gathering<H>, (TiError, Env<H>)>
        ensures admitted { OnOk result (refusal_of_list self.env.state (places_of self.env.desks threads.now) max_count ≡ None) }
        ensures paid { OnOk result (refusal_of_counted self.env.state (places_of self.env.desks threads.now) ≡ None) }
        ensures begins { IfOk result (λ g. Begins self.env g.trace (each_once (length self.env.desks) (places_of self.env.desks threads.now)) (places_of self.env.desks threads.now) max_count false) }
        ensures home { IfOk result (λ g. g.home ≡ self.home) }
        ensures refused { IfErr result (λ r. IsListRefused self.env.state (places_of self.env.desks threads.now) max_count r.0) }
        ensures back { IfErr result (λ r. r.1 ≡ self) }
    {
        match self.plan_list(alloc, threads, max_count) {
            Ok(plan) => Ok(self.begin(plan)),
            Err(error) => Err((error, self)),
        }
    }
}

ghost use Rattle.std.specs.Prelude.{◌≡◌, true, false, length, None, Some, IfOk, IfErr, OnOk};
ghost use Rattle.ti_types.specs.declared.error.TiError.TheVariants.{OutOfMemory};
ghost use Rattle.ti_types.specs.Refusing.{or_else};
ghost use Rattle.ti_agent.specs.Env.{places_of};
ghost use Rattle.ti_agent.specs.Gathering.{Begins, IsAsked};
ghost use Rattle.ti_agent.specs.Plan.{IsPlan};
ghost use Rattle.ti_agent.specs.Traces.{all_once, each_once, each_thread, refusal_of_all, refusal_of_list, refusal_of_counted, IsListRefused};
