//! Calls for a list of threads that never wait: each is posted if its thread's cell is free.

use crate::env::Env;
use crate::home::Home;
use std::alloc::Global;
use ti_slot::Asked;
use ti_types::{Call, ThreadNo, TiError, needs};

impl<H: Home> Env<H> {
    /// Tries a call at each thread, in the list's order.
    fn each_now(
        &mut self,
        alloc: Global,
        call: Call,
        threads: &[ThreadNo],
    ) -> Result<Vec<Result<Asked, TiError>>, TiError>
        requires bare { takes_buffer call ≡ false }
        ensures each { IfOk result (λ all. TriesEach self.old.env self.new.env call threads.now all.items) }
        ensures capable { OnOk result (has_all self.old.env.state.caps (needed_by call) ≡ true) }
        ensures refused { IfErr result (λ e. (e ≡ (if has_all self.old.env.state.caps (needed_by call) then OutOfMemory else MustPossessCapability)) × (self.new ≡ self.old)) }
        ensures home { self.new.home ≡ self.old.home }
    {
        if !self.holds(needs(call)) {
            return Err(TiError::MustPossessCapability);
        }
        let mut tried = Vec::with_capacity(alloc, threads.len())?;
        for thread in threads {
            tried.push_reserved(self.post_now(alloc, *thread, call));
        }
        Ok(tried)
    }

    /// SuspendThreadList (JVM TI 11), but it never waits (this profile). It tries to post a suspension at each thread, in the
    /// list's order, by one try at its cell. It gives for each what `post_now` gives:
    ///
    /// - the thread's answer, which is 14 or 15 if it refuses;
    /// - a ticket, if the thread runs: `collect_now` has the answer later;
    /// - an error, and then nothing changed at that thread: 10 INVALID_THREAD, 15 THREAD_NOT_ALIVE, 209 CALLS_SPENT, 216
    ///   (this profile: `Full`) if `window` calls are out there, 215 BUSY if its cell is in use.
    ///
    /// The whole call is refused with 99 MUST_POSSESS_CAPABILITY, and then with 110 if there is no memory for the list. Then
    /// nothing was tried.
    ///
    /// # Examples
    ///
    /// ```rattle
    /// # use ti_agent::{Env, FreeDesk};
    /// # use ti_handshake::{Polled, SharedCell};
    /// # use ti_slot::Asked;
    /// # use ti_types::{Answer, Caps, EnvNo, Limits, ThreadNo, TiError};
    /// # let (alloc, thread) = (rt.alloc(), ThreadNo(0));
    /// # let limits = Limits::new(1, 1, 4, 16, 8).ok_or("the limits are in range")?;
    /// # let (_cell, fresh, mut desks) = SharedCell::make(alloc, limits, thread)?;
    /// # let desk = desks.pop().ok_or("there is one environment")?;
    /// # let running = fresh.start(&rt);
    /// # let free = FreeDesk::new(desk).ok().ok_or("the desk is new")?;
    /// # let mut env = Env::with_no_desks(alloc, EnvNo(0), limits);
    /// # assert!(rt; env.add_desk(free).is_ok());
    /// # env.add_capabilities(Caps::CAN_SUSPEND)?;
    /// let mut tried = env.suspend_thread_list_now(alloc, &[ThreadNo(7), thread])?;
    /// let Some(Ok(Asked::Waiting(ticket))) = tried.pop() else {
    ///     return Err("a running thread is suspended at its next poll".into());
    /// };
    /// assert!(rt; matches!(tried.pop(), Some(Err(TiError::InvalidThread))));
    /// let Ok(Polled::Held(_safe)) = running.poll_now() else {
    ///     return Err("the thread stays at its poll".into());
    /// };
    /// assert!(rt; matches!(env.collect_now(ticket)?, Some(Answer::Done)));
    /// let mut tried = env.resume_thread_list_now(alloc, &[thread])?;
    /// assert!(rt; matches!(tried.pop(), Some(Ok(Asked::Answered(Answer::Done)))));
    /// ```
    pub fn suspend_thread_list_now(
        &mut self,
        alloc: Global,
        threads: &[ThreadNo],
    ) -> Result<Vec<Result<Asked, TiError>>, TiError>
        ensures each { IfOk result (λ all. TriesEach self.old.env self.new.env call.Suspend threads.now all.items) }
        ensures capable { OnOk result (has_all self.old.env.state.caps (needed_by call.Suspend) ≡ true) }
        ensures refused { IfErr result (λ e. (e ≡ (if has_all self.old.env.state.caps (needed_by call.Suspend) then OutOfMemory else MustPossessCapability)) × (self.new ≡ self.old)) }
        ensures home { self.new.home ≡ self.old.home }
    {
        self.each_now(alloc, Call::Suspend, threads)
    }

    /// ResumeThreadList (JVM TI 11), but it never waits (this profile). It is as `suspend_thread_list_now`. A thread's answer
    /// is 13 or 15 if it refuses, and comes at once: a resumption gets no ticket.
    pub fn resume_thread_list_now(
        &mut self,
        alloc: Global,
        threads: &[ThreadNo],
    ) -> Result<Vec<Result<Asked, TiError>>, TiError>
        ensures each { IfOk result (λ all. TriesEach self.old.env self.new.env call.Resume threads.now all.items) }
        ensures capable { OnOk result (has_all self.old.env.state.caps (needed_by call.Resume) ≡ true) }
        ensures refused { IfErr result (λ e. (e ≡ (if has_all self.old.env.state.caps (needed_by call.Resume) then OutOfMemory else MustPossessCapability)) × (self.new ≡ self.old)) }
        ensures home { self.new.home ≡ self.old.home }
    {
        self.each_now(alloc, Call::Resume, threads)
    }
}

ghost use Rattle.std.specs.Prelude.{◌≡◌, true, false, if◌then◌else◌, IfOk, IfErr, OnOk};
ghost use Rattle.ti_types.specs.Call.{needed_by};
ghost use Rattle.ti_types.specs.Caps.{has_all};
ghost use Rattle.ti_types.specs.declared.call.Call.TheVariants as call;
ghost use Rattle.ti_types.specs.declared.error.TiError.TheVariants.{OutOfMemory, MustPossessCapability};
ghost use Rattle.ti_replay.specs.Admission.{takes_buffer};
ghost use Rattle.ti_agent.specs.ListTries.{TriesEach};
