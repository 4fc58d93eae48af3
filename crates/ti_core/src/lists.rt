//! Events for all threads and for lists of them, one after another.

use crate::engine::Core;
use std::alloc::Global;
use ti_types::{Call, EnvNo, Event, Outcome, ThreadNo, TiError};

/// What is asked at each thread of a list.
#[derive(Clone, Copy)]
enum AtEach {
    Suspend,
    Resume,
    Stop,
    Read(i32),
    Go,
}

impl AtEach {
    fn event(self, env: EnvNo, thread: ThreadNo) -> Event
        ensures { result ≡ event_at env self thread }
    {
        match self {
            AtEach::Suspend => Event::Ask(env, thread, Call::Suspend),
            AtEach::Resume => Event::Ask(env, thread, Call::Resume),
            AtEach::Stop => Event::Stop(env, thread),
            AtEach::Read(max_count) => Event::Read(env, thread, max_count),
            AtEach::Go => Event::Go(env, thread),
        }
    }
}

impl Core {
    /// Makes one event for each thread. The room for all outcomes is made before the first.
    fn each(
        &mut self,
        alloc: Global,
        env: EnvNo,
        asked: AtEach,
        threads: &[ThreadNo],
    ) -> Result<Vec<Outcome>, TiError>
        ensures each { IfOk result (λ os. HappenedAtEach (event_at env asked) threads.now self.old self.new os.items) }
        ensures memory { IfErr result (λ e. e ≡ TiError.OutOfMemory) }
        ensures unchanged { IfErr result (λ e. self.new ≡ self.old) }
    {
        let mut outcomes = Vec::with_capacity(alloc, threads.len())?;
        for thread in threads {
            let outcome = self.step(alloc, asked.event(env, *thread));
            match outcomes.push(outcome) {
                Ok(()) => {}
                Err(_) => unreachable!(),
            }
        }
        Ok(outcomes)
    }

    /// SuspendThreadList (JVM TI 11): a `Suspend` at each thread of the list, in its order, each with its own outcome.
    ///
    /// Each outcome is what `step` gives for that one event after those before it. A refused element stops none after it. A
    /// repeated thread is asked again. The outcome is the first of these that fits:
    ///
    /// - 116: there is no such environment.
    /// - 99: the environment does not have can_suspend.
    /// - 10: there is no such thread.
    /// - 209: no call is left there.
    /// - A ticket: the thread runs.
    /// - 15: the thread is not alive.
    /// - 14: the thread is suspended.
    /// - Done.
    ///
    /// The error is 110 for the whole call if memory for the list of outcomes runs out. Then no event has happened, and the
    /// core is as it was.
    pub fn suspend_list(
        &mut self,
        alloc: Global,
        env: EnvNo,
        threads: &[ThreadNo],
    ) -> Result<Vec<Outcome>, TiError>
        ensures each { IfOk result (λ os. HappenedAtEach (λ t. event.Ask env t call.Suspend) threads.now self.old self.new os.items) }
        ensures memory { IfErr result (λ e. e ≡ TiError.OutOfMemory) }
        ensures unchanged { IfErr result (λ e. self.new ≡ self.old) }
    {
        self.each(alloc, env, AtEach::Suspend, threads)
    }

    /// ResumeThreadList (JVM TI 11): a `Resume` at each thread of the list, in its order, each with its own outcome.
    ///
    /// As for `suspend_list`, but 13 at a thread that is not suspended in place of 14, and no tickets: a resumption does not
    /// wait.
    pub fn resume_list(
        &mut self,
        alloc: Global,
        env: EnvNo,
        threads: &[ThreadNo],
    ) -> Result<Vec<Outcome>, TiError>
        ensures each { IfOk result (λ os. HappenedAtEach (λ t. event.Ask env t call.Resume) threads.now self.old self.new os.items) }
        ensures memory { IfErr result (λ e. e ≡ TiError.OutOfMemory) }
        ensures unchanged { IfErr result (λ e. self.new ≡ self.old) }
    {
        self.each(alloc, env, AtEach::Resume, threads)
    }

    /// A stop by this environment at each thread of the list, in its order, each with its own outcome (this profile).
    ///
    /// As for `suspend_list`, but with 116, 10, 209, and 211 if a stop is in force. It doesn't wait: a thread that runs is
    /// not `standing` before its next hand-over.
    pub fn stop_all(
        &mut self,
        alloc: Global,
        env: EnvNo,
        threads: &[ThreadNo],
    ) -> Result<Vec<Outcome>, TiError>
        ensures each { IfOk result (λ os. HappenedAtEach (λ t. event.Stop env t) threads.now self.old self.new os.items) }
        ensures memory { IfErr result (λ e. e ≡ TiError.OutOfMemory) }
        ensures unchanged { IfErr result (λ e. self.new ≡ self.old) }
    {
        self.each(alloc, env, AtEach::Stop, threads)
    }

    /// A read under this environment's stop at each thread of the list, in its order, each with its own outcome (this
    /// profile). It gives at most `max_count` of the newest frames.
    ///
    /// As for `suspend_list`, but the outcome is the first of these that fits:
    ///
    /// - 116: there is no such environment.
    /// - 10: there is no such thread.
    /// - 103: `max_count` is negative.
    /// - 209: no call is left there.
    /// - 110: memory for the frames of that read runs out.
    /// - 212: the environment's stop is not in force.
    /// - 213: the thread still runs.
    /// - The stack.
    pub fn read_all(
        &mut self,
        alloc: Global,
        env: EnvNo,
        threads: &[ThreadNo],
        max_count: i32,
    ) -> Result<Vec<Outcome>, TiError>
        ensures each { IfOk result (λ os. HappenedAtEach (λ t. event.Read env t max_count) threads.now self.old self.new os.items) }
        ensures memory { IfErr result (λ e. e ≡ TiError.OutOfMemory) }
        ensures unchanged { IfErr result (λ e. self.new ≡ self.old) }
    {
        self.each(alloc, env, AtEach::Read(max_count), threads)
    }

    /// Lets each thread of the list go, in its order, each with its own outcome (this profile).
    ///
    /// As for `suspend_list`, but with 116, 10, and 212 if the environment's stop is not in force.
    pub fn go_all(
        &mut self,
        alloc: Global,
        env: EnvNo,
        threads: &[ThreadNo],
    ) -> Result<Vec<Outcome>, TiError>
        ensures each { IfOk result (λ os. HappenedAtEach (λ t. event.Go env t) threads.now self.old self.new os.items) }
        ensures memory { IfErr result (λ e. e ≡ TiError.OutOfMemory) }
        ensures unchanged { IfErr result (λ e. self.new ≡ self.old) }
    {
        self.each(alloc, env, AtEach::Go, threads)
    }
}

ghost use Rattle.std.specs.Prelude.{◌≡◌, IfOk, IfErr};
ghost use Rattle.ti_types.specs.declared.call.Call.TheVariants as call;
ghost use Rattle.ti_types.specs.declared.event.Event.TheVariants as event;
ghost use Rattle.ti_core.specs.Lists.{event_at, HappenedAtEach};
