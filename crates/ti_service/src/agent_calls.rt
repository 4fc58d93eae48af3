//! What an agent does at its service.

use crate::agent::Agent;
use crate::agent_desks::last_thread;
use crate::agent_meetings::{add_all, begin_meeting, end_meeting, take_desks};
use crate::agent_tries::ServiceTries;
use crate::event::{EventKind, EventModes, NextEvent};
use crate::letting_go::let_go_at;
use crate::membership::Membership;
use crate::service::Service;
use std::alloc::Global;
use std::rt::Clock;
use std::sync::Wait;
use std::time::{Duration, Instant};
use ti_agent::Env;
use ti_cell::Pace;
use ti_roster::ThreadInfo;
use ti_types::{ThreadNo, TiError};

/// What an agent does at its service. The calls may wait for the roster and for the threads' cells, and wake others.
pub trait ServiceCalls {
    /// Wakes whoever sleeps because the roster was in use, or until somebody comes or goes. A program in which others sleep
    /// calls it after calls that never wait, which wake nobody. It is one load if nobody sleeps.
    fn wake_sleepers(&self);

    /// Meets the threads that came since the agent last met them, and are there: from now on the environment has a desk at
    /// each. Its calls at a number that was a thread, and has no desk, are answered 15 from now on.
    ///
    /// The environment has desks at 65,536 threads at most. If there is no room for one more, the meeting lets go of all threads
    /// that were given back, as `let_go_of_all` does, and goes on. As long as there is room it lets go of none.
    ///
    /// The error is the first of these that fits:
    ///
    /// - 103 ILLEGAL_ARGUMENT: a desk's number is not above those before it. The service gives no such desk. But its list
    ///   does not say so yet, so the contract allows it.
    /// - 216 `Full` (this profile): the environment has a desk at 65,536 threads, and at each of them a call of the agent's is
    ///   out or the thread is there. Or there were 2^62 - 1 comings and goings in all.
    /// - 110 OUT_OF_MEMORY: there is no memory for the desks.
    ///
    /// Then no desk is lost: those that could not be added are added by the next meeting. `has_news` says yes until a meeting
    /// succeeds.
    fn meet<R: Wait>(&mut self, rt: &R, alloc: Global) -> Result<(), TiError>;

    /// GetAllThreads (JVM TI 11), as a service's handle gives it.
    fn get_all_threads<R: Wait>(&mut self, rt: &R, alloc: Global) -> Result<Vec<ThreadNo>, TiError>;

    /// GetThreadInfo (JVM TI 11), as a service's handle gives it.
    fn get_thread_info<R: Wait>(
        &mut self,
        rt: &R,
        alloc: Global,
        thread: ThreadNo,
    ) -> Result<ThreadInfo, TiError>;

    /// Lets go of a thread that was given back, so that its memory can be freed (this profile). From then on the agent has no
    /// desk there. A call at this number is answered 15 THREAD_NOT_ALIVE, as before.
    ///
    /// `false` if it does not: a thread of this number is there, the agent has no desk there, or a call of the agent's is
    /// out there. Then nothing changes but what the handle has seen.
    fn let_go<R: Wait>(&mut self, rt: &R, thread: ThreadNo) -> bool;

    /// Lets go of all threads that were given back, as `let_go` does of one (this profile).
    fn let_go_of_all<R: Wait>(&mut self, rt: &R);

    /// SetEventNotificationMode (JVM TI 11): enables or disables one kind of event, for all threads. It has no error.
    ///
    /// From when the kind is enabled, the agent can be told of each event of this kind by `next_event`. What happened before is not
    /// told. To enable what is enabled changes nothing. What was not told when the kind is disabled is never told.
    fn set_event_notification_mode<R: Wait>(&mut self, rt: &R, kind: EventKind, enabled: bool);

    /// The next event of the kinds that are enabled. An event is told if it happened since its kind was enabled, and it is told
    /// once.
    ///
    /// Events of threads' lives come first. All agents are told them in one order: that in which they happened. The last 4,096 are
    /// kept. If more have happened since, the earliest of them are lost, and `lost` counts those that were lost since the agent last
    /// looked, of whatever kind (this profile).
    ///
    /// Then come classes, in the order of their numbers (ClassPrepare, JVM TI 11). No class is lost. A class is told once its
    /// definition has ended, and those behind it after it. No order is told between threads and classes.
    ///
    /// `None` if nothing has happened yet, or if all kinds are disabled. It holds the roster once if a kind of threads' lives is
    /// enabled, or else not at all.
    ///
    /// # Examples
    ///
    /// ```rattle
    /// # use ti_service::{ClassInfo, ClassNo, Event, EventKind, LifeKind, Service, ServiceCalls, ThreadInfo};
    /// # use ti_types::{Limits, ThreadNo};
    /// # let alloc = rt.alloc();
    /// # let limits = Limits::new(1, 1, 4, 16, 8).ok_or("the limits are in range")?;
    /// let mut service = Service::make(alloc, limits)?;
    /// let mut agent = service.attach_environment(&rt, alloc)?;
    /// agent.set_event_notification_mode(&rt, EventKind::ThreadStart, true);
    /// agent.set_event_notification_mode(&rt, EventKind::ClassPrepare, true);
    /// let chunk = ClassInfo {
    ///     signature: String::from_str(alloc, "fib.lua")?,
    ///     source_file: None,
    ///     methods: Vec::new(alloc),
    /// };
    /// assert!(rt; service.define_class(chunk).is_ok());
    /// let name = String::from_str(alloc, "main")?;
    /// let fresh = service.attach_thread(&rt, alloc, ThreadInfo { name, priority: 5 })?;
    /// let Ok(running) = service.start_thread(&rt, fresh) else {
    ///     return Err("nobody suspends it".into());
    /// };
    /// let Some(next) = agent.next_event(&rt) else {
    ///     return Err("a thread has started".into());
    /// };
    /// let Event::Life(life) = next.event else {
    ///     return Err("threads come first".into());
    /// };
    /// assert!(rt; life.kind == LifeKind::ThreadStart && life.thread == ThreadNo(0) && next.lost == 0);
    /// let Some(next) = agent.next_event(&rt) else {
    ///     return Err("a class was defined".into());
    /// };
    /// assert!(rt; next.event == Event::ClassPrepare(ClassNo(0)));
    /// // Ends of threads are not enabled.
    /// let Ok(ended) = service.end_thread(&rt, running) else {
    ///     return Err("it runs".into());
    /// };
    /// assert!(rt; agent.next_event(&rt).is_none() && service.detach_thread(&rt, ended).is_ok());
    /// ```
    fn next_event<R: Wait>(&mut self, rt: &R) -> Option<NextEvent>;

    /// The same, but it waits for an event for at most this time (this profile). It sleeps between its holds. While ClassPrepare is
    /// enabled, it looks at least every 10 ms, since a definition wakes nobody. `None` when the time is over, if the clock can't be
    /// read, or if all kinds are disabled.
    fn next_event_within<R: Wait + Clock>(&mut self, rt: &R, time: Duration) -> Option<NextEvent>;

    /// DisposeEnvironment (JVM TI 11): the agent leaves the service, and its number is free for another. No thread is suspended and no
    /// frame popped by an agent after it was disposed of. So one that has `can_suspend` or `can_pop_frame` waits until none of its
    /// calls is out at any thread: a thread that runs has to hand over, or end. The calls of any other only read, and are
    /// cancelled. Its word at each thread is 0 again. It has no stop to let go: whoever holds one borrows the environment.
    ///
    /// What it suspended stays suspended, as JVM TI 11 says, and what it popped is gone. What is left of the agent is a handle,
    /// which is no environment's. The next environment of this number is at each thread that is there, and finds nothing else of what
    /// this one did.
    ///
    /// The error is 110 OUT_OF_MEMORY if there is no memory to note the calls that are cancelled, or 216 `Full` if there were 2^62 - 1
    /// comings and goings in all, or there would be with the desks (this profile). Then the agent comes back. It may have left some of
    /// its threads already, and can only be disposed of.
    fn dispose<R: Wait>(self, rt: &R, alloc: Global) -> Result<Service, (TiError, Agent)>;
}

/// Clears the environment's desks, as `Env::clear_desk` does at one thread. The desks wait from then on, behind those that waited.
///
/// 110 OUT_OF_MEMORY if there is no memory for that. Then some of them are cleared, and the others are as they were.
fn clear<R: Wait>(agent: &mut Agent, rt: &R, alloc: Global) -> Result<(), TiError>
    ensures service { agent.new.home.service ≡ agent.old.home.service }
    ensures events { agent.new.home.events ≡ agent.old.home.events }
    ensures unmet { agent.new.home.unmet ≡ agent.old.home.unmet }
    ensures cleared { Clears (state_of agent.old) (state_of agent.new) }
    ensures done { OnOk result (agent.new.env.desks ≡ []) }
    ensures memory { IfErr result (λ e. e ≡ OutOfMemory) }
{
    while let Some(thread) = last_thread(agent) {
        agent.home.waiting.reserve(1)?;
        let Some(desk) = agent.clear_desk(rt, alloc, thread)? else {
            unreachable!()
        };
        agent.home.waiting.push_reserved(desk);
    }
    Ok(())
}

/// How much time is left of this time since then. `None` if it is over, or the clock can't be read.
fn time_left<R: Clock>(rt: &R, began: Option<Instant>, time: Duration) -> Option<Duration> {
    let spent = began?.elapsed(rt).ok()?;
    time.checked_sub(spent)
}

/// How long an agent that is told of classes sleeps at most, in milliseconds.
const LOOK_FOR_CLASSES: u64 = 10;

/// How long to sleep for events, if so much time is left. A definition of a class wakes nobody.
fn longest_sleep(events: &EventModes, left: Duration) -> Duration {
    let most = Duration::from_millis(LOOK_FOR_CLASSES);
    if events.class.is_some() && left > most {
        most
    } else {
        left
    }
}

impl ServiceCalls for Env<Membership> {
    fn wake_sleepers(&self) {
        self.home.service.wake_sleepers();
    }

    fn meet<R: Wait>(&mut self, rt: &R, alloc: Global) -> Result<(), TiError>
        ensures met { OnOk result (Meets (state_of self.old) (state_of self.new)) }
        ensures kept { IfErr result (λ e. Keeps (state_of self.old) (state_of self.new) e) }
    {
        begin_meeting(self);
        add_all(self, rt)?;
        let next = take_desks(self, rt, alloc)?;
        add_all(self, rt)?;
        end_meeting(self, next);
        Ok(())
    }

    fn get_all_threads<R: Wait>(&mut self, rt: &R, alloc: Global) -> Result<Vec<ThreadNo>, TiError>
        ensures rest { IsSameBut (state_of self.old) (state_of self.new) }
        ensures hold { Looks self.old.home.service.view self.new.home.service.view }
        ensures threads { IfOk result (λ t. t.items ≡ map (λ n. n.thread) (alive self.new.home.service.view.seen)) }
        ensures memory { IfErr result (λ e. e ≡ OutOfMemory) }
    {
        self.home.service.get_all_threads(rt, alloc)
    }

    fn get_thread_info<R: Wait>(
        &mut self,
        rt: &R,
        alloc: Global,
        thread: ThreadNo,
    ) -> Result<ThreadInfo, TiError>
        ensures rest { IsSameBut (state_of self.old) (state_of self.new) }
        ensures hold { Looks self.old.home.service.view self.new.home.service.view }
        ensures told { IfOk result (λ i. IsToldOf (roster_seen self.new.home.service.view) thread i) }
        ensures refused { IfErr result (λ e. e ≡ info_refusal (roster_seen self.new.home.service.view) thread) }
    {
        self.home.service.get_thread_info(rt, alloc, thread)
    }

    fn let_go<R: Wait>(&mut self, rt: &R, thread: ThreadNo) -> bool
        ensures steps { LetsGo (state_of self.old) (state_of self.new) thread result }
    {
        let index = self.index_of(thread);
        let_go_at(self, rt, thread, index)
    }

    fn let_go_of_all<R: Wait>(&mut self, rt: &R)
        ensures steps { LetsGoBelow (length self.old.env.desks) (state_of self.old) (state_of self.new) }
    {
        let mut index = self.desk_count();
        while index > 0 {
            index -= 1;
            let Some(thread) = self.thread_at(index) else {
                unreachable!()
            };
            let _gone = let_go_at(self, rt, thread, index);
        }
    }

    fn set_event_notification_mode<R: Wait>(&mut self, rt: &R, kind: EventKind, enabled: bool)
        ensures disables { enabled ≡ false → state_of self.new ≡ with_events (state_of self.old) (without self.old.home.events kind) }
        ensures stays { enabled ≡ true → is_enabled self.old.home.events kind ≡ true → self.new ≡ self.old }
        ensures enables { enabled ≡ true → is_enabled self.old.home.events kind ≡ false → Enables kind (state_of self.old) (state_of self.new) }
    {
        let pace = Pace::new();
        for _ in rt.forever() {
            match self.set_event_notification_mode_now(kind, enabled) {
                Ok(()) => {
                    self.wake_sleepers();
                    return;
                }
                Err(_busy) => self.home.service.roster.await_free(rt, &pace),
            }
        }
        unreachable!()
    }

    fn next_event<R: Wait>(&mut self, rt: &R) -> Option<NextEvent>
        ensures tells { TellsNext (state_of self.old) (state_of self.new) result }
    {
        let pace = Pace::new();
        for _ in rt.forever() {
            match self.next_event_now() {
                Ok(next) => {
                    self.wake_sleepers();
                    return next;
                }
                Err(_busy) => self.home.service.roster.await_free(rt, &pace),
            }
        }
        unreachable!()
    }

    fn next_event_within<R: Wait + Clock>(&mut self, rt: &R, time: Duration) -> Option<NextEvent>
        ensures tells { TellsInTime (state_of self.old) (state_of self.new) result }
    {
        let began = Instant::now(rt).ok();
        for _ in rt.forever() {
            let next = self.next_event(rt);
            if next.is_some() || !self.home.events.is_any_enabled() {
                return next;
            }
            let Some(left) = time_left(rt, began, time) else {
                return next;
            };
            let sleep = longest_sleep(&self.home.events, left);
            self.home.service.sleep_without_news_for(rt, sleep);
        }
        unreachable!()
    }

    fn dispose<R: Wait>(mut self, rt: &R, alloc: Global) -> Result<Service, (TiError, Agent)>
        ensures disposed { IfOk result (λ s. Disposes (state_of self) s) }
        ensures refused { IfErr result (λ r. (r.0 ≡ OutOfMemory) ⊎ (r.0 ≡ Full)) }
        ensures kept { IfErr result (λ r. StaysOn (state_of self) (state_of r.1) r.0) }
        ensures events { IfErr result (λ r. r.1.home.events ≡ self.home.events) }
        ensures unmet { IfErr result (λ r. r.1.home.unmet ≡ self.home.unmet) }
    {
        match clear(&mut self, rt, alloc) {
            Ok(()) => (),
            Err(error) => return Err((error, self)),
        }
        let (home, env) = self.leave_home();
        let Membership {
            mut service,
            waiting,
            events,
            unmet,
        } = home;
        match service.leave(rt, waiting) {
            Ok(()) => Ok(service),
            Err((error, waiting)) => {
                let home = Membership {
                    service,
                    waiting,
                    events,
                    unmet,
                };
                Err((error, Env::come_home(home, env)))
            }
        }
    }
}

ghost use Rattle.std.specs.Prelude.{◌≡◌, ◌⊎◌, true, false, [], length, map, IfOk, IfErr, OnOk};
ghost use Rattle.ti_types.specs.declared.error.TiError.TheVariants.{Full, OutOfMemory};
ghost use Rattle.ti_roster.specs.Stages.{alive};
ghost use Rattle.ti_roster.specs.Roster.{IsToldOf, info_refusal};
ghost use Rattle.ti_service.specs.Service.{Looks, roster_seen};
ghost use Rattle.ti_service.specs.Agent.{IsSameBut};
ghost use Rattle.ti_service.specs.Leaving.{Clears, Disposes, StaysOn};
ghost use Rattle.ti_service.specs.LettingGo.{LetsGo, LetsGoBelow};
ghost use Rattle.ti_service.specs.Meeting.{Keeps, Meets};
ghost use Rattle.ti_service.specs.Memberships.{state_of};
ghost use Rattle.ti_service.specs.Telling.{Enables, TellsInTime, TellsNext, is_enabled, with_events, without};
