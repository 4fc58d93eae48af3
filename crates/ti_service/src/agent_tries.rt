//! What an agent does at its service, without a wait.

use crate::agent::Agent;
use crate::agent_desks::last_thread;
use crate::agent_events::{enable_now, next_class, next_life_now};
use crate::agent_meetings::{add_all_now, begin_meeting, end_meeting, take_desks_now};
use crate::event::{Event, EventKind, NextEvent};
use crate::letting_go::let_go_at_now;
use crate::membership::Membership;
use crate::service::Service;
use std::alloc::Global;
use ti_agent::Env;
use ti_roster::{NextLife, ThreadInfo};
use ti_types::{ThreadNo, TiError};

/// What an agent does at its service, without a wait. Each `try_` form is the twin of one of `ServiceCalls`, and tries to hold
/// the roster, or a thread's cell, just once. The calls take no runtime, so they neither spin nor sleep. They wake nobody: a
/// library that may not do so uses this trait alone.
pub trait ServiceTries {
    /// Whether threads or environments have come or gone, or another agent has met threads that came, since this one last held
    /// the list, or the agent's last meeting failed. It is one load, and true exactly if more had happened at that load than the
    /// agent has seen, or no meeting has succeeded since one failed. Attaching holds the list too, so an agent meets once without
    /// news. Nothing changes but that its handle has looked.
    fn has_news(&mut self) -> bool;

    /// Meets the threads that came since the agent last met them, as `meet` does.
    ///
    /// The error is one of these. No desk is lost, and `has_news` says yes until a meeting succeeds.
    ///
    /// - 103 ILLEGAL_ARGUMENT, 110 OUT_OF_MEMORY, 216 `Full` (this profile): as for `meet`.
    /// - 215 `Busy` (this profile): the roster is in use. Desks that waited are the environment's now. If it was in use while
    ///   the agent let go of threads, some of them were let go of, and some desks wait.
    fn meet_now(&mut self, alloc: Global) -> Result<(), TiError>;

    /// GetAllThreads (JVM TI 11), as a service's handle gives it by `get_all_threads_now`.
    fn get_all_threads_now(&mut self, alloc: Global) -> Result<Vec<ThreadNo>, TiError>;

    /// GetThreadInfo (JVM TI 11), as a service's handle gives it by `get_thread_info_now`.
    fn get_thread_info_now(
        &mut self,
        alloc: Global,
        thread: ThreadNo,
    ) -> Result<ThreadInfo, TiError>;

    /// Lets go of a thread that was given back, as `let_go` does. It returns whether it does.
    ///
    /// The error is 215 `Busy` (this profile) if no call of the agent's is out there, and the roster is in use. Then nothing
    /// changes.
    fn let_go_now(&mut self, thread: ThreadNo) -> Result<bool, TiError>;

    /// Lets go of all threads that were given back, as `let_go_of_all` does.
    ///
    /// The error is 215 `Busy` (this profile) if the roster is in use. Then some of them were let go of.
    fn let_go_of_all_now(&mut self) -> Result<(), TiError>;

    /// SetEventNotificationMode (JVM TI 11), as `set_event_notification_mode` sets it.
    ///
    /// The error is 215 `Busy` (this profile) if a kind of threads' lives is to be enabled, was not, and the roster is in use. Then
    /// nothing changes.
    fn set_event_notification_mode_now(
        &mut self,
        kind: EventKind,
        enabled: bool,
    ) -> Result<(), TiError>;

    /// The next event of the kinds that are enabled, as `next_event` gives it.
    ///
    /// The error is 215 `Busy` (this profile) if a kind of threads' lives is enabled, and the roster is in use. Then nothing changes.
    fn next_event_now(&mut self) -> Result<Option<NextEvent>, TiError>;

    /// DisposeEnvironment (JVM TI 11), as `dispose` does it. It does not wait for calls that are out.
    ///
    /// The error is 110 OUT_OF_MEMORY or 216 `Full` as for `dispose`, or 215 `Busy` (this profile):
    ///
    /// - The agent may suspend threads or pop frames, and a call of it is out at a thread that runs and has not handed over since. Then
    ///   the agent comes back with all its desks, and goes on as before. Only its calls are cancelled. So it can take its suspensions
    ///   back (`Env::ensure_resumed_now`), or try again once the thread has handed over or ended.
    /// - The cell of a thread or the roster is in use. Then the agent comes back too. It may have left some of its threads already, and
    ///   can only be disposed of then: by a further try, or by `dispose`.
    fn dispose_now(self, alloc: Global) -> Result<Service, (TiError, Agent)>;
}

/// Sees to it that the agent changes nothing of any thread any more, as `Env::settle_now` does at one. It stops at the first thread at
/// which a call is out.
///
/// The error is 110 OUT_OF_MEMORY, or 215 `Busy` if a call is out, or a cell is in use.
fn settle_each_now(agent: &mut Agent, alloc: Global) -> Result<(), TiError>
    ensures home { agent.new.home ≡ agent.old.home }
    ensures quiets { Quiets agent.old.env agent.new.env }
    ensures refused { IfErr result (λ e. (e ≡ OutOfMemory) ⊎ (e ≡ Busy)) }
{
    let mut index = agent.desk_count();
    while index > 0 {
        index -= 1;
        let Some(thread) = agent.thread_at(index) else {
            unreachable!()
        };
        agent.settle_now(alloc, thread)?;
    }
    Ok(())
}

/// Clears the environment's desks, as `clear` does. It tries to hold the cell of each just once.
fn clear_now(agent: &mut Agent, alloc: Global) -> Result<(), TiError>
    ensures service { agent.new.home.service ≡ agent.old.home.service }
    ensures events { agent.new.home.events ≡ agent.old.home.events }
    ensures unmet { agent.new.home.unmet ≡ agent.old.home.unmet }
    ensures cleared { Clears (state_of agent.old) (state_of agent.new) }
    ensures done { OnOk result (agent.new.env.desks ≡ []) }
    ensures refused { IfErr result (λ e. (e ≡ OutOfMemory) ⊎ (e ≡ Busy)) }
{
    while let Some(thread) = last_thread(agent) {
        agent.home.waiting.reserve(1)?;
        let Some(desk) = agent.clear_desk_now(alloc, thread)? else {
            unreachable!()
        };
        agent.home.waiting.push_reserved(desk);
    }
    Ok(())
}

impl ServiceTries for Env<Membership> {
    fn has_news(&mut self) -> bool
        ensures tells { TellsAgentNews (state_of self.old) (state_of self.new) result }
    {
        let looked = self.home.service.has_news();
        looked || self.home.unmet
    }

    fn meet_now(&mut self, alloc: Global) -> Result<(), TiError>
        ensures met { OnOk result (Meets (state_of self.old) (state_of self.new)) }
        ensures kept { IfErr result (λ e. KeepsNow (state_of self.old) (state_of self.new) e) }
    {
        begin_meeting(self);
        add_all_now(self)?;
        let next = take_desks_now(self, alloc)?;
        add_all_now(self)?;
        end_meeting(self, next);
        Ok(())
    }

    fn get_all_threads_now(&mut self, alloc: Global) -> Result<Vec<ThreadNo>, TiError>
        ensures rest { IsSameBut (state_of self.old) (state_of self.new) }
        ensures hold { OnOk result (Looks self.old.home.service.view self.new.home.service.view) }
        ensures threads { IfOk result (λ t. t.items ≡ map (λ n. n.thread) (alive self.new.home.service.view.seen)) }
        ensures refused { IfErr result (λ e. ((e ≡ OutOfMemory) × Looks self.old.home.service.view self.new.home.service.view) ⊎ ((e ≡ Busy) × (self.new ≡ self.old))) }
    {
        self.home.service.get_all_threads_now(alloc)
    }

    fn get_thread_info_now(
        &mut self,
        alloc: Global,
        thread: ThreadNo,
    ) -> Result<ThreadInfo, TiError>
        ensures rest { IsSameBut (state_of self.old) (state_of self.new) }
        ensures hold { OnOk result (Looks self.old.home.service.view self.new.home.service.view) }
        ensures told { IfOk result (λ i. IsToldOf (roster_seen self.new.home.service.view) thread i) }
        ensures refused { IfErr result (λ e. RefusesInfo self.old.home.service.view self.new.home.service.view thread e ⊎ ((e ≡ Busy) × (self.new ≡ self.old))) }
    {
        self.home.service.get_thread_info_now(alloc, thread)
    }

    fn let_go_now(&mut self, thread: ThreadNo) -> Result<bool, TiError>
        ensures steps { IfOk result (λ gone. LetsGo (state_of self.old) (state_of self.new) thread gone) }
        ensures busy { IfErr result (λ e. (e ≡ Busy) × (self.new ≡ self.old)) }
    {
        let index = self.index_of(thread);
        let_go_at_now(self, thread, index)
    }

    fn let_go_of_all_now(&mut self) -> Result<(), TiError>
        ensures steps { OnOk result (LetsGoBelow (length self.old.env.desks) (state_of self.old) (state_of self.new)) }
        ensures busy { IfErr result (λ e. (e ≡ Busy) × LetsGoOfSome (state_of self.old) (state_of self.new)) }
    {
        let mut index = self.desk_count();
        while index > 0 {
            index -= 1;
            let Some(thread) = self.thread_at(index) else {
                unreachable!()
            };
            let _gone = let_go_at_now(self, thread, index)?;
        }
        Ok(())
    }

    fn set_event_notification_mode_now(
        &mut self,
        kind: EventKind,
        enabled: bool,
    ) -> Result<(), TiError>
        ensures disables { OnOk result (enabled ≡ false → state_of self.new ≡ with_events (state_of self.old) (without self.old.home.events kind)) }
        ensures stays { OnOk result (enabled ≡ true → is_enabled self.old.home.events kind ≡ true → self.new ≡ self.old) }
        ensures enables { OnOk result (enabled ≡ true → is_enabled self.old.home.events kind ≡ false → Enables kind (state_of self.old) (state_of self.new)) }
        ensures busy { IfErr result (λ e. (e ≡ Busy) × (enabled ≡ true) × (is_enabled self.old.home.events kind ≡ false) × IsLife kind × (self.new ≡ self.old)) }
    {
        if !enabled {
            self.home.events.disable(kind);
            return Ok(());
        }
        if self.home.events.is_enabled(kind) {
            return Ok(());
        }
        enable_now(self, kind)
    }

    fn next_event_now(&mut self) -> Result<Option<NextEvent>, TiError>
        ensures tells { IfOk result (λ told. TellsNext (state_of self.old) (state_of self.new) told) }
        ensures busy { IfErr result (λ e. (e ≡ Busy) × IsLifeEnabled (state_of self.old) × (self.new ≡ self.old)) }
    {
        if let Some(NextLife { event, lost }) = next_life_now(self)? {
            return Ok(Some(NextEvent {
                event: Event::Life(event),
                lost,
            }));
        }
        let Some(class) = next_class(self) else {
            return Ok(None);
        };
        Ok(Some(NextEvent {
            event: Event::ClassPrepare(class),
            lost: 0,
        }))
    }

    fn dispose_now(mut self, alloc: Global) -> Result<Service, (TiError, Agent)>
        ensures disposed { IfOk result (λ s. Disposes (state_of self) s) }
        ensures kept { IfErr result (λ r. StaysOn (state_of self) (state_of r.1) r.0) }
        ensures events { IfErr result (λ r. r.1.home.events ≡ self.home.events) }
        ensures unmet { IfErr result (λ r. r.1.home.unmet ≡ self.home.unmet) }
    {
        match settle_each_now(&mut self, alloc) {
            Ok(()) => (),
            Err(error) => return Err((error, self)),
        }
        match clear_now(&mut self, alloc) {
            Ok(()) => (),
            Err(error) => return Err((error, self)),
        }
        let (home, env) = self.leave_home();
        let Membership {
            mut service,
            waiting,
            events,
            unmet,
        } = home;
        match service.leave_now(waiting) {
            Ok(()) => Ok(service),
            Err((error, waiting)) => {
                let home = Membership {
                    service,
                    waiting,
                    events,
                    unmet,
                };
                Err((error, Env::come_home(home, env)))
            }
        }
    }
}

ghost use Rattle.std.specs.Prelude.{◌≡◌, ◌⊎◌, true, false, [], length, map, IfOk, IfErr, OnOk};
ghost use Rattle.ti_types.specs.declared.error.TiError.TheVariants.{Busy, OutOfMemory};
ghost use Rattle.ti_roster.specs.Stages.{alive};
ghost use Rattle.ti_roster.specs.Roster.{IsToldOf};
ghost use Rattle.ti_service.specs.Service.{Looks, RefusesInfo, roster_seen};
ghost use Rattle.ti_service.specs.Agent.{IsSameBut};
ghost use Rattle.ti_service.specs.Leaving.{Clears, Disposes, Quiets, StaysOn};
ghost use Rattle.ti_service.specs.LettingGo.{LetsGo, LetsGoBelow, LetsGoOfSome};
ghost use Rattle.ti_service.specs.Meeting.{TellsAgentNews, KeepsNow, Meets};
ghost use Rattle.ti_service.specs.Memberships.{state_of};
ghost use Rattle.ti_service.specs.Telling.{Enables, IsLife, IsLifeEnabled, TellsNext, is_enabled, with_events, without};
