//! Calls of a handle that never wait.
//!
//! Each is the twin of a call that holds the roster, and tries to hold it just once. They take no runtime, so they neither
//! spin nor sleep, and they wake nobody (`wake_sleepers`). If another user holds the roster, or comes first, the error is `Busy`
//! (215, this profile), and nothing changes.

use crate::agent::Agent;
use crate::event::EventModes;
use crate::holding::try_hold;
use crate::membership::Membership;
use crate::service::Service;
use std::alloc::Global;
use ti_agent::{Env, FreeDesk};
use ti_handshake::{Ended, Fresh, Running};
use ti_roster::{LifeModes, ThreadInfo, ToldLife};
use ti_types::{EnvNo, ThreadNo, TiError};

impl Service {
    /// Wakes whoever sleeps because the roster was in use, or until somebody comes or goes. A program in which others sleep calls
    /// it after calls that never wait. It is one load if nobody sleeps.
    pub fn wake_sleepers(&self) {
        self.roster.wake_sleepers();
    }

    /// A number for an environment, which is this handle's from now on.
    pub(crate) fn claim_now(&mut self) -> Result<EnvNo, TiError>
        requires { self.old.view.place ≡ None }
        ensures cell { self.new.cell ≡ self.old.cell }
        ensures claimed { IfOk result (λ e. Claimed self.old.view self.new.view e) }
        ensures refused { IfErr result (λ e. (((e ≡ Full) × IsPlaceless (roster_seen self.new.view)) × Looks self.old.view self.new.view) ⊎ ((e ≡ Busy) × (self.new ≡ self.old))) }
    {
        try_hold!(self, |roster| roster.attach(), else TiError::Busy)
    }

    /// Attaches an environment, as `attach_environment` does.
    ///
    /// The error is one of these. Then no environment came, and no number is taken.
    ///
    /// - 216 `Full` (this profile): as for `attach_environment`.
    /// - 215 `Busy` (this profile): the roster is in use. The handle that was made is let go of.
    pub fn attach_environment_now(&mut self, alloc: Global) -> Result<Agent, TiError>
        ensures made { OnOk result (self.new ≡ with_handle self.old) }
        ensures attached { IfOk result (λ a. IsNewAgent self.old (state_of a)) }
        ensures refused { IfErr result (λ e. RefusesPlace self.old self.new e ⊎ ((e ≡ Busy) × (self.new ≡ with_handle self.old))) }
    {
        let mut service = self.share()?;
        let env = service.claim_now()?;
        let limits = service.limits();
        let home = Membership {
            service,
            waiting: Vec::new(alloc),
            events: EventModes::new(),
            unmet: false,
        };
        Ok(Env::at_home(alloc, home, env, limits))
    }

    /// The desks of this handle's environment, as `meet` gives them.
    pub(crate) fn meet_now(&mut self, alloc: Global) -> Result<(Vec<FreeDesk>, u32), TiError>
        ensures cell { self.new.cell ≡ self.old.cell }
        ensures taken { IfOk result (λ d. TakesDesks self.old.view self.new.view d.0.items d.1) }
        ensures refused { IfErr result (λ e. ((e ≡ meeting_refusal (roster_seen self.new.view)) × Looks self.old.view self.new.view) ⊎ ((e ≡ Busy) × (self.new ≡ self.old))) }
    {
        let Some(seat) = self.seat.take() else {
            unreachable!()
        };
        match self.roster.hold_now(seat) {
            Ok(mut hold) => {
                let roster = hold.roster();
                let next = roster.next();
                let desks = roster.meet(alloc);
                self.seat = Some(hold.store_quietly());
                Ok((desks?, next))
            }
            Err(seat) => {
                self.seat = Some(seat);
                Err(TiError::Busy)
            }
        }
    }

    /// This handle's environment is disposed of, and gives these desks back, as `leave` does.
    pub(crate) fn leave_now(&mut self, desks: Vec<FreeDesk>) -> Result<(), (TiError, Vec<FreeDesk>)>
        requires { MayLeave self.old.view desks.items }
        ensures cell { self.new.cell ≡ self.old.cell }
        ensures left { OnOk result (Leaves self.old.view self.new.view desks.items) }
        ensures refused { IfErr result (λ r. (((r.0 ≡ Full) × (most_items ≤ length self.new.view.seen + length desks.items)) × Looks self.old.view self.new.view) ⊎ ((r.0 ≡ Busy) × (self.new ≡ self.old))) }
        ensures back { IfErr result (λ r. r.1 ≡ desks) }
    {
        try_hold!(self, |roster| roster.dispose(desks), else (TiError::Busy, desks))
    }

    /// Attaches a thread, as `attach_thread` does. It has the next number, and has not started.
    ///
    /// The error is one of these. Then no thread came, and the name is freed.
    ///
    /// - 216 `Full` (this profile), 110 OUT_OF_MEMORY: as for `attach_thread`. Nothing changes but what the handle has seen.
    /// - 215 `Busy` (this profile): the roster is in use. Nothing changes.
    pub fn attach_thread_now(&mut self, alloc: Global, info: ThreadInfo) -> Result<Fresh, TiError>
        ensures cell { self.new.cell ≡ self.old.cell }
        ensures attached { IfOk result (λ f. Attaches self.old.view self.new.view info f) }
        ensures refused { IfErr result (λ e. ((e ≡ coming_refusal (roster_seen self.new.view)) × Looks self.old.view self.new.view) ⊎ ((e ≡ Busy) × (self.new ≡ self.old))) }
    {
        match self.attach_once(alloc, info) {
            Ok(result) => result,
            Err(_) => Err(TiError::Busy),
        }
    }

    /// Attaches a thread, if the roster is free. If it is in use, nothing changes, and what was given comes back.
    pub(crate) fn attach_once(
        &mut self,
        alloc: Global,
        info: ThreadInfo,
    ) -> Result<Result<Fresh, TiError>, ThreadInfo>
        ensures cell { self.new.cell ≡ self.old.cell }
        ensures attached { IfOk result (λ r. IfOk r (λ f. Attaches self.old.view self.new.view info f)) }
        ensures refused { IfOk result (λ r. IfErr r (λ e. (e ≡ coming_refusal (roster_seen self.new.view)) × Looks self.old.view self.new.view)) }
        ensures busy { IfErr result (λ i. (i ≡ info) × (self.new ≡ self.old)) }
    {
        try_hold!(self, |roster| Ok(roster.come(alloc, info)), else info)
    }

    /// Starts a thread, as `start_thread` does.
    ///
    /// The error is the first of these that fits. Then the thread comes back, and nothing is told:
    ///
    /// - 215 `Busy` (this profile): the roster is in use. Nothing changes.
    /// - 10 INVALID_THREAD, 15 THREAD_NOT_ALIVE, 210 `NotNew`, 216 `Full` (this profile): as for `start_thread`. Nothing changes but
    ///   what the handle has seen.
    /// - 215 `Busy`, 206 `Barred` (this profile): the thread's cell is in use, or the thread is suspended or stopped, as
    ///   `Fresh::start_now` says. Nothing changes but what the handle has seen, and with 206 what the thread has seen.
    pub fn start_thread_now(&mut self, fresh: Fresh) -> Result<Running, (TiError, Fresh)>
        ensures cell { self.new.cell ≡ self.old.cell }
        ensures started { IfOk result (λ r. StartsThread self.old.view self.new.view fresh r) }
        ensures refused { IfErr result (λ e. DoesNotStart self.old.view self.new.view fresh e.1 e.0 ⊎ ((e ≡ (Busy, fresh)) × (self.new ≡ self.old))) }
    {
        try_hold!(self, |roster| roster.start(fresh), else (TiError::Busy, fresh))
    }

    /// Ends a running thread, as `end_thread` does.
    ///
    /// The error is the first of these that fits. Then the thread comes back as it was, and nothing is told:
    ///
    /// - 215 `Busy` (this profile): the roster is in use. Nothing changes.
    /// - 10 INVALID_THREAD, 15 THREAD_NOT_ALIVE, 204 `NotRunning`, 216 `Full` (this profile): as for `end_thread`. Nothing changes
    ///   but what the handle has seen.
    /// - 215 `Busy` (this profile): the thread's cell is in use. Nothing changes but what the handle has seen.
    pub fn end_thread_now(&mut self, running: Running) -> Result<Ended, (TiError, Running)>
        ensures cell { self.new.cell ≡ self.old.cell }
        ensures ended { IfOk result (λ d. EndsThread self.old.view self.new.view running d) }
        ensures refused { IfErr result (λ e. DoesNotEnd self.old.view self.new.view running.view.subject.thread e.0 ⊎ ((e.0 ≡ Busy) × (self.new ≡ self.old))) }
        ensures back { IfErr result (λ e. e.1 ≡ running) }
    {
        try_hold!(self, |roster| roster.end(running), else (TiError::Busy, running))
    }

    /// A thread of this number is there no more.
    pub(crate) fn detach_now(&mut self, thread: ThreadNo) -> Result<(), TiError>
        ensures cell { self.new.cell ≡ self.old.cell }
        ensures gone { OnOk result (Detaches self.old.view self.new.view thread) }
        ensures refused { IfErr result (λ e. RefusesDetach self.old.view self.new.view thread e ⊎ ((e ≡ Busy) × (self.new ≡ self.old))) }
    {
        try_hold!(self, |roster| roster.leave(thread), else TiError::Busy)
    }

    /// Gives a thread back that has ended, as `detach_thread` does.
    ///
    /// The error is the first of these that fits. Then the thread comes back as it was:
    ///
    /// - 215 `Busy` (this profile): the roster is in use. Nothing changes.
    /// - 10 INVALID_THREAD, 15 THREAD_NOT_ALIVE, 216 `Full` (this profile): as for `detach_thread`. Nothing changes but what the
    ///   handle has seen.
    pub fn detach_thread_now(&mut self, ended: Ended) -> Result<(), (TiError, Ended)>
        ensures cell { self.new.cell ≡ self.old.cell }
        ensures gone { OnOk result (Detaches self.old.view self.new.view ended.view.subject.thread) }
        ensures refused { IfErr result (λ r. RefusesDetach self.old.view self.new.view ended.view.subject.thread r.0 ⊎ ((r.0 ≡ Busy) × (self.new ≡ self.old))) }
        ensures back { IfErr result (λ r. r.1 ≡ ended) }
    {
        match self.detach_now(ended.thread()) {
            Ok(()) => Ok(()),
            Err(error) => Err((error, ended)),
        }
    }

    /// Gives a thread back that never started. Everything else is as for `detach_thread_now`.
    pub fn withdraw_thread_now(&mut self, fresh: Fresh) -> Result<(), (TiError, Fresh)>
        ensures cell { self.new.cell ≡ self.old.cell }
        ensures gone { OnOk result (Detaches self.old.view self.new.view fresh.view.subject.thread) }
        ensures refused { IfErr result (λ r. RefusesDetach self.old.view self.new.view fresh.view.subject.thread r.0 ⊎ ((r.0 ≡ Busy) × (self.new ≡ self.old))) }
        ensures back { IfErr result (λ r. r.1 ≡ fresh) }
    {
        match self.detach_now(fresh.thread()) {
            Ok(()) => Ok(()),
            Err(error) => Err((error, fresh)),
        }
    }

    /// GetAllThreads (JVM TI 11), as `get_all_threads` gives it.
    ///
    /// The error is 110 OUT_OF_MEMORY if there is no memory for the numbers, or 215 `Busy` (this profile) if the roster is in
    /// use. Then nothing changes, but for what the handle has seen with 110.
    pub fn get_all_threads_now(&mut self, alloc: Global) -> Result<Vec<ThreadNo>, TiError>
        ensures cell { self.new.cell ≡ self.old.cell }
        ensures hold { OnOk result (Looks self.old.view self.new.view) }
        ensures threads { IfOk result (λ t. t.items ≡ map (λ n. n.thread) (alive self.new.view.seen)) }
        ensures refused { IfErr result (λ e. ((e ≡ OutOfMemory) × Looks self.old.view self.new.view) ⊎ ((e ≡ Busy) × (self.new ≡ self.old))) }
    {
        try_hold!(self, |roster| roster.threads(alloc), else TiError::Busy)
    }

    /// GetThreadInfo (JVM TI 11), as `get_thread_info` gives it.
    ///
    /// Errors: 10, 15 and 110 as for `get_thread_info`. Then nothing changes but what the handle has seen. 215 `Busy` (this
    /// profile) if the roster is in use: nothing changes.
    pub fn get_thread_info_now(
        &mut self,
        alloc: Global,
        thread: ThreadNo,
    ) -> Result<ThreadInfo, TiError>
        ensures cell { self.new.cell ≡ self.old.cell }
        ensures hold { OnOk result (Looks self.old.view self.new.view) }
        ensures told { IfOk result (λ i. IsToldOf (roster_seen self.new.view) thread i) }
        ensures refused { IfErr result (λ e. RefusesInfo self.old.view self.new.view thread e ⊎ ((e ≡ Busy) × (self.new ≡ self.old))) }
    {
        try_hold!(self, |roster| roster.info(alloc, thread), else TiError::Busy)
    }

    /// Whether a thread of this number is there, as `is_live` says. The error is 215 `Busy` (this profile) if the roster is in
    /// use. Then nothing changes.
    pub fn is_live_now(&mut self, thread: ThreadNo) -> Result<bool, TiError>
        ensures cell { self.new.cell ≡ self.old.cell }
        ensures hold { OnOk result (Looks self.old.view self.new.view) }
        ensures live { IfOk result (λ there. there ≡ is_live thread self.new.view.seen) }
        ensures busy { IfErr result (λ e. (e ≡ Busy) × (self.new ≡ self.old)) }
    {
        try_hold!(self, |roster| Ok(roster.is_live(thread)), else TiError::Busy)
    }

    /// How many events of threads' lives have happened.
    pub(crate) fn event_count_now(&mut self) -> Result<u64, TiError>
        ensures cell { self.new.cell ≡ self.old.cell }
        ensures hold { OnOk result (Looks self.old.view self.new.view) }
        ensures count { IfOk result (λ n. n ≡ length (life_of self.new.view.seen)) }
        ensures busy { IfErr result (λ e. (e ≡ Busy) × (self.new ≡ self.old)) }
    {
        try_hold!(self, |roster| Ok(roster.events()), else TiError::Busy)
    }

    /// What an agent is told next of threads' lives, by its modes.
    pub(crate) fn tell_now(&mut self, modes: LifeModes) -> Result<ToldLife, TiError>
        ensures cell { self.new.cell ≡ self.old.cell }
        ensures hold { OnOk result (Looks self.old.view self.new.view) }
        ensures told { IfOk result (λ t. t ≡ told_of (life_of self.new.view.seen) modes) }
        ensures order { OnOk result (AreInOrder (life_of self.new.view.seen)) }
        ensures busy { IfErr result (λ e. (e ≡ Busy) × (self.new ≡ self.old)) }
    {
        try_hold!(self, |roster| {
            roster.facts();
            Ok(roster.tell(modes))
        }, else TiError::Busy)
    }
}

ghost use Rattle.std.specs.Prelude.{◌≡◌, ◌≤◌, ◌+◌, ◌⊎◌, None, length, map, IfOk, IfErr, OnOk};
ghost use Rattle.ti_roster.specs.Events.{AreInOrder, life_of};
ghost use Rattle.ti_roster.specs.Modes.{told_of};
ghost use Rattle.ti_types.specs.declared.error.TiError.TheVariants.{Busy, Full, OutOfMemory};
ghost use Rattle.ti_roster.specs.Log.{is_live};
ghost use Rattle.ti_roster.specs.Stages.{alive};
ghost use Rattle.ti_roster.specs.Roster.{IsPlaceless, IsToldOf, coming_refusal, meeting_refusal, most_items};
ghost use Rattle.ti_service.specs.Agent.{IsNewAgent};
ghost use Rattle.ti_service.specs.Memberships.{state_of};
ghost use Rattle.ti_service.specs.Service.{Attaches, Claimed, Leaves, Looks, MayLeave, RefusesInfo, RefusesPlace, TakesDesks, roster_seen, with_handle};
ghost use Rattle.ti_service.specs.Starting.{Detaches, DoesNotEnd, DoesNotStart, EndsThread, RefusesDetach, StartsThread};
