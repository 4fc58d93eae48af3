//! A handle of the service: threads come and go by it, and tell who is there.

use crate::agent::Agent;
use crate::event::EventModes;
use crate::holding::until_free;
use crate::membership::Membership;
use std::alloc::Global;
use std::marker::Model;
use std::sync::Wait;
use ti_agent::{Env, FreeDesk};
use ti_cell::Pace;
use ti_methods::Classes;
use ti_roster::{RosterSeat, SharedRoster};
use ti_types::{Caps, EnvNo, Limits, TiError};

/// A handle of a service. A runtime makes one, and shares it with whoever attaches threads or environments. The service lives
/// as long as one of its handles.
///
/// Contracts see it as the service that it is of, with the classes that it has seen, and what it knows of the roster: what has
/// happened, as far as it has seen.
///
/// # Examples
///
/// ```rattle
/// # use ti_service::{Service, ServiceCalls, ServiceTries, ThreadInfo};
/// # use ti_types::{Limits, ThreadNo, TiError};
/// # let alloc = rt.alloc();
/// # let limits = Limits::new(1, 2, 4, 16, 8).ok_or("the limits are in range")?;
/// let mut service = Service::make(alloc, limits)?;
/// let name = String::from_str(alloc, "first")?;
/// let fresh = service.attach_thread(&rt, alloc, ThreadInfo { name, priority: 5 })?;
/// // An environment may come later than a thread. It meets the threads that are there.
/// let mut agent = service.attach_environment(&rt, alloc)?;
/// agent.meet(&rt, alloc)?;
/// let Ok(running) = service.start_thread(&rt, fresh) else {
///     return Err("nobody suspends it".into());
/// };
/// assert!(rt; agent.get_thread_state(&rt, ThreadNo(0)) == Ok(0x5));
/// // A thread may come later than an environment, too. Its number is the next one.
/// let name = String::from_str(alloc, "second")?;
/// let late = service.attach_thread(&rt, alloc, ThreadInfo { name, priority: 5 })?;
/// assert!(rt; agent.get_thread_state(&rt, ThreadNo(1)) == Err(TiError::InvalidThread));
/// assert!(rt; agent.has_news());
/// agent.meet(&rt, alloc)?;
/// assert!(rt; agent.get_thread_state(&rt, ThreadNo(1)) == Ok(0));
/// // The second thread has not started, so only the first one is live.
/// let threads = service.get_all_threads(&rt, alloc)?;
/// assert!(rt; threads.len() == 1 && threads[0] == ThreadNo(0));
/// // A thread that has ended is given back, and is there no more.
/// let Ok(ended) = service.end_thread(&rt, running) else {
///     return Err("it runs".into());
/// };
/// let Ok(()) = service.detach_thread(&rt, ended) else {
///     return Err("it is there".into());
/// };
/// assert!(rt; service.get_all_threads(&rt, alloc)?.is_empty());
/// let info = agent.get_thread_info(&rt, alloc, ThreadNo(1))?;
/// assert!(rt; info.name.as_str() == "second");
/// let Ok(()) = service.withdraw_thread(&rt, late) else {
///     return Err("it is there".into());
/// };
/// ```
#[derive(Drop)]
pub struct Service {
    pub(crate) roster: SharedRoster,
    pub(crate) classes: Classes,
    /// The capabilities that environments can have. All handles of one service have the same.
    pub(crate) potential: Caps,
    /// `None` only while a call holds the roster.
    pub(crate) seat: Option<RosterSeat>,
}

impl Model for Service {
    ghost use Rattle.ti_service.specs.Service.{Member, IsThere, base_of, member_in};

    ghost Value = { Member };

    ghost view = { λ s. member_in (base_of s.roster s.classes s.potential) s.seat };

    ghost invariant = { λ s. IsThere (base_of s.roster s.classes s.potential) s.seat };
}

impl Service {
    /// Makes a service with nobody, and without a class. Its threads have the depth and the window of these limits. At most `envs`
    /// environments come to it. An environment has desks at 65,536 threads at most. It can have `can_suspend` and
    /// `can_pop_frame`.
    ///
    /// 110 OUT_OF_MEMORY if there is no memory for it, and no other error (this profile).
    pub fn make(alloc: Global, limits: Limits) -> Result<Service, TiError>
        ensures new { IfOk result (λ s. s.view ≡ first_view limits) }
        ensures classes { IfOk result (λ s. s.cell.classes.seen ≡ []) }
        ensures potential { IfOk result (λ s. s.cell.potential ≡ potential_caps) }
        ensures memory { IfErr result (λ e. e ≡ OutOfMemory) }
    {
        Service::make_with(alloc, limits, Caps::CAN_SUSPEND.add(Caps::CAN_POP_FRAME))
    }

    /// The same, for a runtime that says which capabilities its environments can have (JVM TI 11, GetPotentialCapabilities).
    /// One whose threads cannot go on after a pop leaves `can_pop_frame` out.
    ///
    /// The error is 98 NOT_AVAILABLE if one of these capabilities cannot be had anywhere, and then 110 OUT_OF_MEMORY if there is
    /// no memory for the service (this profile).
    pub fn make_with(alloc: Global, limits: Limits, potential: Caps) -> Result<Service, TiError>
        ensures new { IfOk result (λ s. s.view ≡ first_view limits) }
        ensures classes { IfOk result (λ s. s.cell.classes.seen ≡ []) }
        ensures potential { IfOk result (λ s. s.cell.potential ≡ potential) }
        ensures available { OnOk result (can_be_had potential ≡ true) }
        ensures refused { IfErr result (λ e. Some e ≡ or_else (unless (can_be_had potential) NotAvailable) (Some OutOfMemory)) }
    {
        if !potential.can_be_had() {
            return Err(TiError::NotAvailable);
        }
        let (roster, seat) = SharedRoster::make(alloc, limits)?;
        let Ok(classes) = Classes::make(alloc) else {
            return Err(TiError::OutOfMemory);
        };
        Ok(Service {
            roster,
            classes,
            potential,
            seat: Some(seat),
        })
    }

    /// One more handle. It knows what this one knows, and is no environment's. It takes no memory. Nothing changes but that
    /// this handle has made one more. The error is 216 `Full` if there are 2^63 handles already (this profile). Then nothing
    /// changes.
    pub fn share(&mut self) -> Result<Service, TiError>
        ensures made { OnOk result (self.new ≡ with_handle self.old) }
        ensures other { IfOk result (λ s. (s.cell ≡ self.old.cell) × (s.view ≡ split_off self.old.view)) }
        ensures full { IfErr result (λ e. e ≡ Full) }
        ensures unchanged { OnErr result (self.new ≡ self.old) }
    {
        let roster = self.roster.share()?;
        let Ok(classes) = self.classes.share() else {
            return Err(TiError::Full);
        };
        let Some(seat) = &mut self.seat else {
            unreachable!()
        };
        let seat = self.roster.split(seat);
        Ok(Service {
            roster,
            classes,
            potential: self.potential,
            seat: Some(seat),
        })
    }

    /// Whether something has happened that this handle has not seen. It is one load, and true exactly if more had happened at
    /// that load. Once it is true, it stays so until a call of this handle holds the roster. That call finds what is new.
    /// Nothing changes but that the handle has looked.
    pub fn has_news(&mut self) -> bool
        ensures tells { TellsNews self.old self.new result }
    {
        let Some(seat) = &mut self.seat else {
            unreachable!()
        };
        self.roster.count(seat) > seat.seen_len()
    }

    /// The limits of the service's threads and environments.
    pub fn limits(&self) -> Limits
        ensures { result ≡ self.now.view.limits }
    {
        let Some(seat) = &self.seat else {
            unreachable!()
        };
        seat.limits()
    }

    /// The capabilities that the service's environments can have (JVM TI 11, GetPotentialCapabilities).
    pub fn potential(&self) -> Caps
        ensures { result ≡ self.now.cell.potential }
    {
        self.potential
    }

    /// A number for an environment, which is this handle's from now on.
    fn claim<R: Wait>(&mut self, rt: &R) -> Result<EnvNo, TiError>
        requires { self.old.view.place ≡ None }
        ensures cell { self.new.cell ≡ self.old.cell }
        ensures claimed { IfOk result (λ e. Claimed self.old.view self.new.view e) }
        ensures full { IfErr result (λ e. (e ≡ Full) × IsPlaceless (roster_seen self.new.view)) }
        ensures unchanged { OnErr result (Looks self.old.view self.new.view) }
    {
        until_free!(self, rt, TiError::Busy, self.claim_now())
    }

    /// Attaches an environment. Its number was nobody's, and is never free again. It has no capability, the word 0, and no desk
    /// yet: it meets the threads by `ServiceCalls::meet`.
    ///
    /// It takes no memory. Nothing changes of this handle but that it has made one more, which is the agent's.
    ///
    /// 216 `Full` (this profile) if there are as many environments as the limits allow, or 2^62 - 1 comings and goings in
    /// all, or 2^63 handles. Then no environment came, and no number is taken. The handle that was made is let go of.
    pub fn attach_environment<R: Wait>(&mut self, rt: &R, alloc: Global) -> Result<Agent, TiError>
        ensures made { OnOk result (self.new ≡ with_handle self.old) }
        ensures attached { IfOk result (λ a. IsNewAgent self.old (state_of a)) }
        ensures refused { IfErr result (λ e. RefusesPlace self.old self.new e) }
    {
        let mut service = self.share()?;
        let env = service.claim(rt)?;
        let limits = service.limits();
        let home = Membership {
            service,
            waiting: Vec::new(alloc),
            events: EventModes::new(),
            unmet: false,
        };
        Ok(Env::at_home(alloc, home, env, limits))
    }

    /// The desks of this handle's environment at the threads that came since it last took them, and are there. With them
    /// comes the number of all threads that came.
    pub(crate) fn meet<R: Wait>(
        &mut self,
        rt: &R,
        alloc: Global,
    ) -> Result<(Vec<FreeDesk>, u32), TiError>
        ensures cell { self.new.cell ≡ self.old.cell }
        ensures taken { IfOk result (λ d. TakesDesks self.old.view self.new.view d.0.items d.1) }
        ensures refused { IfErr result (λ e. e ≡ meeting_refusal (roster_seen self.new.view)) }
        ensures unchanged { OnErr result (Looks self.old.view self.new.view) }
    {
        until_free!(self, rt, TiError::Busy, self.meet_now(alloc))
    }

    /// This handle's environment is disposed of, and gives these desks back. The handle is no environment's any more.
    ///
    /// 216 `Full` (this profile) if there were 2^62 - 1 comings and goings in all, or there would be with the desks. Then the
    /// desks come back, and nothing changes but what the handle has seen.
    pub(crate) fn leave<R: Wait>(
        &mut self,
        rt: &R,
        desks: Vec<FreeDesk>,
    ) -> Result<(), (TiError, Vec<FreeDesk>)>
        requires { MayLeave self.old.view desks.items }
        ensures cell { self.new.cell ≡ self.old.cell }
        ensures left { OnOk result (Leaves self.old.view self.new.view desks.items) }
        ensures full { IfErr result (λ r. (r.0 ≡ Full) × (most_items ≤ length self.new.view.seen + length desks.items)) }
        ensures back { IfErr result (λ r. r.1 ≡ desks) }
        ensures unchanged { OnErr result (Looks self.old.view self.new.view) }
    {
        let pace = Pace::new();
        let mut desks = desks;
        for _ in rt.forever() {
            match self.leave_now(desks) {
                Err((TiError::Busy, again)) => desks = again,
                result => {
                    self.wake_sleepers();
                    return result;
                }
            }
            self.roster.await_free(rt, &pace);
        }
        unreachable!()
    }
}

ghost use Rattle.std.specs.Prelude.{◌≡◌, ◌≤◌, ◌+◌, [], None, Some, length, true, IfOk, IfErr, OnOk, OnErr};
ghost use Rattle.ti_types.specs.Caps.{can_be_had};
ghost use Rattle.ti_types.specs.Refusing.{or_else, unless};
ghost use Rattle.ti_types.specs.declared.error.TiError.TheVariants.{Full, NotAvailable, OutOfMemory};
ghost use Rattle.ti_agent.specs.Env.{potential_caps};
ghost use Rattle.ti_roster.specs.View.{first_view, split_off};
ghost use Rattle.ti_roster.specs.Roster.{IsPlaceless, meeting_refusal, most_items};
ghost use Rattle.ti_service.specs.Agent.{IsNewAgent};
ghost use Rattle.ti_service.specs.Memberships.{state_of};
ghost use Rattle.ti_service.specs.Service.{Attaches, Claimed, Leaves, Looks, MayLeave, RefusesPlace, TakesDesks, TellsNews, roster_seen, with_handle};
