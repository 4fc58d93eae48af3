//! The core: how it is made, the outcome of each event, and how answers are collected.

use crate::events;
use crate::events::index_of_thread;
use crate::thread::OneThread;
use std::alloc::Global;
use std::marker::Model;
use ti_env::EnvState;
use ti_types::{Answer, EnvNo, Event, Limits, Outcome, ThreadNo, TiError, Ticket};

/// All threads and environments, driven by events.
///
/// # Examples
///
/// ```rattle
/// use ti_core::Core;
/// use ti_types::{Answer, Call, EnvNo, Event, Limits, MethodNo, Outcome, Step, ThreadNo};
///
/// let (alloc, thread, env) = (rt.alloc(), ThreadNo(0), EnvNo(0));
/// let limits = Limits::new(1, 1, 16, 100, 10).ok_or("the limits are in range")?;
/// let mut core = Core::new(alloc, limits)?;
/// assert!(rt; matches!(core.step(alloc, Event::Start(thread)), Outcome::Done));
/// let _entered = core.step(alloc, Event::Own(thread, Step::Enter(MethodNo(3))));
/// // The thread runs, so the call waits for its next poll.
/// let Outcome::Posted(ticket) = core.step(alloc, Event::Ask(env, thread, Call::FrameCount)) else {
///     return Err("a running thread answers later".into());
/// };
/// assert!(rt; matches!(core.step(alloc, Event::Poll(thread)), Outcome::Went));
/// assert!(rt; matches!(core.take(ticket), Some(Answer::Count(1))));
/// ```
#[derive(Drop)]
pub struct Core {
    limits: Limits,
    envs: Vec<EnvState>,
    threads: Vec<OneThread>,
}

impl Model for Core {
    ghost use Rattle.ti_core.specs.Core.{CoreState, core_of};

    ghost Value = { CoreState };

    ghost view = { λ a. core_of a.limits a.envs.items a.threads.items };

    ghost use Rattle.ti_core.specs.Refines.{IsReached};

    ghost invariant = { λ a. IsReached (core_of a.limits a.envs.items a.threads.items) };
}

fn new_threads(alloc: Global, limits: Limits) -> Result<Vec<OneThread>, TiError>
    requires wide { limits.calls ≤ limits.window }
    ensures made { IfOk result (λ v. AreNew limits limits.threads v.items) }
    ensures memory { IfErr result (λ e. e ≡ TiError.OutOfMemory) }
{
    let mut threads = Vec::with_capacity(alloc, limits.threads as usize)?;
    for number in 0..limits.threads {
        let thread = OneThread::new(alloc, limits, ThreadNo(number))?;
        let Ok(()) = threads.push(thread) else {
            return Err(TiError::OutOfMemory);
        };
    }
    Ok(threads)
}

fn new_envs(alloc: Global, limits: Limits) -> Result<Vec<EnvState>, TiError>
    ensures made { IfOk result (λ v. v.items ≡ replicate limits.envs (new_env limits)) }
    ensures memory { IfErr result (λ e. e ≡ TiError.OutOfMemory) }
{
    let mut envs = Vec::with_capacity(alloc, limits.envs as usize)?;
    for _ in 0..limits.envs {
        let env = EnvState::new(alloc, limits)?;
        let Ok(()) = envs.push(env) else {
            return Err(TiError::OutOfMemory);
        };
    }
    Ok(envs)
}

fn take_at(limits: &Limits, threads: &mut [OneThread], ticket: Ticket) -> Option<Answer>
    ensures answer { option_map said result ≡ (if has ticket (thread_at limits.now threads.old ticket.thread).thread.uncollected
        then reply_to (thread_at limits.now threads.old ticket.thread).thread.limits (thread_at limits.now threads.old ticket.thread).thread.history ticket else None) }
    ensures next { threads.new ≡ (core_taken (core_of limits.now [] threads.old) ticket (is_some result)).threads }
    ensures there { is_some result ≡ true → ticket.thread.0 < length threads.old }
{
    let at = index_of_thread(threads, ticket.thread)?;
    let thread = &mut threads[at];
    thread.take(ticket)
}

fn is_standing_at(limits: &Limits, threads: &[OneThread], env: EnvNo, thread: ThreadNo) -> bool
    ensures { result ≡ (is_standing (thread_at limits.now threads.now thread).thread.limits (thread_at limits.now threads.now thread).thread.history env) }
{
    let Some(at) = index_of_thread(threads, thread) else {
        return false;
    };
    let thread = &threads[at];
    thread.standing(env)
}

impl Core {
    /// A new core, with all the room that it will need. Nothing has happened in it, and no ticket of it is out.
    ///
    /// The error is 216 (this profile: `Full`) if the limits have a `window` less than their `calls`, as those of
    /// `Limits::lasting` do: a core keeps the answer to each call until it is taken. It is 110 if there is no memory. Then
    /// nothing is made.
    #[tactic(auto, using(crate::proofs::NewLaws::new_stands, crate::proofs::NewLaws::none_out))]
    pub fn new(alloc: Global, limits: Limits) -> Result<Self, TiError>
        ensures limits { IfOk result (λ c. c.limits ≡ limits) }
        ensures refines { IfOk result (λ c. Refines [] c) }
        ensures fresh { IfOk result (λ c. (k : Ticket) → is_uncollected c k ≡ false) }
        ensures wide { OnOk result (limits.calls ≤ limits.window) }
        ensures refused { IfErr result (RefusesCore limits) }
    {
        if u64::from(limits.window) < limits.calls {
            return Err(TiError::Full);
        }
        let envs = new_envs(alloc, limits)?;
        let threads = new_threads(alloc, limits)?;
        Ok(Core {
            limits,
            envs,
            threads,
        })
    }

    /// What is always true of a core: it refines for some list of events, those that have happened in it. What `step`,
    /// `take`, `standing` and the list calls say of every such list, they say of that one.
    pub fn facts(&self)
        ensures refines { (events : List Happening) × Refines events self.now }
    {
        let _ = &self.limits;
    }

    /// Lets one event happen, as the rules of the core say.
    fn follow(&mut self, alloc: Global, event: Event) -> Outcome
        ensures next { self.new ≡ core_next self.old (happening event (told_now result)) }
        ensures told { told_now result ≡ core_told self.old (happening event (told_now result)) }
        ensures ticket { IfPosted result (λ k. IsTicketOf self.old.limits self.old.envs self.old.threads event k) }
        ensures reached { IsReached self.old }
    {
        events::step(
            alloc,
            &self.limits,
            &mut self.envs,
            &mut self.threads,
            event,
        )
    }

    fn take_out(&mut self, ticket: Ticket) -> Option<Answer>
        ensures answer { option_map said result ≡ (if is_uncollected self.old ticket
            then reply_to (thread_at self.old.limits self.old.threads ticket.thread).thread.limits (thread_at self.old.limits self.old.threads ticket.thread).thread.history ticket else None) }
        ensures next { self.new ≡ core_taken self.old ticket (is_some result) }
        ensures there { is_some result ≡ true → ticket.thread.0 < length self.old.threads }
        ensures reached { IsReached self.old }
    {
        take_at(&self.limits, &mut self.threads, ticket)
    }

    /// Lets one event happen: the profile's rules, and JVM TI 11's for the calls.
    ///
    /// From a core that refines for some events it makes one that refines for these and this one. The outcome is what the
    /// definitions say of the event at the end of all of them. It is `Posted` exactly if the call waits. The ticket has the
    /// number that the call has among its environment's calls at the thread.
    ///
    /// A refused event (clause `refused`) leaves every thread, what waits at it, all words and all capabilities as they
    /// were. It leaves every history too, save the entry of an admitted call that the thread's own answer refuses.
    ///
    /// Such a call has cost 1 of the environment's calls at the thread, and so has an admitted stop or read that is refused
    /// there. A call that is not admitted costs nothing, and neither does a go.
    ///
    /// Memory is taken for a `Trace` and a `Read` alone. If it runs out, the answer is 110, and the call costs nothing.
    pub fn step(&mut self, alloc: Global, event: Event) -> Outcome
        ensures limits { self.new.limits ≡ self.old.limits }
        ensures refines { (events : List Happening) → Refines events self.old → Refines (events ++ happening event (told_now result) ∷ []) self.new }
        ensures outcome { (events : List Happening) → Refines events self.old →
            told_now result ≡ out_of self.old.limits (events ++ happening event (told_now result) ∷ []) events (happening event (told_now result)) }
        ensures ticket { (events : List Happening) → Refines events self.old → IfPosted result (λ k. IsTicketBy self.old.limits events event k) }
        ensures fresh { IfPosted result (λ k. is_uncollected self.old k ≡ false) }
        ensures kept { (k : Ticket) → is_uncollected self.new k ≡ (is_uncollected self.old k || is_ticket_of result k) }
        ensures refused { (events : List Happening) → Refines events self.old → is_refusal (told_now result) ≡ true → IsUnchanged self.old.limits events (happening event (told_now result)) }
    {
        self.follow(alloc, event)
    }

    /// The answer to a call that was posted, once, when it is there. Otherwise `None`. Nothing else changes.
    pub fn take(&mut self, ticket: Ticket) -> Option<Answer>
        ensures limits { self.new.limits ≡ self.old.limits }
        ensures refines { (events : List Happening) → Refines events self.old → Refines events self.new }
        ensures answer { (events : List Happening) → Refines events self.old →
            option_map said result ≡ (if is_uncollected self.old ticket then reply_to self.old.limits (history_of self.old.limits ticket.thread events) ticket else None) }
        ensures kept { (k : Ticket) → is_uncollected self.new k ≡ (is_uncollected self.old k && not (same ticket k && is_some result)) }
    {
        self.take_out(ticket)
    }

    /// Whether this environment's stop is in force at the thread and the thread does not run.
    pub fn standing(&self, env: EnvNo, thread: ThreadNo) -> bool
        ensures { (events : List Happening) → Refines events self.now → result ≡ (nat_lt thread.0 self.now.limits.threads && is_standing self.now.limits (history_of self.now.limits thread events) env) }
    {
        is_standing_at(&self.limits, &self.threads, env, thread)
    }
}

ghost use Rattle.std.specs.Prelude.{◌≡◌, ◌<◌, ◌≤◌, ◌&&◌, ◌||◌, not, nat_lt, length, map, IfOk, IfErr, OnOk, if◌then◌else◌, is_some, None, replicate, [], ◌∷◌, ◌++◌, List, true, false};
ghost use Rattle.std.specs.Option.{option_map};
ghost use Rattle.ti_types.specs.Answer.{said};
ghost use Rattle.ti_replay.specs.Admission.{Happening};
ghost use Rattle.ti_replay.specs.Events.{history_of};
ghost use Rattle.ti_replay.specs.Outcomes.{told_now, told_later, out_of, outs, happening, happenings, was_for_memory};
ghost use Rattle.ti_replay.specs.Standing.{is_standing};
ghost use Rattle.ti_replay.specs.Tickets.{reply_to};
ghost use Rattle.ti_slot.specs.Tickets.{has, same};
ghost use Rattle.ti_env.specs.Env.{new_env};
ghost use Rattle.ti_core.specs.Threads.{IfPosted, is_ticket_of};
ghost use Rattle.ti_core.specs.Thread.{taken};
ghost use Rattle.ti_core.specs.Core.{CoreState, core_of, core_next, core_told, core_taken, is_uncollected, thread_at, IsTicketOf, RefusesCore};
ghost use Rattle.std.specs.List.{list_all};
ghost use Rattle.ti_core.specs.Runs.{IsTicketBy, is_final};
ghost use Rattle.ti_replay.specs.Refused.{is_refusal, IsUnchanged};
ghost use Rattle.ti_core.specs.Refines.{Refines, IsReached, AreNew};
