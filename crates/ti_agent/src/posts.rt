//! Calls that are posted and collected later, so that an agent can ask many threads before it waits.

use crate::env::Env;
use crate::home::Home;
use std::alloc::Global;
use std::rt::Clock;
use std::sync::Wait;
use std::time::Duration;
use ti_cell::Pace;
use ti_replay::rules::waits as may_wait;
use ti_slot::Asked;
use ti_types::{Answer, Call, Limits, ThreadNo, TiError, Ticket, TraceBuf};

/// Makes the buffer that a call takes. 110 OUT_OF_MEMORY if a trace's buffer cannot be had. Other calls take none.
#[inline(always)]
pub(crate) fn buffer_for(alloc: Global, limits: Limits, call: Call) -> Result<TraceBuf, TiError>
    requires { is_well_formed call ≡ true }
    ensures room { IfOk result (λ b. IsJustBufferOf limits call b) }
    ensures memory { IfErr result (λ e. (e ≡ OutOfMemory) × (takes_buffer call ≡ true)) }
{
    match call {
        Call::Trace {
            start: _,
            max_count,
        } => TraceBuf::make(alloc, max_count, limits.depth),
        _ => Ok(TraceBuf::none()),
    }
}

impl<H: Home> Env<H> {
    /// The buffer that an admitted call takes, if the environment has room for the call at the thread at this place.
    ///
    /// 216 (this profile: `Full`) if the call may wait, and `window` calls are out there. Otherwise 110 OUT_OF_MEMORY if a
    /// trace's buffer cannot be had.
    #[inline(always)]
    pub(crate) fn room_for(
        &self,
        alloc: Global,
        thread: ThreadNo,
        place: ThreadNo,
        call: Call,
    ) -> Result<TraceBuf, TiError>
        requires place { place ≡ place_of self.now.env.desks thread }
        requires there { place_in self.now.env.desks thread < length self.now.env.desks }
        requires admitted { thread_refusal self.now.env thread call ≡ None }
        ensures room { OnOk result ((waits call && is_full self.now.env thread) ≡ false) }
        ensures buf { IfOk result (λ b. IsJustBufferOf self.now.env.state.limits call b) }
        ensures refused { IfErr result (λ e. Some e ≡ or_else (if waits call && is_full self.now.env thread then Some Full else None) (if takes_buffer call then Some OutOfMemory else None)) }
    {
        if self.has_no_room(thread, place, call) {
            return Err(TiError::Full);
        }
        buffer_for(alloc, self.state.limits(), call)
    }

    /// Whether a call may wait while the environment's window at the thread at this place is full.
    #[inline(always)]
    fn has_no_room(&self, thread: ThreadNo, place: ThreadNo, call: Call) -> bool
        requires place { place ≡ place_of self.now.env.desks thread }
        requires there { place_in self.now.env.desks thread < length self.now.env.desks }
        ensures { result ≡ (waits call && is_full self.now.env thread) }
    {
        let _thread = thread;
        may_wait(call) && self.desks[place.0 as usize].out() >= self.state.limits().window
    }

    /// Posts a call at a thread, by one hold. It gives the answer, or a ticket if the call waits for the running thread (JEP
    /// 312). The calls that read frames wait, and so do SuspendThread and PopFrame. It spends one call, also if the answer
    /// is never collected. The environment may make other calls meanwhile.
    ///
    /// The answer is the thread's own, an error included: 13, 14, 15, 31, 32, and 103 for a trace's `start` (JVM TI 11).
    ///
    /// Some calls are refused before they reach the thread, with the first of these that fits:
    ///
    /// - 99 MUST_POSSESS_CAPABILITY: it needs a capability that the environment does not have.
    /// - 10 INVALID_THREAD: there is no desk at a thread of this number. But 15 THREAD_NOT_ALIVE if there was a thread of this
    ///   number once.
    /// - 103 ILLEGAL_ARGUMENT: its count or depth is negative.
    /// - 209 CALLS_SPENT (this profile): the environment has no call left at this thread.
    /// - 216 (this profile: `Full`): the call may wait, and `window` calls are out there.
    /// - 110 OUT_OF_MEMORY: there is no memory for a trace's frames.
    ///
    /// Then nothing changes.
    pub fn post<R: Wait>(
        &mut self,
        rt: &R,
        alloc: Global,
        thread: ThreadNo,
        call: Call,
    ) -> Result<Asked, TiError>
        ensures admitted { IfOk result (λ a. posting_refusal self.old.env thread call ≡ None) }
        ensures posts { IfOk result (λ a. Posts self.old.env self.new.env thread call a) }
        ensures out { IfOk result (λ a. IsOutIfWaiting self.new.env a) }
        ensures refused { IfErr result (λ e. Some e ≡ or_else (posting_refusal self.old.env thread call) (if takes_buffer call then Some OutOfMemory else None)) }
        ensures unchanged { IfErr result (λ e. self.new ≡ self.old) }
        ensures home { self.new.home ≡ self.old.home }
    {
        let pace = Pace::new();
        for _ in rt.forever() {
            match self.post_now(alloc, thread, call) {
                Err(TiError::Busy) => self.await_free_at(rt, thread, &pace),
                result => {
                    self.wake_sleepers_at(thread);
                    return result;
                }
            }
        }
        unreachable!()
    }

    /// The answer to a posted call, by one hold, if it is there. It is the reply of the thread's history to the ticket. The
    /// ticket is then no longer out, so it is answered once.
    ///
    /// `None` while the answer is not there, and for a ticket that is not out at this environment. Then nothing is
    /// collected.
    pub fn try_collect<R: Wait>(&mut self, rt: &R, ticket: Ticket) -> Option<Answer>
        ensures looks { place_in self.old.env.desks ticket.thread < length self.old.env.desks → LooksFor self.old.env self.new.env ticket (option_map said result) }
        ensures nobody { length self.old.env.desks ≤ place_in self.old.env.desks ticket.thread → (self.new ≡ self.old) × (result ≡ None) }
        ensures home { self.new.home ≡ self.old.home }
    {
        let pace = Pace::new();
        for _ in rt.forever() {
            match self.collect_now(ticket) {
                Ok(answer) => {
                    self.wake_sleepers_at(ticket.thread);
                    return answer;
                }
                Err(_) => self.await_free_at(rt, ticket.thread, &pace),
            }
        }
        unreachable!()
    }

    /// The answer to a posted call, as `try_collect` gives it. It waits for at most this time, and sleeps between its holds.
    ///
    /// `None` when the time is over, or if the clock can't be read. The ticket is then out as before, so the call can be
    /// given more time. For a ticket that is not out at this environment, it waits in vain.
    pub fn collect_within<R: Wait + Clock>(
        &mut self,
        rt: &R,
        ticket: Ticket,
        time: Duration,
    ) -> Option<Answer>
        ensures waits { place_in self.old.env.desks ticket.thread < length self.old.env.desks → WaitsFor self.old.env self.new.env ticket (option_map said result) }
        ensures nobody { length self.old.env.desks ≤ place_in self.old.env.desks ticket.thread → (self.new ≡ self.old) × (result ≡ None) }
        ensures home { self.new.home ≡ self.old.home }
    {
        let at = self.place_of(ticket.thread).0 as usize;
        if at >= self.desks.len() {
            return None;
        }
        self.desks[at].collect_within(rt, ticket, time)
    }

    /// The answer to a posted call that was not collected. It waits until the answer is there. The ticket is then no longer
    /// out.
    pub fn collect<R: Wait>(&mut self, rt: &R, ticket: Ticket) -> Answer
        requires out { IsOut self.old.env ticket }
        ensures collects { Collects self.old.env self.new.env ticket (said result) }
        ensures home { self.new.home ≡ self.old.home }
    {
        let at = self.place_of(ticket.thread).0 as usize;
        self.desks[at].collect(rt, ticket)
    }
}

ghost use Rattle.std.specs.Prelude.{◌≡◌, ◌<◌, ◌≤◌, ◌&&◌, true, false, length, None, Some, IfOk, IfErr, OnOk, if◌then◌else◌};
ghost use Rattle.std.specs.Option.{option_map};
ghost use Rattle.ti_types.specs.Answer.{said};
ghost use Rattle.ti_types.specs.Refusing.{or_else};
ghost use Rattle.ti_types.specs.declared.error.TiError.TheVariants.{Full, OutOfMemory};
ghost use Rattle.ti_replay.specs.Admission.{takes_buffer};
ghost use Rattle.ti_replay.specs.Legal.{is_well_formed};
ghost use Rattle.ti_replay.specs.Settling.{waits};
ghost use Rattle.ti_agent.specs.Buffers.{IsJustBufferOf};
ghost use Rattle.ti_agent.specs.Env.{place_in, place_of, thread_refusal, is_full};
ghost use Rattle.ti_agent.specs.Posts.{posting_refusal, Posts, Collects, LooksFor, WaitsFor, IsOut, IsOutIfWaiting};
