//! Calls of a desk that are cancelled, and calls with a deadline.

use crate::cancelled::Cancelled;
use crate::desk::Desk;
use crate::discarded::Discarded;
use crate::retries::until_free;
use std::alloc::Global;
use std::mem;
use std::rt::Clock;
use std::sync::Wait;
use std::time::Duration;
use ti_cell::Pace;
use ti_slot::{Asked, Slot};
use ti_types::{Answer, Call, EnvNo, TiError, Ticket, TraceBuf};

impl Desk {
    /// The ticket of the call that was cancelled first, and is still out (this profile). `None` if there is none.
    pub fn first_cancelled(&self) -> Option<Ticket>
        ensures { result ≡ slice_get self.now.cancelled 0 }
    {
        self.cancelled.first()
    }

    /// Takes the list of calls that were cancelled out of the desk, until `put_cancelled` puts it back.
    pub(crate) fn take_cancelled(&mut self) -> Cancelled
        ensures tickets { result.tickets ≡ self.old.cancelled }
        ensures former { result.former ≡ self.old.former }
        ensures given { AreCancelled result.tickets self.old.view.posted }
        ensures none { self.new ≡ with_cancelled self.old [] 0 }
    {
        mem::replace(&mut self.cancelled, Cancelled::none())
    }

    /// Puts a list of calls that were cancelled in place of the desk's own. Each of them is out.
    pub(crate) fn put_cancelled(&mut self, cancelled: Cancelled)
        requires { AreCancelled cancelled.tickets self.old.view.posted }
        ensures { self.new ≡ with_cancelled self.old cancelled.tickets cancelled.former }
    {
        self.cancelled = cancelled;
    }

    /// Whether the call that was cancelled first is out, and is one of an environment that has left (this profile).
    pub fn is_former(&self) -> bool
        ensures { result ≡ nat_lt 0 self.now.former }
    {
        self.cancelled.is_former()
    }

    /// Whether a call that this environment cancelled is still out (this profile).
    pub fn has_cancelled(&self) -> bool
        ensures { result ≡ nat_lt self.now.former (length self.now.cancelled) }
    {
        self.cancelled.has_own()
    }

    /// The environment leaves: those of its calls that are out are from now on calls of one that has left, and nobody is told their
    /// answers (this profile).
    pub fn leave(&mut self)
        ensures { self.new ≡ with_cancelled self.old self.old.cancelled (length self.old.cancelled) }
    {
        self.cancelled.leave();
    }

    /// Cancels a posted call whose answer is not collected, in one hold. `discard` discards its answer once it is there.
    ///
    /// The call still takes place when the thread reaches it: a suspension suspends, and a pop pops. It is out until its
    /// answer is discarded (this profile). A ticket that is not out, or was cancelled before, is left as it is.
    ///
    /// The error is 110 OUT_OF_MEMORY if there is no memory to note the ticket. Then nothing changes.
    pub fn cancel<R: Wait>(&mut self, rt: &R, alloc: Global, ticket: Ticket) -> Result<(), TiError>
        ensures here { (self.new.cell ≡ self.old.cell) × (self.new.env ≡ self.old.env) }
        ensures hold { OnOk result (Holds self.old.view self.new.view []) }
        ensures cancelled { OnOk result (self.new.cancelled ≡ (if is_out self.old ticket then self.old.cancelled ++ ticket ∷ [] else self.old.cancelled)) }
        ensures former { OnOk result (self.new.former ≡ self.old.former) }
        ensures memory { IfErr result (λ e. e ≡ OutOfMemory) }
        ensures unchanged { OnErr result (self.new ≡ self.old) }
    {
        let pace = Pace::new();
        for _ in rt.forever() {
            match self.cancel_now(alloc, ticket) {
                Ok(()) => {
                    self.wake_sleepers();
                    return Ok(());
                }
                Err(TiError::Busy) => self.cell.await_free(rt, &pace),
                Err(error) => return Err(error),
            }
        }
        unreachable!()
    }

    /// Looks in one hold for the answer to the call that was cancelled first. If it is there, it is discarded, and the call
    /// is no longer out. Returns which call it was and what came of it. `None` if the answer is not there. If no call was
    /// cancelled, nothing is done, and the result is `None` (this profile).
    pub fn discard<R: Wait>(&mut self, rt: &R) -> Option<Discarded>
        ensures discards { Discards self.old self.new (is_some result) }
        ensures tells { IfSome result (λ r. TellsDiscarded self.old self.new r.ticket (said r.answer)) }
    {
        until_free!(self, rt, self.discard_now())
    }

    /// Makes a call at the thread, and waits for its answer for at most this time. If the answer does not come, the error is
    /// the call's ticket, and the call is out.
    fn call_or_leave<R: Wait + Clock>(
        &mut self,
        rt: &R,
        call: Call,
        buf: TraceBuf,
        time: Duration,
    ) -> Result<Answer, Ticket>
        requires well_formed { is_well_formed call ≡ true }
        requires calls { calls_spent self.old.env self.old.view.mine < self.old.view.subject.limits.calls }
        requires room { waits call ≡ true → length self.old.view.posted ≤ self.old.view.subject.limits.window }
        requires buf { IsBufferOf self.old.view.subject.limits call buf }
        ensures same { IsSame self.old self.new }
        ensures goes { GoesOn self.old.view self.new.view }
        ensures mine { self.new.view.mine ≡ self.old.view.mine ++ next_call self.old.view self.old.env call ∷ [] }
        ensures left { MatchResult result (λ a. IsAnsweredAt self.old self.new call (said a)) (λ t. IsLeft self.old self.new call t) }
    {
        let ticket = match self.post(rt, call, buf) {
            Asked::Answered(answer) => return Ok(answer),
            Asked::Waiting(ticket) => ticket,
        };
        match self.collect_within(rt, ticket, time) {
            Some(answer) => Ok(answer),
            None => Err(ticket),
        }
    }

    /// Makes a call at the thread, and waits for its answer for at most this time. It costs one call. The answer may be a
    /// refusal by the thread, as for `post`.
    ///
    /// `None` when the time is over, or the clock can't be read. Then the call was cancelled, as by `cancel`.
    ///
    /// The error is 110 OUT_OF_MEMORY if there is no memory to note that the call is cancelled. Then nothing was asked.
    pub fn call_within<R: Wait + Clock>(
        &mut self,
        rt: &R,
        alloc: Global,
        call: Call,
        buf: TraceBuf,
        time: Duration,
    ) -> Result<Option<Answer>, TiError>
        requires well_formed { is_well_formed call ≡ true }
        requires calls { calls_spent self.old.env self.old.view.mine < self.old.view.subject.limits.calls }
        requires room { waits call ≡ true → length self.old.view.posted ≤ self.old.view.subject.limits.window }
        requires buf { IsBufferOf self.old.view.subject.limits call buf }
        ensures goes { OnOk result (GoesOn self.old.view self.new.view) }
        ensures mine { OnOk result (self.new.view.mine ≡ self.old.view.mine ++ next_call self.old.view self.old.env call ∷ []) }
        ensures in_time { IfOk result (λ r. IsInTime self.old self.new call (option_map said r)) }
        ensures memory { IfErr result (λ e. e ≡ OutOfMemory) }
        ensures unchanged { OnErr result (self.new ≡ self.old) }
    {
        let mut cancelled = self.take_cancelled();
        if let Err(error) = cancelled.reserve(alloc, 1) {
            self.put_cancelled(cancelled);
            return Err(error);
        }
        match self.call_or_leave(rt, call, buf, time) {
            Ok(answer) => {
                self.put_cancelled(cancelled);
                Ok(Some(answer))
            }
            Err(ticket) => {
                cancelled.add(ticket);
                self.put_cancelled(cancelled);
                Ok(None)
            }
        }
    }
}

/// Adds the tickets of all of an environment's calls that are out to a list of some of them. There is room for all.
pub(crate) fn add_own_out(slot: &Slot, env: EnvNo, cancelled: &mut Cancelled)
    requires given { AreCancelled cancelled.old.tickets (tickets_of (env.0 + 1) slot.now.uncollected) }
    requires room { length (tickets_of (env.0 + 1) slot.now.uncollected) ≤ cancelled.old.room }
    ensures former { cancelled.new.former ≡ cancelled.old.former }
    ensures added { AddsAll (tickets_of (env.0 + 1) slot.now.uncollected) cancelled.old.tickets cancelled.new.tickets }
{
    slot.tickets();
    // The number of a call is below the number of entries.
    let entries = slot.len() as u64;
    let mut from = 0;
    while from < entries {
        let Some(ticket) = slot.next_out(env, from) else {
            return;
        };
        if !cancelled.has(ticket) {
            cancelled.add(ticket);
        }
        from = ticket.no + 1;
    }
}

ghost use Rattle.std.specs.Prelude.{◌≡◌, ◌<◌, ◌≤◌, ◌+◌, ◌++◌, ◌∷◌, [], true, length, if◌then◌else◌, is_some, slice_get, IfSome, IfOk, IfErr, OnOk, OnErr, MatchResult, nat_lt};
ghost use Rattle.std.specs.Option.{option_map};
ghost use Rattle.ti_types.specs.Answer.{said};
ghost use Rattle.ti_types.specs.declared.error.TiError.TheVariants.{OutOfMemory};
ghost use Rattle.ti_replay.specs.Legal.{calls_spent, is_well_formed};
ghost use Rattle.ti_replay.specs.Settling.{waits};
ghost use Rattle.ti_slot.specs.Waiting.{IsBufferOf};
ghost use Rattle.ti_cell.specs.View.{tickets_of};
ghost use Rattle.ti_handshake.specs.Call.{GoesOn, Holds, next_call};
ghost use Rattle.ti_handshake.specs.Cancelled.{AddsAll, AreCancelled};
ghost use Rattle.ti_handshake.specs.Desk.{CancelsAll, Discards, IsAnsweredAt, IsInTime, IsLeft, IsSame, TellsDiscarded, is_out, with_cancelled};
