//! A desk: an environment's calls at one thread.

use crate::cancelled::Cancelled;
use crate::retries::until_free;
use crate::shared_cell::SharedCell;
use crate::waits::{Deadline, await_news, await_news_until};
use std::marker::Model;
use std::rt::Clock;
use std::sync::Wait;
use std::time::Duration;
use ti_cell::{EnvSeat, Pace};
use ti_slot::{Asked, Slot};
use ti_types::{Answer, Call, EnvNo, Limits, ThreadNo, Ticket, TraceBuf};

/// One environment at one thread. Contracts see it as a `DeskState`: its cell, its environment, its seat's view, and its calls
/// that were cancelled and are still out.
///
/// # Examples
///
/// ```rattle
/// # use ti_handshake::{Polled, SharedCell};
/// # use ti_slot::Asked;
/// # use ti_types::{Answer, Call, Limits, ThreadNo, TraceBuf};
/// # let limits = Limits::new(1, 1, 4, 16, 8).ok_or("the limits are in range")?;
/// let (_cell, fresh, mut desks) = SharedCell::make(rt.alloc(), limits, ThreadNo(0))?;
/// let mut desk = desks.pop().ok_or("there is one environment")?;
/// let running = fresh.start(&rt);
/// let state = desk.call(&rt, Call::State, TraceBuf::none());
/// assert!(rt; matches!(state, Answer::State(0x5)));
/// // The thread has its frames while it runs, so a call about them waits for its next poll.
/// let Asked::Waiting(ticket) = desk.post(&rt, Call::FrameCount, TraceBuf::none()) else {
///     return Err("a running thread answers later".into());
/// };
/// assert!(rt; desk.try_collect(&rt, ticket).is_none());
/// let Polled::Go(_running) = running.poll(&rt) else {
///     return Err("nothing bars the thread".into());
/// };
/// assert!(rt; matches!(desk.collect(&rt, ticket), Answer::Count(0)));
/// ```
#[derive(Drop)]
pub struct Desk {
    pub(crate) cell: SharedCell,
    pub(crate) env: EnvNo,
    /// `None` only while a call holds the cell.
    pub(crate) seat: Option<EnvSeat>,
    pub(crate) cancelled: Cancelled,
}

impl Model for Desk {
    ghost use Rattle.ti_handshake.specs.Desk.{DeskState};
    ghost use Rattle.ti_handshake.specs.Seated.{IsThere, place_in};

    ghost Value = { DeskState };

    ghost view = { λ d. place_in d.cell d.env d.seat d.cancelled };

    ghost invariant = { λ d. IsThere d.cell d.env d.seat d.cancelled.tickets };
}

impl Desk {
    /// The desk of the environment that has this seat, which is this cell's.
    ///
    /// `SharedCell::make` gives a thread and its desks, and has no condition.
    pub fn new(cell: SharedCell, seat: EnvSeat) -> Desk
        requires cell { seat.cell ≡ cell }
        ensures cell { result.cell ≡ cell }
        ensures env { result.env.0 + 1 ≡ seat.view.number }
        ensures view { result.view ≡ seat.view }
        ensures none { (result.cancelled ≡ []) × (result.former ≡ 0) }
    {
        seat.facts();
        let env = EnvNo(seat.number() - 1);
        Desk {
            cell,
            env,
            seat: Some(seat),
            cancelled: Cancelled::none(),
        }
    }

    /// What is always true of a desk. Its seat is its environment's, does not hold the cell, and has not come back. What was
    /// seen is a legal history. Its entries with the seat's number are exactly those made from this seat. No more of its
    /// calls are out than it made entries. The calls that were cancelled are among those that are out.
    pub fn facts(&self)
        ensures rests { (self.now.view.holds ≡ false) × (self.now.view.found ≡ []) }
        ensures there_still { self.now.view.gone ≡ false }
        ensures number { self.now.view.number ≡ self.now.env.0 + 1 }
        ensures there { self.now.env.0 < self.now.view.subject.limits.envs }
        ensures legal { is_legal self.now.view.subject.limits self.now.view.seen ≡ true }
        ensures mine { self.now.view.mine ≡ made_by self.now.view.number self.now.view.seen }
        ensures few { length self.now.view.posted ≤ length self.now.view.mine }
        ensures cancelled { AreCancelled self.now.cancelled self.now.view.posted }
    {
        let Some(seat) = &self.seat else {
            unreachable!()
        };
        seat.facts();
    }

    /// The environment whose desk it is.
    pub fn env(&self) -> EnvNo
        ensures { result ≡ self.now.env }
    {
        self.env
    }

    /// The number of the thread that it is at (this profile).
    pub fn thread(&self) -> ThreadNo
        ensures { result ≡ self.now.view.subject.thread }
    {
        let Some(seat) = &self.seat else {
            unreachable!()
        };
        seat.thread()
    }

    /// The limits of the thread that it is at (this profile).
    pub fn limits(&self) -> Limits
        ensures { result ≡ self.now.view.subject.limits }
    {
        let Some(seat) = &self.seat else {
            unreachable!()
        };
        seat.limits()
    }

    /// How many entries of the thread's history the desk has seen (this profile).
    pub fn seen_len(&self) -> usize
        ensures { result ≡ length self.now.view.seen }
    {
        let Some(seat) = &self.seat else {
            unreachable!()
        };
        seat.seen_len()
    }

    /// How many of the desk's calls are out: they wait, or have an answer that is not collected (this profile).
    pub fn out(&self) -> u32
        ensures { result ≡ length self.now.view.posted }
    {
        let Some(seat) = &self.seat else {
            unreachable!()
        };
        seat.out()
    }

    /// Makes a call at the thread, in one hold. It costs one call.
    ///
    /// The result is the thread's answer, or a new ticket if the call waits for the running thread (JEP 312). From then on
    /// the ticket is among the desk's.
    ///
    /// The answer may be a refusal by the thread, as `Slot::ask` says of each call (JVM TI 11). Its number is 13, 14, 15,
    /// 31, 32, or 103 for a trace's `start`. A refused call changes nothing but the history.
    ///
    /// The call is well formed, and the environment has a call left at the thread. The buffer is empty and has room for a
    /// trace's frames. For a call that may wait, at most `window` calls are out. So one call may be out beyond the window,
    /// and `call` has room even when the window is full.
    #[inline(always)]
    pub fn post<R: Wait>(&mut self, rt: &R, call: Call, buf: TraceBuf) -> Asked
        requires well_formed { is_well_formed call ≡ true }
        requires calls { calls_spent self.old.env self.old.view.mine < self.old.view.subject.limits.calls }
        requires room { waits call ≡ true → length self.old.view.posted ≤ self.old.view.subject.limits.window }
        requires buf { IsBufferOf self.old.view.subject.limits call buf }
        ensures same { IsSame self.old self.new }
        ensures hold { HoldsWith self.old.view self.new.view (next_call self.old.view self.old.env call ∷ []) (self.old.view.posted ++ ticket_told result) }
        ensures told { IsTold self.old.view self.new.view self.old.env call result }
        ensures late { IsLate call result }
        ensures out { IsTicketOut self.new result }
    {
        let pace = Pace::new();
        let mut buf = buf;
        for _ in rt.forever() {
            match self.post_now(call, buf) {
                Ok(asked) => {
                    self.wake_sleepers();
                    return asked;
                }
                Err(again) => buf = again,
            }
            self.cell.await_free(rt, &pace);
        }
        unreachable!()
    }

    /// Waits for the answer to a call of this desk that waited: the reply of the history to the ticket. It looks for the
    /// answer by holds until it is there, and waits between them by looks (`await_news`).
    ///
    /// The ticket is one of the desk's, and was not cancelled. Afterwards it is no longer out, so it is answered once. The
    /// others stay.
    pub fn collect<R: Wait>(&mut self, rt: &R, ticket: Ticket) -> Answer
        requires out { is_out self.old ticket ≡ true }
        ensures same { IsSame self.old self.new }
        ensures hold { WaitsWith self.old.view self.new.view [] (without_ticket ticket self.old.view.posted) }
        ensures once { has ticket self.new.view.posted ≡ false }
        ensures answer { reply_to self.old.view.subject.limits self.new.view.seen ticket ≡ Some (said result) }
        ensures place { ReplyAtPlace self.old.view.subject.limits self.new.view.seen ticket (said result) }
    {
        self.facts();
        for _ in rt.forever() {
            if let Some(answer) = self.try_collect(rt, ticket) {
                return answer;
            }
            self.await_news(rt);
        }
        unreachable!()
    }

    /// The answer to a call of this desk that waited, if it is there, in one hold. It is the reply of the history to the
    /// ticket. Afterwards the ticket is no longer out, so it is answered once. The others stay.
    ///
    /// `None` while the answer is not there, for a ticket that is none of the desk's, and for one that was cancelled. Then
    /// all tickets stay as they are.
    pub fn try_collect<R: Wait>(&mut self, rt: &R, ticket: Ticket) -> Option<Answer>
        ensures same { IsSame self.old self.new }
        ensures hold { HoldsWith self.old.view self.new.view [] (if is_some result then without_ticket ticket self.old.view.posted else self.old.view.posted) }
        ensures once { IfSome result (λ _. has ticket self.new.view.posted ≡ false) }
        ensures answer { option_map said result ≡ (if is_out self.old ticket then reply_to self.old.view.subject.limits self.new.view.seen ticket else None) }
        ensures place { IfSome result (λ a. ReplyAtPlace self.old.view.subject.limits self.new.view.seen ticket (said a)) }
    {
        until_free!(self, rt, self.collect_now(ticket))
    }

    /// The same as `try_collect`, but it waits for the answer for at most this time. It looks for the answer by holds, and
    /// waits between them by looks.
    ///
    /// `None` when the time is over, or the clock can't be read. Then the ticket is out as before. For a ticket that is none
    /// of the desk's, or was cancelled, it waits in vain.
    pub fn collect_within<R: Wait + Clock>(
        &mut self,
        rt: &R,
        ticket: Ticket,
        time: Duration,
    ) -> Option<Answer>
        ensures same { IsSame self.old self.new }
        ensures hold { WaitsWith self.old.view self.new.view [] (if is_some result then without_ticket ticket self.old.view.posted else self.old.view.posted) }
        ensures once { IfSome result (λ _. has ticket self.new.view.posted ≡ false) }
        ensures answer { option_map said result ≡ (if is_out self.old ticket then reply_to self.old.view.subject.limits self.new.view.seen ticket else None) }
        ensures place { IfSome result (λ a. ReplyAtPlace self.old.view.subject.limits self.new.view.seen ticket (said a)) }
    {
        self.facts();
        let deadline = Deadline::after(rt, time);
        for _ in rt.forever() {
            let found = self.try_collect(rt, ticket);
            if found.is_some() {
                return found;
            }
            if !self.await_news_until(rt, &deadline) {
                return None;
            }
        }
        unreachable!()
    }

    /// Makes a call at the thread, and waits for its answer if it has to. It costs one call. The desk's tickets stay as they
    /// were.
    ///
    /// The answer is the reply at the place of the call, whatever others did before the call took place. It may be a refusal
    /// by the thread, as for `post`.
    #[inline(always)]
    pub fn call<R: Wait>(&mut self, rt: &R, call: Call, buf: TraceBuf) -> Answer
        requires well_formed { is_well_formed call ≡ true }
        requires calls { calls_spent self.old.env self.old.view.mine < self.old.view.subject.limits.calls }
        requires room { waits call ≡ true → length self.old.view.posted ≤ self.old.view.subject.limits.window }
        requires buf { IsBufferOf self.old.view.subject.limits call buf }
        ensures same { IsSame self.old self.new }
        ensures goes { GoesOn self.old.view self.new.view }
        ensures mine { self.new.view.mine ≡ self.old.view.mine ++ next_call self.old.view self.old.env call ∷ [] }
        ensures posted { self.new.view.posted ≡ self.old.view.posted }
        ensures answer { IsAnswered self.old.view self.new.view (next_call self.old.view self.old.env call) (said result) }
    {
        match self.post(rt, call, buf) {
            Asked::Answered(answer) => answer,
            Asked::Waiting(ticket) => self.collect(rt, ticket),
        }
    }

    /// Waits until the thread's history has entries that the desk has not seen. Until then a hold would find what the last
    /// one found (this profile). It only looks, so it keeps nobody out of the cell. Between its looks it pauses, and later
    /// it sleeps.
    pub fn await_news<R: Wait>(&mut self, rt: &R)
        ensures same { IsSame self.old self.new }
        ensures news { SawNews self.old.view self.new.view }
    {
        let Some(seat) = &mut self.seat else {
            unreachable!()
        };
        await_news(rt, &self.cell, seat);
    }

    /// The same as `await_news`, but it waits only until the deadline. Returns whether there are such entries. If there are
    /// none, nothing but looks was done.
    pub fn await_news_until<R: Wait + Clock>(&mut self, rt: &R, deadline: &Deadline) -> bool
        ensures same { IsSame self.old self.new }
        ensures looks { (looks : List Look) × (self.new.view ≡ with_looks self.old.view looks) }
        ensures news { result ≡ true → SawNews self.old.view self.new.view }
    {
        let Some(seat) = &mut self.seat else {
            unreachable!()
        };
        await_news_until(rt, &self.cell, seat, deadline)
    }

    /// Takes the desk apart and gives its seat, which may go back to the owner's (`ThreadCell::rejoin`).
    pub fn into_seat(self) -> EnvSeat
        ensures cell { result.cell ≡ self.cell }
        ensures view { result.view ≡ self.view }
    {
        let Desk {
            cell: _,
            env: _,
            seat,
            cancelled: _,
        } = self;
        let Some(seat) = seat else { unreachable!() };
        seat
    }
}

/// Whether the ticket is this environment's, and is out.
pub(crate) fn is_own_out(slot: &Slot, env: EnvNo, ticket: Ticket) -> bool
    ensures { result ≡ (ticket.env.0 == env.0 && has ticket slot.now.uncollected) }
{
    ticket.env.0 == env.0 && slot.is_out(ticket)
}

/// Collects the answer to a ticket of this environment. The answer to another environment's ticket is left where it is.
pub(crate) fn collect_own(slot: &mut Slot, env: EnvNo, ticket: Ticket) -> Option<Answer>
    ensures answer { option_map said result ≡ (if ticket.env.0 == env.0 && has ticket slot.old.uncollected then reply_to slot.old.limits slot.old.history ticket else None) }
    ensures thread { slot.new ≡ with_tickets slot.old (if is_some result then without_ticket ticket slot.old.uncollected else slot.old.uncollected) }
{
    if ticket.env.0 != env.0 {
        return None;
    }
    slot.collect(ticket)
}

ghost use Rattle.std.specs.Prelude.{List, ◌≡◌, ◌==◌, ◌&&◌, ◌<◌, ◌≤◌, ◌+◌, ◌++◌, true, false, if◌then◌else◌, is_some, [], ◌∷◌, length, Some, None, IfSome};
ghost use Rattle.std.specs.Option.{option_map};
ghost use Rattle.ti_types.specs.Answer.{said};
ghost use Rattle.ti_replay.specs.Makers.{made_by};
ghost use Rattle.ti_replay.specs.Legal.{is_legal, calls_spent, is_well_formed};
ghost use Rattle.ti_replay.specs.Settling.{waits};
ghost use Rattle.ti_replay.specs.Tickets.{reply_to};
ghost use Rattle.ti_slot.specs.Thread.{IsLate, with_tickets};
ghost use Rattle.ti_slot.specs.Tickets.{has, without_ticket};
ghost use Rattle.ti_slot.specs.Waiting.{IsBufferOf};
ghost use Rattle.ti_cell.specs.declared.look.Look.{Look};
ghost use Rattle.ti_handshake.specs.Call.{GoesOn, WaitsWith, Holds, HoldsWith, found, IsTold, IsAnswered, SawNews, next_call, ticket_told, with_looks};
ghost use Rattle.ti_handshake.specs.Cancelled.{AreCancelled};
ghost use Rattle.ti_handshake.specs.Desk.{DeskState, IsSame, IsTicketOut, ReplyAtPlace, is_out};
