//! Calls of a desk that never wait.
//!
//! Each is the twin of a call that holds the cell, and tries to hold it just once. They take no runtime, so they neither
//! spin nor sleep, and they wake nobody (`wake_sleepers`). If another user holds the cell, or comes first, nothing changes.

use crate::desk::{Desk, collect_own, is_own_out};
use ti_replay::rules::waits;
use ti_slot::Asked;
use ti_types::{Answer, Call, EnvNo, TiError, Ticket, TraceBuf};

/// Tries to hold the cell of a desk's thread just once, and gives what comes of the slot. If the cell is in use, the error is the last
/// of what is given, and nothing changes.
macro_rules! try_hold {
    ($desk:ident, |$slot:ident| $said:expr, else $busy:expr) => {{
        let Some(seat) = $desk.seat.take() else {
            unreachable!()
        };
        match $desk.cell.hold_now(seat) {
            Ok(mut hold) => {
                let $slot = hold.slot();
                let said = $said;
                $desk.seat = Some(hold.store_quietly());
                Ok(said)
            }
            Err(seat) => {
                $desk.seat = Some(seat);
                Err($busy)
            }
        }
    }};
}

pub(crate) use try_hold;

/// What one hold sees of a thread.
#[derive(Drop)]
struct Looked {
    /// Whether the stop of the desk's environment is in force and the thread does not run.
    standing: bool,
    /// How often the thread has handed over.
    hand_overs: u64,
    /// Whose stop is in force.
    stopper: Option<EnvNo>,
}

impl Desk {
    /// Makes a call at the thread as `post` does, but tries to hold the cell just once. It costs one call.
    ///
    /// The result is the thread's answer, or a new ticket if the call waits for the running thread (JEP 312). From then on
    /// the ticket is among the desk's. The answer may be a refusal by the thread, as for `post`.
    ///
    /// The call, the calls that are left, and the buffer meet the conditions of `post`.
    ///
    /// If the cell is in use (this profile: `Busy`, 215), the error is the buffer, as it was. Then nothing changes, and no
    /// call is spent.
    ///
    /// # Examples
    ///
    /// ```rattle
    /// # use ti_handshake::{Polled, SharedCell};
    /// # use ti_slot::Asked;
    /// # use ti_types::{Answer, Call, Limits, ThreadNo, TiError, TraceBuf};
    /// # let limits = Limits::new(1, 2, 4, 16, 8).ok_or("the limits are in range")?;
    /// # let (cell, fresh, mut desks) = SharedCell::make(rt.alloc(), limits, ThreadNo(0))?;
    /// let other = desks.pop().ok_or("there are two environments")?.into_seat();
    /// let mut desk = desks.pop().ok_or("there are two environments")?;
    /// // While another user holds the cell, nothing changes. The buffer and the thread come back.
    /// let hold = cell.hold(&rt, other);
    /// let posted = desk.post_now(Call::FrameCount, TraceBuf::none());
    /// let started = fresh.start_now();
    /// let _other = hold.store_quietly();
    /// assert!(rt; posted.is_err());
    /// let Err((error, fresh)) = started else {
    ///     return Err("the cell was in use".into());
    /// };
    /// assert!(rt; error == TiError::Busy);
    /// // Now each call goes through, and none of them takes a runtime.
    /// let Ok(running) = fresh.start_now() else {
    ///     return Err("nobody has the cell".into());
    /// };
    /// let Ok(Asked::Waiting(ticket)) = desk.post_now(Call::FrameCount, TraceBuf::none()) else {
    ///     return Err("a running thread answers later".into());
    /// };
    /// assert!(rt; matches!(desk.collect_now(ticket), Ok(None)));
    /// let Ok(Polled::Go(_running)) = running.poll_now() else {
    ///     return Err("nothing bars the thread".into());
    /// };
    /// assert!(rt; matches!(desk.collect_now(ticket), Ok(Some(Answer::Count(0)))));
    /// ```
    #[inline(always)]
    pub fn post_now(&mut self, call: Call, buf: TraceBuf) -> Result<Asked, TraceBuf>
        requires well_formed { is_well_formed call ≡ true }
        requires calls { calls_spent self.old.env self.old.view.mine < self.old.view.subject.limits.calls }
        requires room { waits_is call ≡ true → length self.old.view.posted ≤ self.old.view.subject.limits.window }
        requires buf { IsBufferOf self.old.view.subject.limits call buf }
        ensures same { IsSame self.old self.new }
        ensures hold { IfOk result (λ a. HoldsWith self.old.view self.new.view (next_call self.old.view self.old.env call ∷ []) (self.old.view.posted ++ ticket_told a)) }
        ensures told { IfOk result (λ a. IsTold self.old.view self.new.view self.old.env call a) }
        ensures late { IfOk result (λ a. IsLate call a) }
        ensures out { IfOk result (λ a. IsTicketOut self.new a) }
        ensures busy { IfErr result (λ b. (b ≡ buf) × (self.new ≡ self.old)) }
    {
        if !waits(call) {
            return match self.ask_now(call) {
                Some(answer) => Ok(Asked::Answered(answer)),
                None => Err(buf),
            };
        }
        try_hold!(self, |slot| {
            slot.tickets();
            slot.ask(self.env, call, buf)
        }, else buf)
    }

    /// Makes a call at the thread that is answered at once, whatever the thread does: a question for its state, a resumption,
    /// or one of the two calls about the environment's word. It tries to hold the cell just once, and costs one call. The
    /// desk's tickets stay as they are.
    ///
    /// The answer may be a refusal by the thread, as for `post`.
    ///
    /// The call is not one that waits, and the environment has a call left at the thread.
    ///
    /// `None` if the cell is in use. Then nothing changes, and no call is spent.
    #[inline(always)]
    pub fn ask_now(&mut self, call: Call) -> Option<Answer>
        requires at_once { waits_is call ≡ false }
        requires calls { calls_spent self.old.env self.old.view.mine < self.old.view.subject.limits.calls }
        ensures same { IsSame self.old self.new }
        ensures hold { IfSome result (λ a. Holds self.old.view self.new.view (next_call self.old.view self.old.env call ∷ [])) }
        ensures told { IfSome result (λ a. IsTold self.old.view self.new.view self.old.env call (Answered a)) }
        ensures busy { IfNone result (self.new ≡ self.old) }
    {
        let Some(seat) = &mut self.seat else {
            unreachable!()
        };
        self.cell.ask_now(seat, self.env, call)
    }

    /// The answer to a call of this desk that waited, if it is there. It is the same as `try_collect`, but tries to hold the
    /// cell just once. Afterwards the ticket is no longer out, so it is answered once. The others stay.
    ///
    /// `None` while the answer is not there, for a ticket that is none of the desk's, and for one that was cancelled. Then
    /// all tickets stay as they are.
    ///
    /// The error is `Busy` (215) if the cell is in use (this profile). Then nothing changes.
    pub fn collect_now(&mut self, ticket: Ticket) -> Result<Option<Answer>, TiError>
        ensures same { IsSame self.old self.new }
        ensures hold { IfOk result (λ r. HoldsWith self.old.view self.new.view [] (if is_some r then without_ticket ticket self.old.view.posted else self.old.view.posted)) }
        ensures once { IfOk result (λ r. IfSome r (λ _. has ticket self.new.view.posted ≡ false)) }
        ensures answer { IfOk result (λ r. option_map said r ≡ (if is_out self.old ticket then reply_to self.old.view.subject.limits self.new.view.seen ticket else None)) }
        ensures place { IfOk result (λ r. IfSome r (λ a. ReplyAtPlace self.old.view.subject.limits self.new.view.seen ticket (said a))) }
        ensures busy { IfErr result (λ e. (e ≡ Busy) × (self.new ≡ self.old)) }
    {
        if self.cancelled.has(ticket) {
            let _out = self.has_out_now(ticket)?;
            return Ok(None);
        }
        try_hold!(self, |slot| {
            slot.tickets();
            collect_own(slot, self.env, ticket)
        }, else TiError::Busy)
    }

    /// Whether this is the ticket of a call of this desk that is out. It tries to hold the cell just once, and adds nothing.
    ///
    /// The error is `Busy` (215) if the cell is in use. Then nothing changes.
    pub(crate) fn has_out_now(&mut self, ticket: Ticket) -> Result<bool, TiError>
        ensures same { IsSame self.old self.new }
        ensures hold { OnOk result (Holds self.old.view self.new.view []) }
        ensures out { IfOk result (λ out. out ≡ has ticket self.old.view.posted) }
        ensures busy { IfErr result (λ e. (e ≡ Busy) × (self.new ≡ self.old)) }
    {
        try_hold!(self, |slot| is_own_out(slot, self.env, ticket), else TiError::Busy)
    }

    /// Stops the thread. It is the same as `try_stop`, but tries to hold the cell just once. It costs one call if it is not
    /// refused.
    ///
    /// The answer is a refusal with `AlreadyStopped` (211) if any stop is in force, this environment's own too (this
    /// profile). Then nothing changes.
    ///
    /// The error is `Busy` (215) if the cell is in use (this profile). Then nothing changes.
    pub fn stop_now(&mut self) -> Result<Answer, TiError>
        requires calls { calls_spent self.old.env self.old.view.mine < self.old.view.subject.limits.calls }
        ensures same { IsSame self.old self.new }
        ensures hold { OnOk result (Holds self.old.view self.new.view (if_none (stop_refusal self.old self.new) (entry.Stop self.old.env ∷ []))) }
        ensures answer { IfOk result (λ a. said a ≡ done_or (stop_refusal self.old self.new)) }
        ensures busy { IfErr result (λ e. (e ≡ Busy) × (self.new ≡ self.old)) }
    {
        try_hold!(self, |slot| slot.stop(self.env), else TiError::Busy)
    }

    /// Reads the thread's state and at most `max_count` of its newest frames under this environment's stop (JVM TI 11,
    /// GetAllStackTraces). It is the same as `read`, but tries to hold the cell just once. It costs one call if it is not
    /// refused. `max_count` is not negative. The buffer is empty and has room for the frames.
    ///
    /// The answer is a refusal with `NotStopped` (212) if this environment's stop is not in force. Otherwise it is one with
    /// `StillRunning` (213) if the thread runs (this profile). A refused read changes nothing.
    ///
    /// If the cell is in use (this profile: `Busy`, 215), the error is the buffer, as it was. Then nothing changes.
    pub fn read_now(&mut self, max_count: i32, buf: TraceBuf) -> Result<Answer, TraceBuf>
        requires count { is_not_negative max_count ≡ true }
        requires calls { calls_spent self.old.env self.old.view.mine < self.old.view.subject.limits.calls }
        requires buf { HasRoomFor self.old.view.subject.limits (or_zero_of max_count) buf }
        ensures same { IsSame self.old self.new }
        ensures hold { OnOk result (Holds self.old.view self.new.view (if_none (read_refusal self.old self.new max_count) (entry.Read self.old.env max_count ∷ []))) }
        ensures answer { IfOk result (λ a. read_answer (read_refusal self.old self.new max_count) (reply self.old.view.subject.limits self.new.view.seen (length (found self.old.view self.new.view))) ≡ Some (said a)) }
        ensures busy { IfErr result (λ b. (b ≡ buf) × (self.new ≡ self.old)) }
    {
        try_hold!(self, |slot| slot.read(self.env, max_count, buf), else buf)
    }

    /// Lets the thread go: this environment's stop is over. It is the same as `go`, but tries to hold the cell just once. It
    /// costs nothing.
    ///
    /// The answer is a refusal with `NotStopped` (212) if this environment's stop is not in force (this profile). Then
    /// nothing changes.
    ///
    /// The error is `Busy` (215) if the cell is in use (this profile). Then nothing changes, and the stop stays in force.
    pub fn go_now(&mut self) -> Result<Answer, TiError>
        ensures same { IsSame self.old self.new }
        ensures hold { OnOk result (Holds self.old.view self.new.view (if_none (go_refusal self.old self.new) (entry.Go self.old.env ∷ []))) }
        ensures answer { IfOk result (λ a. said a ≡ done_or (go_refusal self.old self.new)) }
        ensures busy { IfErr result (λ e. (e ≡ Busy) × (self.new ≡ self.old)) }
    {
        try_hold!(self, |slot| slot.go(self.env), else TiError::Busy)
    }

    /// Looks at the thread, and tries to hold the cell just once. It adds nothing.
    ///
    /// The error is `Busy` (215) if the cell is in use. Then nothing changes.
    fn look_now(&mut self) -> Result<Looked, TiError>
        ensures same { IsSame self.old self.new }
        ensures hold { OnOk result (Holds self.old.view self.new.view []) }
        ensures standing { IfOk result (λ l. l.standing ≡ is_standing self.old.view.subject.limits self.new.view.seen self.old.env) }
        ensures hand_overs { IfOk result (λ l. l.hand_overs ≡ hand_overs self.new.view.seen) }
        ensures stopper { IfOk result (λ l. l.stopper ≡ (view self.new.view.subject.limits self.new.view.seen).stopper) }
        ensures busy { IfErr result (λ e. (e ≡ Busy) × (self.new ≡ self.old)) }
    {
        try_hold!(self, |slot| Looked {
            standing: slot.standing(self.env),
            hand_overs: slot.hand_overs(),
            stopper: slot.stopper(),
        }, else TiError::Busy)
    }

    /// Whether this environment's stop is in force and the thread does not run. It is the same as `standing`, but tries to
    /// hold the cell just once. It adds nothing.
    ///
    /// The error is `Busy` (215) if the cell is in use (this profile). Then nothing changes.
    pub fn standing_now(&mut self) -> Result<bool, TiError>
        ensures same { IsSame self.old self.new }
        ensures hold { OnOk result (Holds self.old.view self.new.view []) }
        ensures standing { IfOk result (λ s. s ≡ is_standing self.old.view.subject.limits self.new.view.seen self.old.env) }
        ensures busy { IfErr result (λ e. (e ≡ Busy) × (self.new ≡ self.old)) }
    {
        match self.look_now() {
            Ok(looked) => Ok(looked.standing),
            Err(error) => Err(error),
        }
    }

    /// How often the thread has handed over so far, in native code, blocked or at a poll (this profile). A hand-over that
    /// was refused does not count, and neither does the thread's end. It tries to hold the cell just once, and adds nothing.
    ///
    /// The error is `Busy` (215) if the cell is in use (this profile). Then nothing changes.
    ///
    /// # Examples
    ///
    /// ```rattle
    /// # use ti_handshake::SharedCell;
    /// # use ti_types::{Kind, Limits, ThreadNo, TiError};
    /// # let limits = Limits::new(1, 2, 4, 16, 8).ok_or("the limits are in range")?;
    /// # let (cell, fresh, mut desks) = SharedCell::make(rt.alloc(), limits, ThreadNo(0))?;
    /// # let other = desks.pop().ok_or("there are two environments")?.into_seat();
    /// # let mut desk = desks.pop().ok_or("there are two environments")?;
    /// let running = fresh.start(&rt);
    /// assert!(rt; desk.hand_overs_now()? == 0);
    /// let Ok(asleep) = running.block(&rt, Kind::Sleep) else {
    ///     return Err("there is enough left to spend".into());
    /// };
    /// assert!(rt; desk.hand_overs_now()? == 1);
    /// // A return is no hand-over.
    /// let _running = asleep.back(&rt);
    /// assert!(rt; desk.hand_overs_now()? == 1);
    /// // While another user holds the cell, the count is not told.
    /// let hold = cell.hold(&rt, other);
    /// assert!(rt; matches!(desk.hand_overs_now(), Err(TiError::Busy)));
    /// let _other = hold.store();
    /// ```
    pub fn hand_overs_now(&mut self) -> Result<u64, TiError>
        ensures same { IsSame self.old self.new }
        ensures hold { OnOk result (Holds self.old.view self.new.view []) }
        ensures hand_overs { IfOk result (λ n. n ≡ hand_overs self.new.view.seen) }
        ensures busy { IfErr result (λ e. (e ≡ Busy) × (self.new ≡ self.old)) }
    {
        match self.look_now() {
            Ok(looked) => Ok(looked.hand_overs),
            Err(error) => Err(error),
        }
    }

    /// Which environment's stop is in force at the thread (this profile). `None` if no stop is. It tries to hold the cell just
    /// once, and adds nothing.
    ///
    /// The error is `Busy` (215) if the cell is in use (this profile). Then nothing changes.
    pub fn stopper_now(&mut self) -> Result<Option<EnvNo>, TiError>
        ensures same { IsSame self.old self.new }
        ensures hold { OnOk result (Holds self.old.view self.new.view []) }
        ensures stopper { IfOk result (λ s. s ≡ (view self.new.view.subject.limits self.new.view.seen).stopper) }
        ensures busy { IfErr result (λ e. (e ≡ Busy) × (self.new ≡ self.old)) }
    {
        match self.look_now() {
            Ok(looked) => Ok(looked.stopper),
            Err(error) => Err(error),
        }
    }
}

ghost use Rattle.std.specs.Prelude.{◌≡◌, ◌<◌, ◌≤◌, ◌+◌, ◌++◌, true, false, if◌then◌else◌, is_some, [], ◌∷◌, length, Some, None, IfSome, IfNone, IfOk, IfErr, OnOk};
ghost use Rattle.std.specs.Option.{option_map};
ghost use Rattle.ti_types.specs.Answer.{said};
ghost use Rattle.ti_types.specs.declared.entry.Entry.TheVariants as entry;
ghost use Rattle.ti_types.specs.declared.error.TiError.TheVariants.{Busy};
ghost use Rattle.ti_replay.specs.Answers.{done_or, or_zero as or_zero_of};
ghost use Rattle.ti_replay.specs.View.{view};
ghost use Rattle.ti_replay.specs.Events.{if_none};
ghost use Rattle.ti_replay.specs.Legal.{calls_spent, is_not_negative, is_well_formed};
ghost use Rattle.ti_replay.specs.Replies.{reply};
ghost use Rattle.ti_replay.specs.Settling.{waits as waits_is};
ghost use Rattle.ti_replay.specs.Standing.{is_standing};
ghost use Rattle.ti_replay.specs.Tickets.{reply_to};
ghost use Rattle.ti_slot.specs.HandOvers.{hand_overs};
ghost use Rattle.ti_slot.specs.declared.asked.Asked.TheVariants.{Answered};
ghost use Rattle.ti_slot.specs.Thread.{IsLate, read_answer};
ghost use Rattle.ti_slot.specs.Tickets.{has, without_ticket};
ghost use Rattle.ti_slot.specs.Waiting.{HasRoomFor, IsBufferOf};
ghost use Rattle.ti_handshake.specs.Call.{Holds, HoldsWith, IsTold, found, next_call, ticket_told};
ghost use Rattle.ti_handshake.specs.Desk.{IsSame, IsTicketOut, ReplyAtPlace, is_out, stop_refusal, read_refusal, go_refusal};
