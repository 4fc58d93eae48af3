//! Calls of an environment that never wait.
//!
//! Each is the twin of a call that holds the cell of one thread, and tries to hold it just once. They take no runtime, so
//! they neither spin nor sleep, and they wake nobody (`Env::wake_sleepers_at`). If another user holds the cell, or comes
//! first, nothing changes.

use crate::env::Env;
use crate::free_desk::FreeDesk;
use crate::home::Home;
use std::alloc::Global;
use std::sync::Wait;
use ti_cell::Pace;
use ti_replay::rules::waits as may_wait;
use ti_slot::Asked;
use ti_types::{Answer, Call, EnvNo, ThreadNo, TiError, Ticket, TraceBuf};

impl<H: Home> Env<H> {
    /// Wakes whoever sleeps at a thread and may go on: the thread itself, or another environment. A program in which others sleep
    /// calls it after calls that never wait. It is one load if nobody sleeps. Nothing happens if there is no desk there.
    pub fn wake_sleepers_at(&self, thread: ThreadNo) {
        let place = self.place_of(thread);
        if place.0 < self.state.threads() {
            self.desks[place.0 as usize].wake_sleepers();
        }
    }

    /// Waits a little, after a try that found a thread's cell in use, as the call's pace has it. It may sleep until the cell is
    /// free, and may return while it is in use. Nothing happens if there is no desk there.
    pub(crate) fn await_free_at<R: Wait>(&self, rt: &R, thread: ThreadNo, pace: &Pace) {
        let place = self.place_of(thread);
        if place.0 < self.state.threads() {
            self.desks[place.0 as usize].await_free(rt, pace);
        }
    }

    /// Makes an admitted call that is answered at once, at the thread at this place. It tries to hold the thread's cell just
    /// once.
    ///
    /// The error is `Busy` (215) if the cell is in use. Then nothing changes.
    #[inline(always)]
    fn ask_one_now(
        &mut self,
        thread: ThreadNo,
        place: ThreadNo,
        call: Call,
    ) -> Result<Asked, TiError>
        requires place { place ≡ place_of self.old.env.desks thread }
        requires admitted { thread_refusal self.old.env thread call ≡ None }
        requires at_once { waits call ≡ false }
        ensures posts { IfOk result (λ a. Posts self.old.env self.new.env thread call a) }
        ensures busy { IfErr result (λ e. (e ≡ Busy) × (self.new ≡ self.old)) }
        ensures home { self.new.home ≡ self.old.home }
    {
        let _thread = thread;
        match self.desks[place.0 as usize].ask_now(call) {
            Some(answer) => {
                self.state.spend(place);
                Ok(Asked::Answered(answer))
            }
            None => Err(TiError::Busy),
        }
    }

    /// Posts an admitted call for which there is room, at the thread at this place, and tries to hold its cell just once.
    /// The buffer has just the room that the call takes.
    ///
    /// The error is `Busy` (215) if the cell is in use. Then nothing changes.
    #[inline(always)]
    fn post_one_now(
        &mut self,
        thread: ThreadNo,
        place: ThreadNo,
        call: Call,
        buf: TraceBuf,
    ) -> Result<Asked, TiError>
        requires place { place ≡ place_of self.old.env.desks thread }
        requires admitted { thread_refusal self.old.env thread call ≡ None }
        requires room { (waits call && is_full self.old.env thread) ≡ false }
        requires buf { IsJustBufferOf self.old.env.state.limits call buf }
        ensures posts { IfOk result (λ a. Posts self.old.env self.new.env thread call a) }
        ensures busy { IfErr result (λ e. (e ≡ Busy) × (self.new ≡ self.old)) }
        ensures home { self.new.home ≡ self.old.home }
    {
        let _thread = thread;
        match self.desks[place.0 as usize].post_now(call, buf) {
            Ok(asked) => {
                self.state.spend(place);
                Ok(asked)
            }
            Err(_) => Err(TiError::Busy),
        }
    }

    /// Posts an admitted call with the buffer that it takes, at the thread at this place, and tries to hold its cell just once.
    ///
    /// The error is 216 (this profile: `Full`) if the call may wait, and `window` calls are out there; otherwise 110
    /// OUT_OF_MEMORY if a trace's buffer cannot be had; otherwise 215 (this profile: `Busy`) if the cell is in use. Then
    /// nothing changes.
    // It is a function of its own, so that the calls that are answered at once are compiled into their callers.
    #[inline(never)]
    fn post_with_buffer_now(
        &mut self,
        alloc: Global,
        thread: ThreadNo,
        place: ThreadNo,
        call: Call,
    ) -> Result<Asked, TiError>
        requires place { place ≡ place_of self.old.env.desks thread }
        requires there { place_in self.old.env.desks thread < length self.old.env.desks }
        requires admitted { thread_refusal self.old.env thread call ≡ None }
        ensures room { OnOk result ((waits call && is_full self.old.env thread) ≡ false) }
        ensures posts { IfOk result (λ a. Posts self.old.env self.new.env thread call a) }
        ensures refused { IfErr result (λ e. (Some e ≡ or_else (if waits call && is_full self.old.env thread then Some Full else None) (if takes_buffer call then Some OutOfMemory else None)) ⊎ ((e ≡ Busy) × ((waits call && is_full self.old.env thread) ≡ false))) }
        ensures unchanged { IfErr result (λ e. self.new ≡ self.old) }
        ensures home { self.new.home ≡ self.old.home }
    {
        match self.room_for(alloc, thread, place, call) {
            Ok(buf) => self.post_one_now(thread, place, call, buf),
            Err(error) => Err(error),
        }
    }

    /// Posts a call at a thread as `post` does, but tries to hold the thread's cell just once. It spends one call, also if
    /// the answer is never collected.
    ///
    /// It gives the answer, or a ticket if the call waits for the running thread (JEP 312). The answer is the thread's own,
    /// an error included: 13, 14, 15, 31, 32, and 103 for a trace's `start` (JVM TI 11).
    ///
    /// Some calls are refused before they reach the thread, with the first of these that fits:
    ///
    /// - 99 MUST_POSSESS_CAPABILITY: it needs a capability that the environment does not have.
    /// - 10 INVALID_THREAD: there is no desk at a thread of this number. But 15 THREAD_NOT_ALIVE if there was a thread of this
    ///   number once.
    /// - 103 ILLEGAL_ARGUMENT: its count or depth is negative.
    /// - 209 CALLS_SPENT (this profile): the environment has no call left at this thread.
    /// - 216 (this profile: `Full`): the call may wait, and `window` calls are out there.
    /// - 110 OUT_OF_MEMORY: there is no memory for a trace's frames.
    /// - 215 (this profile: `Busy`): the thread's cell is in use.
    ///
    /// Then nothing changes.
    ///
    /// # Examples
    ///
    /// ```rattle
    /// # use ti_agent::{Env, FreeDesk};
    /// # use ti_handshake::{Polled, SharedCell};
    /// # use ti_slot::Asked;
    /// # use ti_types::{Answer, Call, EnvNo, Limits, ThreadNo, TiError};
    /// # let (alloc, thread) = (rt.alloc(), ThreadNo(0));
    /// # let limits = Limits::new(1, 2, 4, 16, 8).ok_or("the limits are in range")?;
    /// # let (cell, fresh, mut desks) = SharedCell::make(alloc, limits, thread)?;
    /// # let other = desks.pop().ok_or("there are two environments")?.into_seat();
    /// # let desk = desks.pop().ok_or("there are two environments")?;
    /// # let running = fresh.start(&rt);
    /// # let free = FreeDesk::new(desk).ok().ok_or("the desk is new")?;
    /// # let mut env = Env::with_no_desks(alloc, EnvNo(0), limits);
    /// # assert!(rt; env.add_desk(free).is_ok());
    /// // While another user holds the thread's cell, nothing is posted.
    /// let hold = cell.hold(&rt, other);
    /// let posted = env.post_now(alloc, thread, Call::FrameCount);
    /// let _other = hold.store();
    /// assert!(rt; matches!(posted, Err(TiError::Busy)));
    /// let Asked::Waiting(ticket) = env.post_now(alloc, thread, Call::FrameCount)? else {
    ///     return Err("a running thread answers later".into());
    /// };
    /// assert!(rt; env.collect_now(ticket)?.is_none());
    /// let Ok(Polled::Go(_running)) = running.poll_now() else {
    ///     return Err("nothing bars the thread".into());
    /// };
    /// assert!(rt; matches!(env.collect_now(ticket)?, Some(Answer::Count(0))));
    /// ```
    #[inline(always)]
    pub fn post_now(
        &mut self,
        alloc: Global,
        thread: ThreadNo,
        call: Call,
    ) -> Result<Asked, TiError>
        ensures admitted { IfOk result (λ a. posting_refusal self.old.env thread call ≡ None) }
        ensures posts { IfOk result (λ a. Posts self.old.env self.new.env thread call a) }
        ensures out { IfOk result (λ a. IsOutIfWaiting self.new.env a) }
        ensures refused { IfErr result (λ e. (Some e ≡ or_else (posting_refusal self.old.env thread call) (if takes_buffer call then Some OutOfMemory else None)) ⊎ ((e ≡ Busy) × (posting_refusal self.old.env thread call ≡ None))) }
        ensures unchanged { IfErr result (λ e. self.new ≡ self.old) }
        ensures home { self.new.home ≡ self.old.home }
    {
        let place = match self.admit(thread, call) {
            Ok(place) => place,
            Err(error) => return Err(error),
        };
        if may_wait(call) {
            self.post_with_buffer_now(alloc, thread, place, call)
        } else {
            self.ask_one_now(thread, place, call)
        }
    }

    /// The answer to a posted call, if it is there. It is the same as `try_collect`, but tries to hold the thread's cell
    /// just once. The ticket is then no longer out, so it is answered once.
    ///
    /// `None` while the answer is not there, and for a ticket that is not out at this environment. Then nothing is
    /// collected.
    ///
    /// The error is 215 (this profile: `Busy`) if the thread's cell is in use. Then nothing changes.
    pub fn collect_now(&mut self, ticket: Ticket) -> Result<Option<Answer>, TiError>
        ensures looks { IfOk result (λ r. place_in self.old.env.desks ticket.thread < length self.old.env.desks → LooksFor self.old.env self.new.env ticket (option_map said r)) }
        ensures nobody { length self.old.env.desks ≤ place_in self.old.env.desks ticket.thread → (self.new ≡ self.old) × (result ≡ Ok None) }
        ensures busy { IfErr result (λ e. e ≡ Busy) }
        ensures unchanged { OnErr result (self.new ≡ self.old) }
        ensures home { self.new.home ≡ self.old.home }
    {
        let at = self.place_of(ticket.thread).0 as usize;
        if at >= self.desks.len() {
            return Ok(None);
        }
        self.desks[at].collect_now(ticket)
    }

    /// Cancels a call that was posted and not collected (this profile). It is the same as `cancel`, but tries to hold the
    /// thread's cell just once. The call still takes place when the thread reaches it. It is out until `discard_now` or
    /// `discard` discards its answer.
    ///
    /// A ticket that is not out at this environment, or was cancelled before, is left as it is.
    ///
    /// The error is one of these. Then nothing changes.
    ///
    /// - 110 OUT_OF_MEMORY: there is no memory to note that the call was cancelled.
    /// - 215 (this profile: `Busy`): the thread's cell is in use.
    pub fn cancel_now(&mut self, alloc: Global, ticket: Ticket) -> Result<(), TiError>
        ensures cancels { OnOk result (place_in self.old.env.desks ticket.thread < length self.old.env.desks → Cancels self.old.env self.new.env ticket) }
        ensures nobody { length self.old.env.desks ≤ place_in self.old.env.desks ticket.thread → (self.new ≡ self.old) × IsOk result }
        ensures refused { IfErr result (λ e. (e ≡ OutOfMemory) ⊎ (e ≡ Busy)) }
        ensures unchanged { OnErr result (self.new ≡ self.old) }
        ensures home { self.new.home ≡ self.old.home }
    {
        let at = self.place_of(ticket.thread).0 as usize;
        if at >= self.desks.len() {
            return Ok(());
        }
        self.desks[at].cancel_now(alloc, ticket)
    }

    /// Where the desk at a thread is. 10 if there is none, or 15 if there was a thread of this number once.
    fn desk_at(&self, thread: ThreadNo) -> Result<usize, TiError>
        ensures admitted { OnOk result (absence_refusal self.now.env thread ≡ None) }
        ensures place { IfOk result (λ at. at ≡ place_in self.now.env.desks thread) }
        ensures there { IfOk result (λ at. at < length self.now.env.desks) }
        ensures refused { IfErr result (λ e. absence_refusal self.now.env thread ≡ Some e) }
    {
        let at = self.place_of(thread).0 as usize;
        if at >= self.desks.len() {
            return Err(self.map_error(thread, TiError::InvalidThread));
        }
        Ok(at)
    }

    /// How often a thread has handed over so far, in native code, blocked or at a poll (this profile). A hand-over that was
    /// refused does not count, and neither does the thread's end. The count of a thread that ended is told as long as there is a
    /// desk at it. The call tries to hold the thread's cell just once, adds nothing to the thread's history, spends no call,
    /// and needs no capability.
    ///
    /// The error is the first of these that fits:
    ///
    /// - 10 INVALID_THREAD: there is no desk at a thread of this number. But 15 THREAD_NOT_ALIVE if there was a thread of this
    ///   number once.
    /// - 215 (this profile: `Busy`): the thread's cell is in use.
    ///
    /// Then nothing changes.
    ///
    /// # Examples
    ///
    /// ```rattle
    /// # use ti_agent::{Env, FreeDesk};
    /// # use ti_handshake::SharedCell;
    /// # use ti_types::{EnvNo, Kind, Limits, ThreadNo, TiError};
    /// # let (alloc, thread) = (rt.alloc(), ThreadNo(0));
    /// # let limits = Limits::new(1, 1, 4, 16, 8).ok_or("the limits are in range")?;
    /// # let (_cell, fresh, mut desks) = SharedCell::make(alloc, limits, thread)?;
    /// # let desk = desks.pop().ok_or("there is one environment")?;
    /// # let free = FreeDesk::new(desk).ok().ok_or("the desk is new")?;
    /// # let mut env = Env::with_no_desks(alloc, EnvNo(0), limits);
    /// # assert!(rt; env.add_desk(free).is_ok());
    /// let Ok(asleep) = fresh.start(&rt).block(&rt, Kind::Sleep) else {
    ///     return Err("there is enough left to spend".into());
    /// };
    /// assert!(rt; env.hand_overs_now(thread)? == 1);
    /// let _running = asleep.back(&rt);
    /// assert!(rt; env.hand_overs_now(thread)? == 1);
    /// assert!(rt; matches!(env.hand_overs_now(ThreadNo(1)), Err(TiError::InvalidThread)));
    /// ```
    pub fn hand_overs_now(&mut self, thread: ThreadNo) -> Result<u64, TiError>
        ensures admitted { OnOk result (absence_refusal self.old.env thread ≡ None) }
        ensures counts { IfOk result (λ n. CountsHandOvers self.old.env self.new.env thread n) }
        ensures refused { IfErr result (λ e. (absence_refusal self.old.env thread ≡ Some e) ⊎ ((e ≡ Busy) × (absence_refusal self.old.env thread ≡ None))) }
        ensures unchanged { OnErr result (self.new ≡ self.old) }
        ensures home { self.new.home ≡ self.old.home }
    {
        let at = self.desk_at(thread)?;
        self.desks[at].hand_overs_now()
    }

    /// Which environment's stop is in force at a thread (this profile). `None` if no stop is. A thread that refuses a stop with
    /// 211 AlreadyStopped, or whose start or return is barred, is held by this one. It tries to hold the thread's cell just
    /// once, adds nothing to its history, spends no call, and needs no capability.
    ///
    /// The errors are those of `hand_overs_now`.
    pub fn stopper_now(&mut self, thread: ThreadNo) -> Result<Option<EnvNo>, TiError>
        ensures admitted { OnOk result (absence_refusal self.old.env thread ≡ None) }
        ensures tells { IfOk result (λ s. TellsStopper self.old.env self.new.env thread s) }
        ensures refused { IfErr result (λ e. (absence_refusal self.old.env thread ≡ Some e) ⊎ ((e ≡ Busy) × (absence_refusal self.old.env thread ≡ None))) }
        ensures unchanged { OnErr result (self.new ≡ self.old) }
        ensures home { self.new.home ≡ self.old.home }
    {
        let at = self.desk_at(thread)?;
        self.desks[at].stopper_now()
    }

    /// Cancels all calls that are out at a thread, and sets the environment's word there to 0, if a call is left. It tries to
    /// hold the thread's cell just once, for both. The place is the thread's, and there is a desk.
    ///
    /// The error is 110 OUT_OF_MEMORY, or `Busy` (215) if the cell is in use. Then nothing changes.
    fn empty_now(&mut self, alloc: Global, thread: ThreadNo, place: ThreadNo) -> Result<(), TiError>
        requires place { place ≡ place_of self.old.env.desks thread }
        requires there { place_in self.old.env.desks thread < length self.old.env.desks }
        ensures emptied { OnOk result (IsEmptied self.old.env self.new.env thread) }
        ensures refused { IfErr result (λ e. (e ≡ OutOfMemory) ⊎ (e ≡ Busy)) }
        ensures unchanged { OnErr result (self.new ≡ self.old) }
        ensures home { self.new.home ≡ self.old.home }
    {
        let _thread = thread;
        if self.state.left(place) == 0 {
            return self.desks[place.0 as usize].cancel_all_now(alloc);
        }
        match self.desks[place.0 as usize].clear_now(alloc) {
            Ok(()) => {
                self.state.spend(place);
                Ok(())
            }
            Err(error) => Err(error),
        }
    }

    /// Takes the desk at a thread out of the environment, and leaves nothing there of what the environment did (JVM TI 11,
    /// DisposeEnvironment). It is the same as `clear_desk`, but never waits: it settles there (`settle_now`), and then tries to hold
    /// the thread's cell just once.
    ///
    /// If it may suspend threads or pop frames, none of its calls is out there then. Otherwise those that are out are cancelled. Its
    /// word is 0 again, if a call is left there: that costs one.
    ///
    /// `None` if there is no desk at a thread of this number. Then nothing changes.
    ///
    /// The error is one of these. The calls may be cancelled, and answers may be discarded. Nothing else changed.
    ///
    /// - 110 OUT_OF_MEMORY: there is no memory to note the calls that are cancelled.
    /// - 215 (this profile: `Busy`): the thread's cell is in use, or a call of the environment's is out there.
    pub fn clear_desk_now(
        &mut self,
        alloc: Global,
        thread: ThreadNo,
    ) -> Result<Option<FreeDesk>, TiError>
        ensures cleared { IfOk result (λ r. IfSome r (λ f. Retires self.old.env self.new.env thread f)) }
        ensures nobody { IfOk result (λ r. IfNone r (length self.old.env.desks ≤ place_in self.old.env.desks thread)) }
        ensures same { IfOk result (λ r. IfNone r (self.new ≡ self.old)) }
        ensures refused { IfErr result (λ e. (e ≡ OutOfMemory) ⊎ (e ≡ Busy)) }
        ensures there { OnErr result (place_in self.old.env.desks thread < length self.old.env.desks) }
        ensures steps { OnErr result (MayQuiesce self.old.env self.new.env thread) }
        ensures home { self.new.home ≡ self.old.home }
    {
        if self.place_of(thread).0 >= self.desk_count() {
            return Ok(None);
        }
        match self.settle_now(alloc, thread) {
            Ok(()) => (),
            Err(error) => return Err(error),
        }
        let place = self.place_of(thread);
        match self.empty_now(alloc, thread, place) {
            Ok(()) => (),
            Err(error) => return Err(error),
        }
        let Some(mut free) = self.take_desk(thread) else {
            unreachable!()
        };
        free.leave();
        Ok(Some(free))
    }
}

ghost use Rattle.std.specs.Prelude.{◌≡◌, ◌⊎◌, ◌<◌, ◌≤◌, ◌&&◌, true, false, length, None, Some, Ok, IfSome, IfNone, IfOk, IfErr, OnOk, OnErr, IsOk, if◌then◌else◌};
ghost use Rattle.std.specs.Option.{option_map};
ghost use Rattle.ti_types.specs.Answer.{said};
ghost use Rattle.ti_types.specs.Refusing.{or_else};
ghost use Rattle.ti_types.specs.declared.error.TiError.TheVariants.{Busy, Full, OutOfMemory};
ghost use Rattle.ti_replay.specs.Admission.{takes_buffer};
ghost use Rattle.ti_replay.specs.Settling.{waits};
ghost use Rattle.ti_agent.specs.Buffers.{IsJustBufferOf};
ghost use Rattle.ti_agent.specs.Deadlines.{Cancels};
ghost use Rattle.ti_agent.specs.Desks.{Retires};
ghost use Rattle.ti_agent.specs.Emptied.{IsEmptied};
ghost use Rattle.ti_agent.specs.Env.{place_in, place_of, thread_refusal, is_full};
ghost use Rattle.ti_agent.specs.HandOvers.{absence_refusal, CountsHandOvers, TellsStopper};
ghost use Rattle.ti_agent.specs.Posts.{posting_refusal, Posts, LooksFor, IsOutIfWaiting};
ghost use Rattle.ti_agent.specs.Quiesced.{MayQuiesce};
