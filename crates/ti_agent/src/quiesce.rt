//! An environment that waits until its calls at a thread are answered, before it leaves the thread.

use crate::env::Env;
use crate::home::Home;
use std::alloc::Global;
use std::sync::Wait;
use ti_cell::Pace;
use ti_handshake::Desk;
use ti_types::{Call, ThreadNo, TiError, needs};

impl<H: Home> Env<H> {
    /// Cancels all calls of the environment that are out at a thread. It tries to hold the thread's cell just once. Nothing happens
    /// if there is no desk there.
    ///
    /// The error is 110 OUT_OF_MEMORY, or `Busy` (215) if the cell is in use. Then nothing changes.
    fn cancel_all_now(&mut self, alloc: Global, thread: ThreadNo) -> Result<(), TiError>
        ensures steps { OnOk result (MayQuiesce self.old.env self.new.env thread) }
        ensures cancelled { OnOk result (AllCancelledAt self.new.env thread) }
        ensures refused { IfErr result (λ e. (e ≡ OutOfMemory) ⊎ (e ≡ Busy)) }
        ensures unchanged { OnErr result (self.new ≡ self.old) }
        ensures home { self.new.home ≡ self.old.home }
    {
        let at = self.place_of(thread).0 as usize;
        if at >= self.desks.len() {
            return Ok(());
        }
        self.desks[at].cancel_all_now(alloc)
    }

    /// Discards the answers to calls that were cancelled at a thread, one after another, until the first of those that are left has
    /// none. It tries to hold the thread's cell once for each.
    ///
    /// The error is `Busy` (215) if the cell is in use. Then some may be discarded.
    pub(crate) fn discard_all_now(&mut self, thread: ThreadNo) -> Result<(), TiError>
        ensures each { DiscardsEach self.old.env self.new.env thread }
        ensures steps { MayQuiesce self.old.env self.new.env thread }
        ensures cancelled { AllCancelledAt self.old.env thread → AllCancelledAt self.new.env thread }
        ensures waits { OnOk result (FirstWaitsAt self.new.env thread) }
        ensures busy { IfErr result (λ e. e ≡ Busy) }
        ensures home { self.new.home ≡ self.old.home }
    {
        while self.discard_first_now(thread)?.is_some() {}
        Ok(())
    }

    /// Cancels all calls of the environment that are out at a thread, and discards the answers that are there (this profile). It
    /// gives whether none of its calls is out there then.
    ///
    /// `false`: calls are out. Each is cancelled, and the one that was cancelled first has no answer: the thread runs, and has not
    /// handed over since that call was posted. Each of them still takes place. If there is no desk at a thread of this number, the
    /// result is `true`.
    ///
    /// The error is one of these. The calls may be cancelled, and answers may be discarded. Nothing else changed.
    ///
    /// - 110 OUT_OF_MEMORY: there is no memory to note the calls that are cancelled.
    /// - 215 (this profile: `Busy`): the thread's cell is in use.
    ///
    /// # Examples
    ///
    /// ```rattle
    /// # use ti_agent::{Env, FreeDesk};
    /// # use ti_handshake::{Polled, SharedCell};
    /// # use ti_types::{Call, EnvNo, Limits, ThreadNo, TiError};
    /// # let (alloc, thread) = (rt.alloc(), ThreadNo(0));
    /// # let limits = Limits::new(1, 1, 4, 16, 8).ok_or("the limits are in range")?;
    /// # let (_cell, fresh, mut desks) = SharedCell::make(alloc, limits, thread)?;
    /// # let desk = desks.pop().ok_or("there is one environment")?;
    /// # let running = fresh.start(&rt);
    /// # let free = FreeDesk::new(desk).ok().ok_or("the desk is new")?;
    /// # let mut env = Env::with_no_desks(alloc, EnvNo(0), limits);
    /// # assert!(rt; env.add_desk(free).is_ok());
    /// assert!(rt; env.post_now(alloc, thread, Call::FrameCount).is_ok());
    /// assert!(rt; env.quiesce_now(alloc, thread) == Ok(false));
    /// let Ok(Polled::Go(_running)) = running.poll_now() else {
    ///     return Err("nothing bars the thread".into());
    /// };
    /// assert!(rt; env.quiesce_now(alloc, thread) == Ok(true));
    /// ```
    pub fn quiesce_now(&mut self, alloc: Global, thread: ThreadNo) -> Result<bool, TiError>
        ensures quiet { IfOk result (λ quiet. quiet ≡ (outstanding self.new.env thread == 0)) }
        ensures cancelled { IfOk result (λ quiet. OnFalse quiet (AllCancelledAt self.new.env thread)) }
        ensures waits { IfOk result (λ quiet. OnFalse quiet (FirstWaitsAt self.new.env thread)) }
        ensures steps { MayQuiesce self.old.env self.new.env thread }
        ensures refused { IfErr result (λ e. (e ≡ OutOfMemory) ⊎ (e ≡ Busy)) }
        ensures home { self.new.home ≡ self.old.home }
    {
        if self.out_at(thread) == 0 {
            return Ok(true);
        }
        self.cancel_all_now(alloc, thread)?;
        self.discard_all_now(thread)?;
        Ok(self.out_at(thread) == 0)
    }

    /// Waits until the thread's history has entries that the desk there has not seen. Nothing happens if there is no desk there.
    fn await_news_at<R: Wait>(&mut self, rt: &R, thread: ThreadNo)
        ensures steps { MayQuiesce self.old.env self.new.env thread }
        ensures home { self.new.home ≡ self.old.home }
    {
        let at = self.place_of(thread).0 as usize;
        if at < self.desks.len() {
            await_news(rt, &mut self.desks[at]);
        }
    }

    /// The same as `quiesce_now`, but it waits until none of the environment's calls is out at the thread: until the thread hands
    /// over, or ends. While the thread runs and does neither, it does not return.
    ///
    /// The error is 110 OUT_OF_MEMORY if there is no memory to note the calls that are cancelled. Nothing else changed.
    pub fn quiesce<R: Wait>(
        &mut self,
        rt: &R,
        alloc: Global,
        thread: ThreadNo,
    ) -> Result<(), TiError>
        ensures quiet { OnOk result (outstanding self.new.env thread ≡ 0) }
        ensures steps { MayQuiesce self.old.env self.new.env thread }
        ensures memory { IfErr result (λ e. e ≡ OutOfMemory) }
        ensures home { self.new.home ≡ self.old.home }
    {
        let pace = Pace::new();
        for _ in rt.forever() {
            let tried = self.quiesce_now(alloc, thread);
            self.wake_sleepers_at(thread);
            match tried {
                Ok(true) => return Ok(()),
                Ok(false) => self.await_news_at(rt, thread),
                Err(TiError::Busy) => self.await_free_at(rt, thread, &pace),
                Err(error) => return Err(error),
            }
        }
        unreachable!()
    }

    /// Whether calls of the environment may suspend threads or pop their frames: whether it has `can_suspend` or `can_pop_frame`, or had
    /// one of them when it posted a call that may still be out (this profile).
    pub fn may_change(&self) -> bool
        ensures { result ≡ may_change self.now.env.state.had }
    {
        let had = self.state.had();
        had.has(needs(Call::Suspend)) || had.has(needs(Call::Pop))
    }

    /// Sees to it that the environment changes nothing of a thread any more, before it leaves it (this profile). Its calls there are
    /// cancelled, and the answers that are there are discarded, as by `quiesce_now`. If it may suspend threads or pop frames, none of its
    /// calls is out there then. Otherwise those that are out only read.
    ///
    /// The error is one of these. The calls may be cancelled, and answers may be discarded. Nothing else changed.
    ///
    /// - 110 OUT_OF_MEMORY: there is no memory to note the calls that are cancelled.
    /// - 215 (this profile: `Busy`): the thread's cell is in use, or a call of an environment that may suspend threads or pop frames is
    ///   out there.
    pub fn settle_now(&mut self, alloc: Global, thread: ThreadNo) -> Result<(), TiError>
        ensures quiet { OnOk result (may_change self.new.env.state.had ≡ true → outstanding self.new.env thread ≡ 0) }
        ensures steps { MayQuiesce self.old.env self.new.env thread }
        ensures refused { IfErr result (λ e. (e ≡ OutOfMemory) ⊎ (e ≡ Busy)) }
        ensures home { self.new.home ≡ self.old.home }
    {
        match self.quiesce_now(alloc, thread) {
            Ok(true) => Ok(()),
            Ok(false) if self.may_change() => Err(TiError::Busy),
            Ok(false) => Ok(()),
            Err(error) => Err(error),
        }
    }

    /// The same as `settle_now`, but it waits, as `quiesce` does.
    pub(crate) fn settle<R: Wait>(
        &mut self,
        rt: &R,
        alloc: Global,
        thread: ThreadNo,
    ) -> Result<(), TiError>
        ensures steps { MayQuiesce self.old.env self.new.env thread }
        ensures memory { IfErr result (λ e. e ≡ OutOfMemory) }
        ensures home { self.new.home ≡ self.old.home }
    {
        if !self.may_change() {
            return Ok(());
        }
        self.quiesce(rt, alloc, thread)
    }
}

/// Waits until the thread's history has entries that the desk has not seen.
fn await_news<R: Wait>(rt: &R, desk: &mut Desk)
    ensures same { IsSame desk.old desk.new }
    ensures waits { Waits desk.old.view desk.new.view [] }
{
    desk.facts();
    desk.await_news(rt);
}

ghost use Rattle.std.specs.Prelude.{◌≡◌, ◌⊎◌, ◌==◌, true, [], IfOk, IfErr, OnOk, OnErr};
ghost use Rattle.std.specs.Bool.{OnFalse};
ghost use Rattle.ti_types.specs.declared.error.TiError.TheVariants.{OutOfMemory, Busy};
ghost use Rattle.ti_handshake.specs.Call.{Waits};
ghost use Rattle.ti_handshake.specs.Desk.{IsSame};
ghost use Rattle.ti_agent.specs.Deadlines.{DiscardsEach};
ghost use Rattle.ti_agent.specs.Env.{may_change, outstanding};
ghost use Rattle.ti_agent.specs.Quiesced.{AllCancelledAt, FirstWaitsAt, MayQuiesce};
