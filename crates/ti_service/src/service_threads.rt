//! A handle of the service at its threads: they are attached and given back, and it is told which there are.

use crate::holding::until_free;
use crate::service::Service;
use std::alloc::Global;
use std::sync::Wait;
use std::time::Duration;
use ti_cell::{OwnSeat, Pace};
use ti_handshake::{Ended, Fresh, Running};
use ti_roster::ThreadInfo;
use ti_types::{ThreadNo, TiError};

impl Service {
    /// Attaches a thread. It has the next number, and has not started. Environments have a desk there once they meet it.
    ///
    /// The error is the first of these that fits. Then nothing changes but what the handle has seen:
    ///
    /// - 216 `Full` (this profile): there were 2^32 - 1 threads, or 2^62 - 1 comings and goings in all.
    /// - 110 OUT_OF_MEMORY: there is no memory for the thread.
    pub fn attach_thread<R: Wait>(
        &mut self,
        rt: &R,
        alloc: Global,
        info: ThreadInfo,
    ) -> Result<Fresh, TiError>
        ensures cell { self.new.cell ≡ self.old.cell }
        ensures attached { IfOk result (λ f. Attaches self.old.view self.new.view info f) }
        ensures refused { IfErr result (λ e. e ≡ coming_refusal (roster_seen self.new.view)) }
        ensures unchanged { OnErr result (Looks self.old.view self.new.view) }
    {
        let mut info = info;
        let pace = Pace::new();
        for _ in rt.forever() {
            match self.attach_once(alloc, info) {
                Ok(result) => {
                    self.wake_sleepers();
                    return result;
                }
                Err(same) => {
                    info = same;
                    self.roster.await_free(rt, &pace);
                }
            }
        }
        unreachable!()
    }

    /// Starts a thread that was attached: it runs, and is alive (JVM TI 11, GetThreadState). From now on ThreadStart is told of it, and
    /// GetAllThreads lists it. Both are so if and only if it has started by this call: one that is started by `Fresh::start` is told
    /// when it was attached and when it is given back, and is never listed (this profile).
    ///
    /// It waits while the roster or the thread's cell is in use, and while the thread is suspended or a stop is in force. The call that
    /// lets the thread start wakes it. A call that never waits wakes nobody: after one, `Env::wake_sleepers_at` does.
    ///
    /// The error is the first of these that fits. Then the thread comes back, and nothing is told:
    ///
    /// - 10 INVALID_THREAD: the service has had no thread of this number.
    /// - 15 THREAD_NOT_ALIVE: it was given back before.
    /// - 210 `NotNew` (this profile): a thread of this number has started. So this one is not of this service.
    /// - 216 `Full` (this profile): there were 2^62 - 1 comings and goings in all.
    pub fn start_thread<R: Wait>(
        &mut self,
        rt: &R,
        fresh: Fresh,
    ) -> Result<Running, (TiError, Fresh)>
        ensures cell { self.new.cell ≡ self.old.cell }
        ensures started { IfOk result (λ r. WaitsToStart self.old.view fresh (λ v f. StartsThread v self.new.view f r)) }
        ensures thread { IfOk result (λ r. r.cell ≡ fresh.cell) }
        ensures refused { IfErr result (λ e. WaitsToStart self.old.view fresh (λ v f. DoesNotStart v self.new.view f e.1 e.0)) }
        ensures waited { IfErr result (λ e. (e.0 ≢ Busy) × (e.0 ≢ Barred)) }
    {
        let mut fresh = fresh;
        let pace = Pace::new();
        for _ in rt.forever() {
            let tried = self.start_thread_now(fresh);
            self.wake_sleepers();
            match tried {
                Ok(running) => {
                    running.wake_sleepers();
                    return Ok(running);
                }
                Err((TiError::Busy, again)) => {
                    fresh = again;
                    self.roster.await_free(rt, &pace);
                }
                Err((TiError::Barred, again)) => {
                    fresh = again;
                    fresh.sleep_while_barred(rt);
                }
                Err(refused) => return Err(refused),
            }
        }
        unreachable!()
    }

    /// Ends a running thread. The waiting calls take place at a thread that is no longer alive (JVM TI 11, GetThreadState). From now on
    /// ThreadEnd is told of it, and GetAllThreads lists it no more, if and only if it has ended by this call.
    ///
    /// It waits while the roster or the thread's cell is in use. The error is the first of these that fits. Then the thread comes
    /// back as it was, and nothing is told:
    ///
    /// - 10 INVALID_THREAD: the service has had no thread of this number.
    /// - 15 THREAD_NOT_ALIVE: it was given back before.
    /// - 204 `NotRunning` (this profile): it was not started by `start_thread`, or is not of this service. `Running::end` ends it.
    /// - 216 `Full` (this profile): there were 2^62 - 1 comings and goings in all.
    pub fn end_thread<R: Wait>(
        &mut self,
        rt: &R,
        running: Running,
    ) -> Result<Ended, (TiError, Running)>
        ensures cell { self.new.cell ≡ self.old.cell }
        ensures ended { IfOk result (λ d. WaitsThen self.old.view (λ v. EndsThread v self.new.view running d)) }
        ensures refused { IfErr result (λ e. WaitsThen self.old.view (λ v. DoesNotEnd v self.new.view running.view.subject.thread e.0)) }
        ensures waited { IfErr result (λ e. e.0 ≢ Busy) }
        ensures back { IfErr result (λ e. e.1 ≡ running) }
    {
        let mut running = running;
        let pace = Pace::new();
        for _ in rt.forever() {
            let tried = self.end_thread_now(running);
            self.wake_sleepers();
            match tried {
                Ok(ended) => {
                    ended.wake_sleepers();
                    return Ok(ended);
                }
                Err((TiError::Busy, again)) => {
                    running = again;
                    self.roster.await_free(rt, &pace);
                }
                Err(refused) => return Err(refused),
            }
        }
        unreachable!()
    }

    /// A thread of this number is there no more.
    fn detach<R: Wait>(&mut self, rt: &R, thread: ThreadNo) -> Result<(), TiError>
        ensures cell { self.new.cell ≡ self.old.cell }
        ensures gone { OnOk result (Detaches self.old.view self.new.view thread) }
        ensures refused { IfErr result (λ e. RefusesDetach self.old.view self.new.view thread e) }
    {
        until_free!(self, rt, TiError::Busy, self.detach_now(thread))
    }

    /// Gives a thread back that has ended. It is there no more, and its number is never used again. Its memory is freed
    /// once the environments that have a desk there have let go of it. If it was started by `start_thread`, and not ended by
    /// `end_thread`, ThreadEnd is told of it first.
    ///
    /// The error is the first of these that fits. Then nothing changes but what the handle has seen, and the thread's seat
    /// comes back:
    ///
    /// - 10 INVALID_THREAD: the service has had no thread of this number.
    /// - 15 THREAD_NOT_ALIVE: it was given back before.
    /// - 216 `Full` (this profile): there were 2^62 - 1 comings and goings in all, or there would be with its end.
    pub fn detach_thread<R: Wait>(&mut self, rt: &R, ended: Ended) -> Result<(), (TiError, OwnSeat)>
        ensures cell { self.new.cell ≡ self.old.cell }
        ensures gone { OnOk result (Detaches self.old.view self.new.view ended.view.subject.thread) }
        ensures refused { IfErr result (λ r. RefusesDetach self.old.view self.new.view ended.view.subject.thread r.0) }
        ensures back { IfErr result (λ r. r.1 ≡ ended) }
    {
        let seat = ended.into_seat();
        match self.detach(rt, seat.thread()) {
            Ok(()) => Ok(()),
            Err(error) => Err((error, seat)),
        }
    }

    /// Gives a thread back that never started. Everything else is as for `detach_thread`.
    pub fn withdraw_thread<R: Wait>(
        &mut self,
        rt: &R,
        fresh: Fresh,
    ) -> Result<(), (TiError, OwnSeat)>
        ensures cell { self.new.cell ≡ self.old.cell }
        ensures gone { OnOk result (Detaches self.old.view self.new.view fresh.view.subject.thread) }
        ensures refused { IfErr result (λ r. RefusesDetach self.old.view self.new.view fresh.view.subject.thread r.0) }
        ensures back { IfErr result (λ r. r.1 ≡ fresh) }
    {
        let seat = fresh.into_seat();
        match self.detach(rt, seat.thread()) {
            Ok(()) => Ok(()),
            Err(error) => Err((error, seat)),
        }
    }

    /// GetAllThreads (JVM TI 11): the numbers of the live threads, each above those before it: of each that was started by
    /// `start_thread`, has not ended by `end_thread`, and was not given back. An agent need not have met it. Whoever wants all
    /// that are there meets them (`ServiceCalls::meet`).
    ///
    /// 110 OUT_OF_MEMORY if there is no memory for them.
    pub fn get_all_threads<R: Wait>(
        &mut self,
        rt: &R,
        alloc: Global,
    ) -> Result<Vec<ThreadNo>, TiError>
        ensures cell { self.new.cell ≡ self.old.cell }
        ensures hold { Looks self.old.view self.new.view }
        ensures threads { IfOk result (λ t. t.items ≡ map (λ n. n.thread) (alive self.new.view.seen)) }
        ensures memory { IfErr result (λ e. e ≡ OutOfMemory) }
    {
        until_free!(self, rt, TiError::Busy, self.get_all_threads_now(alloc))
    }

    /// GetThreadInfo (JVM TI 11): the name and the priority of a thread that is there, as they were when it was attached.
    ///
    /// Errors: 10 INVALID_THREAD, 15 THREAD_NOT_ALIVE if it was given back, 110 OUT_OF_MEMORY if there is no memory for the
    /// name.
    pub fn get_thread_info<R: Wait>(
        &mut self,
        rt: &R,
        alloc: Global,
        thread: ThreadNo,
    ) -> Result<ThreadInfo, TiError>
        ensures cell { self.new.cell ≡ self.old.cell }
        ensures hold { Looks self.old.view self.new.view }
        ensures told { IfOk result (λ i. IsToldOf (roster_seen self.new.view) thread i) }
        ensures refused { IfErr result (λ e. e ≡ info_refusal (roster_seen self.new.view) thread) }
    {
        until_free!(
            self,
            rt,
            TiError::Busy,
            self.get_thread_info_now(alloc, thread)
        )
    }

    /// Sleeps until somebody else has held the roster, if no more has happened than the handle has seen. It sleeps for at most
    /// this time, and may return sooner.
    pub(crate) fn sleep_without_news_for<R: Wait>(&self, rt: &R, time: Duration) {
        let Some(seat) = &self.seat else {
            unreachable!()
        };
        self.roster.sleep_without_news_for(rt, seat, time);
    }

    /// Whether a thread of this number is there: it was attached, and not given back (this profile).
    pub fn is_live<R: Wait>(&mut self, rt: &R, thread: ThreadNo) -> bool
        ensures cell { self.new.cell ≡ self.old.cell }
        ensures hold { Looks self.old.view self.new.view }
        ensures live { result ≡ is_live thread self.new.view.seen }
    {
        let pace = Pace::new();
        for _ in rt.forever() {
            match self.is_live_now(thread) {
                Ok(there) => {
                    self.wake_sleepers();
                    return there;
                }
                Err(_busy) => self.roster.await_free(rt, &pace),
            }
        }
        unreachable!()
    }
}

ghost use Rattle.std.specs.Prelude.{◌≡◌, ◌≢◌, map, IfOk, IfErr, OnOk, OnErr};
ghost use Rattle.ti_types.specs.declared.error.TiError.TheVariants.{Barred, Busy, OutOfMemory};
ghost use Rattle.ti_roster.specs.Log.{is_live};
ghost use Rattle.ti_roster.specs.Stages.{alive};
ghost use Rattle.ti_roster.specs.Roster.{IsToldOf, coming_refusal, info_refusal};
ghost use Rattle.ti_service.specs.Service.{Attaches, Looks, roster_seen};
ghost use Rattle.ti_service.specs.Starting.{Detaches, DoesNotEnd, DoesNotStart, EndsThread, RefusesDetach, StartsThread, WaitsThen, WaitsToStart};
