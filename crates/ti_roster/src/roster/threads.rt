//! Threads that come, start, end and are given back.

use super::{LAST, Roster};
use crate::coming::Coming;
use crate::info::ThreadInfo;
use crate::life_event::{LifeEvent, LifeKind};
use crate::row::{Row, new_row};
use crate::stage::Stage;
use std::alloc::Global;
use ti_handshake::{Ended, Fresh, Running};
use ti_types::{ThreadNo, TiError};

impl Roster {
    /// A thread comes, has the next number, and has not started. Each environment has a desk there.
    ///
    /// The error is the first of these that fits, and then nothing changes:
    ///
    /// - 216 `Full` (this profile): there were 2^32 - 1 threads, or 2^62 - 1 comings and goings in all.
    /// - 110 OUT_OF_MEMORY: there is no memory for the thread.
    pub fn come(&mut self, alloc: Global, info: ThreadInfo) -> Result<Fresh, TiError>
        ensures came { IfOk result (λ f. self.new ≡ with_item self.old (Came (record { thread = record { 0 = threads_in self.old.items }; info = info; cell = f.cell }))) }
        ensures fresh { IfOk result (λ f. f.view ≡ newcomer (subject_of self.old.limits (record { 0 = threads_in self.old.items })) 0 (self.old.limits.envs + 1)) }
        ensures refused { IfErr result (λ e. e ≡ coming_refusal self.old) }
        ensures unchanged { OnErr result (self.new ≡ self.old) }
    {
        let Some(next) = self.next.checked_add(1) else {
            return Err(TiError::Full);
        };
        if self.len >= LAST {
            return Err(TiError::Full);
        }
        let (fresh, row) = new_row(alloc, self.limits, ThreadNo(self.next), info)?;
        let thread = row.thread();
        let Row {
            newcomer,
            stage,
            desks,
        } = row;
        let coming = Coming::Came(newcomer);
        let log = self.log.and(&coming);
        let Coming::Came(newcomer) = coming else {
            unreachable!()
        };
        let row = Row {
            newcomer,
            stage,
            desks,
        };
        if self.rows.push(row).is_err() {
            return Err(TiError::OutOfMemory);
        }
        self.life.push(LifeEvent {
            kind: LifeKind::ThreadAttached,
            thread,
        });
        self.log = log;
        self.next = next;
        self.len += 1;
        Ok(fresh)
    }

    /// Starts a thread, and notes it.
    ///
    /// The error is the first of these that fits. Then nothing is noted, and the thread comes back:
    ///
    /// - 10 INVALID_THREAD: there was no thread of this number.
    /// - 15 THREAD_NOT_ALIVE: it was given back.
    /// - 210 `NotNew` (this profile): a start of a thread of this number is noted.
    /// - 216 `Full` (this profile): there were 2^62 - 1 comings and goings in all.
    /// - 215 `Busy`, 206 `Barred` (this profile): as `Fresh::start_now` says.
    pub fn start(&mut self, fresh: Fresh) -> Result<Running, (TiError, Fresh)>
        ensures started { IfOk result (λ r. HasStarted self.old self.new fresh r) }
        ensures refused { IfErr result (λ e. RefusesStart self.old fresh e.1 e.0) }
        ensures unchanged { OnErr result (self.new ≡ self.old) }
    {
        let thread = fresh.thread();
        let Some(i) = self.index_of(thread) else {
            return Err((self.missing(thread), fresh));
        };
        if !self.rows[i].stage.is_new() {
            return Err((TiError::NotNew, fresh));
        }
        if self.len >= LAST {
            return Err((TiError::Full, fresh));
        }
        match fresh.start_now() {
            Ok(running) => {
                self.note_start(i, thread);
                Ok(running)
            }
            Err(refused) => Err(refused),
        }
    }

    /// Notes that a thread has started.
    fn note_start(&mut self, i: usize, thread: ThreadNo)
        requires index { IsIndex (live self.old.items) thread i }
        requires new { is_new (stage_of thread self.old.items) ≡ true }
        requires room { length self.old.items < most_items }
        ensures { self.new ≡ with_item self.old (Started thread) }
    {
        self.rows[i].reach(Stage::Alive);
        self.life.push(LifeEvent {
            kind: LifeKind::ThreadStart,
            thread,
        });
        self.log = self.log.and(&Coming::Started(thread));
        self.len += 1;
    }

    /// Ends a running thread, and notes it.
    ///
    /// The error is the first of these that fits. Then nothing is noted, and the thread comes back as it was:
    ///
    /// - 10 INVALID_THREAD: there was no thread of this number.
    /// - 15 THREAD_NOT_ALIVE: it was given back.
    /// - 204 `NotRunning` (this profile): its start is not noted, or an end of a thread of this number is.
    /// - 216 `Full` (this profile): there were 2^62 - 1 comings and goings in all.
    /// - 215 `Busy` (this profile): the thread's cell is in use.
    pub fn end(&mut self, running: Running) -> Result<Ended, (TiError, Running)>
        ensures ended { IfOk result (λ d. HasEnded self.old self.new running d) }
        ensures refused { IfErr result (λ e. RefusesEnd self.old running.view.subject.thread e.0) }
        ensures back { IfErr result (λ e. e.1 ≡ running) }
        ensures unchanged { OnErr result (self.new ≡ self.old) }
    {
        let thread = running.thread();
        let Some(i) = self.index_of(thread) else {
            return Err((self.missing(thread), running));
        };
        if !self.rows[i].stage.is_alive() {
            return Err((TiError::NotRunning, running));
        }
        if self.len >= LAST {
            return Err((TiError::Full, running));
        }
        match running.end_now() {
            Ok(ended) => {
                self.note_end(i, thread);
                Ok(ended)
            }
            Err(running) => Err((TiError::Busy, running)),
        }
    }

    /// Notes that a thread has ended.
    fn note_end(&mut self, i: usize, thread: ThreadNo)
        requires index { IsIndex (live self.old.items) thread i }
        requires alive { is_alive (stage_of thread self.old.items) ≡ true }
        requires room { length self.old.items < most_items }
        ensures { self.new ≡ with_item self.old (coming.Ended thread) }
    {
        self.rows[i].reach(Stage::Over);
        self.life.push(LifeEvent {
            kind: LifeKind::ThreadEnd,
            thread,
        });
        self.log = self.log.and(&Coming::Ended(thread));
        self.len += 1;
    }

    /// Notes that a thread was given back, which has not started, or has ended.
    fn note_leave(&mut self, i: usize, thread: ThreadNo)
        requires index { IsIndex (live self.old.items) thread i }
        requires dead { is_alive (stage_of thread self.old.items) ≡ false }
        requires room { length self.old.items < most_items }
        ensures { self.new ≡ with_item self.old (Left thread) }
    {
        let _row = self.rows.remove(i);
        self.life.push(LifeEvent {
            kind: LifeKind::ThreadDetached,
            thread,
        });
        self.stops.end_thread(thread);
        self.log = self.log.and(&Coming::Left(thread));
        self.len += 1;
    }

    /// A thread is given back, and is there no more. Its number is never used again. If it had started and its end is not noted, it
    /// ends first.
    ///
    /// The error is the first of these that fits, and then nothing changes:
    ///
    /// - 10 INVALID_THREAD: there was no thread of this number.
    /// - 15 THREAD_NOT_ALIVE: it was given back before.
    /// - 216 `Full` (this profile): there were 2^62 - 1 comings and goings in all, or there would be with its end.
    pub fn leave(&mut self, thread: ThreadNo) -> Result<(), TiError>
        ensures there { OnOk result (is_live thread self.old.items ≡ true) }
        ensures who { OnOk result (IsListed self.old thread) }
        ensures left { OnOk result (self.new ≡ with_items self.old (leaving thread self.old.items)) }
        ensures refused { IfErr result (λ e. e ≡ leave_refusal self.old thread) }
        ensures limit { IfErr result (λ e. e ≡ Full → most_items < length self.old.items + length (leaving thread self.old.items)) }
        ensures unchanged { OnErr result (self.new ≡ self.old) }
    {
        let Some(i) = self.index_of(thread) else {
            return Err(self.missing(thread));
        };
        if self.rows[i].stage.is_alive() {
            if self.len >= LAST - 1 {
                return Err(TiError::Full);
            }
            self.note_end(i, thread);
        } else if self.len >= LAST {
            return Err(TiError::Full);
        }
        self.note_leave(i, thread);
        Ok(())
    }
}

ghost use Rattle.std.specs.Prelude.{◌≡◌, ◌<◌, ◌+◌, true, false, length, IfOk, IfErr, OnOk, OnErr};
ghost use Rattle.ti_types.specs.declared.error.TiError.TheVariants.{Full};
ghost use Rattle.ti_cell.specs.View.{newcomer, subject_of};
ghost use Rattle.ti_roster.specs.declared.coming.Coming.TheVariants.{Came, Started, Left};
ghost use Rattle.ti_roster.specs.declared.coming.Coming.TheVariants as coming;
ghost use Rattle.ti_roster.specs.Log.{threads_in, live, is_live, with_item, with_items};
ghost use Rattle.ti_roster.specs.Stages.{is_alive, is_new, stage_of};
ghost use Rattle.ti_roster.specs.Starting.{HasEnded, HasStarted, RefusesEnd, RefusesStart, leave_refusal, leaving};
ghost use Rattle.ti_roster.specs.Roster.{IsListed, coming_refusal, most_items};
ghost use Rattle.ti_roster.specs.Rows.{IsIndex};
