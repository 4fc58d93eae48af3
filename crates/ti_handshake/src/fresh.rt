//! A thread that has not started.

use crate::not_running::NotRunning;
use crate::retries::until_settled;
use crate::running::Running;
use crate::shared_cell::SharedCell;
use crate::waits::await_unbarred;
use std::marker::Model;
use std::sync::Wait;
use ti_cell::OwnSeat;
use ti_types::{ThreadNo, TiError};

/// A thread that has not started. Contracts see it as its seat.
///
/// # Examples
///
/// ```rattle
/// # use ti_handshake::SharedCell;
/// # use ti_types::{Answer, Limits, ThreadNo, TiError};
/// # let limits = Limits::new(1, 1, 4, 16, 8).ok_or("the limits are in range")?;
/// let (_cell, fresh, mut desks) = SharedCell::make(rt.alloc(), limits, ThreadNo(0))?;
/// let mut desk = desks.pop().ok_or("there is one environment")?;
/// // The thread does not start while a stop is in force.
/// assert!(rt; matches!(desk.try_stop(&rt), Answer::Done));
/// let Err((error, fresh)) = fresh.try_start(&rt) else {
///     return Err("a stop is in force".into());
/// };
/// assert!(rt; error == TiError::Barred);
/// assert!(rt; matches!(desk.go(&rt), Answer::Done));
/// let _running = fresh.start(&rt);
/// ```
#[derive(Drop)]
pub struct Fresh {
    pub(crate) cell: SharedCell,
    pub(crate) seat: OwnSeat,
}

impl Model for Fresh {
    ghost use Rattle.std.specs.Prelude.{◌≡◌};
    ghost use Rattle.ti_cell.specs.Seats.{Sitting};
    ghost use Rattle.ti_handshake.specs.Thread.{IsFresh};

    ghost Value = { Sitting };

    ghost view = { λ f. f.seat };

    ghost invariant = { λ f. (f.seat.cell ≡ f.cell) × IsFresh f.seat };
}

impl Fresh {
    /// The thread of this cell. The seat is this cell's, and has made no entry.
    ///
    /// `SharedCell::make` gives a thread and its desks, and has no condition.
    pub fn new(cell: SharedCell, seat: OwnSeat) -> Fresh
        requires cell { seat.cell ≡ cell }
        requires none { seat.view.mine ≡ [] }
        ensures seat { result ≡ seat }
    {
        seat.facts();
        Fresh { cell, seat }
    }

    /// What is always true of a thread that has not started: its seat is the owner's, and has made no entry.
    pub fn facts(&self)
        ensures owner { self.now.view.number ≡ 0 }
        ensures none { self.now.view.mine ≡ [] }
    {
        let _ = &self.seat;
    }

    /// The number of the thread (this profile).
    pub fn thread(&self) -> ThreadNo
        ensures { result ≡ self.now.view.subject.thread }
    {
        self.seat.thread()
    }

    /// Starts the thread in one hold. From then on it is alive (JVM TI 11, GetThreadState).
    ///
    /// Refused with `Barred` (206) if a stop is in force, and only then (this profile). Then the thread comes back with the
    /// error, and has not started.
    pub fn try_start<R: Wait>(self, rt: &R) -> Result<Running, (TiError, Fresh)>
        ensures cell { MatchResult result (λ r. r.cell ≡ self.cell) (λ e. e.1.cell ≡ self.cell) }
        ensures hold { MatchResult result (λ r. Holds self.view r.view (entry.Start ∷ [])) (λ e. Holds self.view e.1.view []) }
        ensures when { MatchResult result
            (λ r. refused_at self.view.subject.limits (found self.view r.view) entry.Start ≡ None)
            (λ e. refused_at self.view.subject.limits (found self.view e.1.view) entry.Start ≡ Some e.0) }
        ensures barred { IfErr result (λ e. (e.0 ≡ Barred) × (is_barred (view self.view.subject.limits e.1.view.seen) ≡ true)) }
        ensures steps { IfOk result (λ r. r.steps ≡ []) }
    {
        until_settled!(self, rt, start_now())
    }

    /// Starts the thread, and waits while a stop is in force. It looks until the thread may start, and then holds the cell
    /// again. From then on the thread is alive (JVM TI 11, GetThreadState).
    pub fn start<R: Wait>(self, rt: &R) -> Running
        ensures cell { result.cell ≡ self.cell }
        ensures hold { Waits self.view result.view (entry.Start ∷ []) }
        ensures steps { result.steps ≡ [] }
    {
        self.seat.facts();
        NotRunning::Fresh(self).run(rt)
    }

    /// Waits until the thread is not barred and its history has entries that its seat has not seen. It only looks.
    pub(crate) fn await_unbarred<R: Wait>(&mut self, rt: &R)
        ensures cell { self.new.cell ≡ self.old.cell }
        ensures news { SawNews self.old.view self.new.view }
    {
        await_unbarred(rt, &self.cell, &mut self.seat);
    }

    /// Takes the value apart and gives the thread's seat.
    pub fn into_seat(self) -> OwnSeat
        ensures seat { result ≡ self }
    {
        self.seat
    }
}

ghost use Rattle.std.specs.Prelude.{◌≡◌, true, [], ◌∷◌, Some, None, IfOk, IfErr, MatchResult};
ghost use Rattle.ti_types.specs.declared.entry.Entry.TheVariants as entry;
ghost use Rattle.ti_types.specs.declared.error.TiError.TheVariants.{Barred};
ghost use Rattle.ti_replay.specs.View.{view, is_barred};
ghost use Rattle.ti_handshake.specs.Call.{Holds, Waits, SawNews, found};
ghost use Rattle.ti_handshake.specs.Thread.{refused_at};
