//! A thread that is safe, and one that has ended.

use crate::not_running::NotRunning;
use crate::retries::until_settled;
use crate::running::Running;
use crate::shared_cell::SharedCell;
use crate::waits::await_unbarred;
use std::marker::Model;
use std::sync::Wait;
use ti_cell::OwnSeat;
use ti_frames::Log;
use ti_types::{ThreadNo, TiError};

/// A thread that handed over: it is in native code, blocked, or at a poll. Its frames lie in the slot. Contracts see it as
/// its seat.
///
/// # Examples
///
/// ```rattle
/// # use ti_handshake::{Desk, Fresh, SharedCell};
/// # use ti_types::{Answer, Call, Kind, Limits, ThreadNo, TiError, TraceBuf};
/// # let limits = Limits::new(1, 1, 4, 16, 8).ok_or("the limits are in range")?;
/// # let (_cell, fresh, mut desks) = SharedCell::make(rt.alloc(), limits, ThreadNo(0))?;
/// # let mut desk = desks.pop().ok_or("there is one environment")?;
/// let Ok(asleep) = fresh.start(&rt).block(&rt, Kind::Sleep) else {
///     return Err("the thread has 2 left to spend".into());
/// };
/// // A suspension of a safe thread takes place at once. The thread may not return until it is resumed.
/// let suspended = desk.call(&rt, Call::Suspend, TraceBuf::none());
/// assert!(rt; matches!(suspended, Answer::Done));
/// let Err((error, asleep)) = asleep.try_back(&rt) else {
///     return Err("the thread is suspended".into());
/// };
/// assert!(rt; error == TiError::Barred);
/// assert!(rt; matches!(desk.call(&rt, Call::Resume, TraceBuf::none()), Answer::Done));
/// let _running = asleep.back(&rt);
/// ```
#[derive(Drop)]
pub struct AtSafe {
    pub(crate) cell: SharedCell,
    pub(crate) seat: OwnSeat,
    pub(crate) log: Log,
}

impl Model for AtSafe {
    ghost use Rattle.ti_cell.specs.Seats.{Sitting};
    ghost use Rattle.ti_handshake.specs.Thread.{RestsWith};

    ghost Value = { Sitting };

    ghost view = { λ a. a.seat };

    ghost invariant = { λ a. RestsWith a.cell a.seat a.log };
}

impl AtSafe {
    /// Makes a safe thread of its parts.
    #[inline(always)]
    pub(crate) fn of(cell: SharedCell, seat: OwnSeat, log: Log) -> AtSafe
        requires rests { RestsWith cell seat log }
        ensures of { result ≡ seat }
    {
        AtSafe { cell, seat, log }
    }

    /// What is always true of a thread that handed over: it is safe, and its seat is the owner's.
    pub fn facts(&self)
        ensures owner { self.now.view.number ≡ 0 }
        ensures safe { is_safe (view self.now.view.subject.limits self.now.view.seen).mode ≡ true }
    {
        let _ = &self.seat;
    }

    /// The number of the thread (this profile).
    pub fn thread(&self) -> ThreadNo
        ensures { result ≡ self.now.view.subject.thread }
    {
        self.seat.thread()
    }

    /// Lets the thread return in one hold. While it is suspended or stopped, it may not (HotSpot Runtime Overview; JVM TI
    /// 11, SuspendThread).
    ///
    /// Refused with `Barred` (206) if it is suspended or a stop is in force, and only then. Then the thread comes back with
    /// the error, and is safe as before.
    pub fn try_back<R: Wait>(self, rt: &R) -> Result<Running, (TiError, AtSafe)>
        ensures cell { MatchResult result (λ r. r.cell ≡ self.cell) (λ e. e.1.cell ≡ self.cell) }
        ensures hold { MatchResult result (λ r. Holds self.view r.view (entry.Back ∷ [])) (λ e. Holds self.view e.1.view []) }
        ensures when { MatchResult result
            (λ r. refused_at self.view.subject.limits (found self.view r.view) entry.Back ≡ None)
            (λ e. refused_at self.view.subject.limits (found self.view e.1.view) entry.Back ≡ Some e.0) }
        ensures barred { IfErr result (λ e. (e.0 ≡ Barred) × (is_barred (view self.view.subject.limits e.1.view.seen) ≡ true)) }
        ensures steps { IfOk result (λ r. r.steps ≡ []) }
    {
        until_settled!(self, rt, back_now())
    }

    /// Lets the thread return, and waits while it is barred (HotSpot Runtime Overview). It looks until the thread may
    /// return, and then holds the cell again.
    pub fn back<R: Wait>(self, rt: &R) -> Running
        ensures cell { result.cell ≡ self.cell }
        ensures hold { Waits self.view result.view (entry.Back ∷ []) }
        ensures steps { result.steps ≡ [] }
    {
        self.seat.facts();
        NotRunning::Safe(self).run(rt)
    }

    /// Waits until the thread is not barred and its history has entries that its seat has not seen. It only looks.
    pub(crate) fn await_unbarred<R: Wait>(&mut self, rt: &R)
        ensures cell { self.new.cell ≡ self.old.cell }
        ensures news { SawNews self.old.view self.new.view }
    {
        await_unbarred(rt, &self.cell, &mut self.seat);
    }

    /// Takes the value apart and gives the thread's seat.
    pub fn into_seat(self) -> OwnSeat
        ensures seat { result ≡ self }
    {
        self.seat
    }
}

/// A thread that has ended. Contracts see it as its seat.
#[derive(Drop)]
pub struct Ended {
    pub(crate) cell: SharedCell,
    seat: OwnSeat,
}

impl Model for Ended {
    ghost use Rattle.ti_cell.specs.Seats.{Sitting};
    ghost use Rattle.ti_handshake.specs.Thread.{HasEnded};

    ghost Value = { Sitting };

    ghost view = { λ e. e.seat };

    ghost invariant = { λ e. HasEnded e.cell e.seat };
}

impl Ended {
    /// Makes an ended thread of its parts.
    #[inline(always)]
    pub(crate) fn of(cell: SharedCell, seat: OwnSeat) -> Ended
        requires ended { HasEnded cell seat }
        ensures of { result ≡ seat }
    {
        Ended { cell, seat }
    }

    /// What is always true of a thread that has ended: its mode is `Ended`, and its seat is the owner's.
    pub fn facts(&self)
        ensures owner { self.now.view.number ≡ 0 }
        ensures ended { (view self.now.view.subject.limits self.now.view.seen).mode ≡ mode.Ended }
    {
        let _ = &self.seat;
    }

    /// The number of the thread (this profile).
    pub fn thread(&self) -> ThreadNo
        ensures { result ≡ self.now.view.subject.thread }
    {
        self.seat.thread()
    }

    /// Takes the value apart and gives the thread's seat.
    pub fn into_seat(self) -> OwnSeat
        ensures seat { result ≡ self }
    {
        self.seat
    }
}

ghost use Rattle.std.specs.Prelude.{◌≡◌, true, [], ◌∷◌, Some, None, IfOk, IfErr, MatchResult};
ghost use Rattle.ti_types.specs.declared.entry.Entry.TheVariants as entry;
ghost use Rattle.ti_types.specs.declared.error.TiError.TheVariants.{Barred};
ghost use Rattle.ti_types.specs.declared.state.Mode.TheVariants as mode;
ghost use Rattle.ti_replay.specs.Legal.{is_safe};
ghost use Rattle.ti_replay.specs.View.{view, is_barred};
ghost use Rattle.ti_handshake.specs.Call.{Holds, Waits, SawNews, found};
ghost use Rattle.ti_handshake.specs.Thread.{RestsWith, HasEnded, refused_at};
