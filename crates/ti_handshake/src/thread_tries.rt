//! Calls of the thread itself that never wait.
//!
//! Each is the twin of a call that holds the cell, and tries to hold it just once. They take no runtime, so they neither
//! spin nor sleep, and they wake nobody (`wake_sleepers`). If another user holds the cell, or comes first, the thread comes
//! back as it was.

use crate::fresh::Fresh;
use crate::polled::Polled;
use crate::running::Running;
use crate::safe::{AtSafe, Ended};
use std::sync::Arc;
use ti_cell::Watched;
use ti_types::{Kind, Safe, TiError};

impl Fresh {
    /// Starts the thread as `try_start` does, but tries to hold the cell just once. From then on it is alive (JVM TI 11,
    /// GetThreadState).
    ///
    /// The error is one of these. With it the thread comes back, and has not started.
    ///
    /// - `Barred` (206): a stop is in force (this profile).
    /// - `Busy` (215): the cell is in use (this profile). Then the thread is as it was.
    pub fn start_now(self) -> Result<Running, (TiError, Fresh)>
        ensures cell { MatchResult result (λ r. r.cell ≡ self.cell) (λ e. e.1.cell ≡ self.cell) }
        ensures hold { IfOk result (λ r. Holds self.view r.view (entry.Start ∷ [])) }
        ensures when { IfOk result (λ r. refused_at self.view.subject.limits (found self.view r.view) entry.Start ≡ None) }
        ensures steps { IfOk result (λ r. r.steps ≡ []) }
        ensures refused { IfErr result (λ e. (e ≡ (Busy, self)) ⊎ StaysBarred entry.Start self e.1 e.0) }
        ensures busy { IfErr result (λ e. e.0 ≡ Busy → e.1 ≡ self) }
    {
        let Fresh { cell, seat } = self;
        match cell.hold_now(seat) {
            Ok(mut hold) => {
                let slot = hold.slot();
                match slot.start() {
                    Ok((frames, log)) => {
                        let left = slot.own_left();
                        let seat = hold.store_quietly();
                        Ok(Running::of(cell, seat, frames, log, left))
                    }
                    Err(error) => {
                        let seat = hold.store_quietly();
                        Err((error, Fresh { cell, seat }))
                    }
                }
            }
            Err(seat) => Err((TiError::Busy, Fresh { cell, seat })),
        }
    }
}

impl Running {
    /// Polls as `poll` does (JEP 312), but tries to hold the cell just once. If nobody calls for the thread, nothing
    /// happens. Otherwise it hands over, and the waiting calls take place. Afterwards it returns at once if it is not
    /// barred, and stays at the poll if it is.
    ///
    /// If the cell is in use (this profile: `Busy`, 215), the error is the thread, as it was. It runs on.
    #[inline(always)]
    pub fn poll_now(self) -> Result<Polled, Running>
        ensures entries { IfOk result (λ p. Holds self.view (view_of p) (polled self.view.subject.limits (found self.view (view_of p)) self.steps)) }
        ensures polled { IfOk result (λ p. IsPolled self p) }
        ensures busy { IfErr result (λ r. r ≡ self) }
    {
        let Running {
            cell,
            seat,
            frames,
            mut log,
            left,
        } = self;
        match cell.hold_now(seat) {
            Ok(mut hold) => {
                let slot = hold.slot();
                if !slot.armed() {
                    let seat = hold.store_quietly();
                    return Ok(Polled::Go(Running::of(cell, seat, frames, log, left)));
                }
                match slot.hand_over(frames, &mut log, Safe::AtPoll) {
                    Ok(()) => (),
                    Err(_) => unreachable!(),
                }
                match slot.back() {
                    Ok(frames) => {
                        let left = slot.own_left();
                        let seat = hold.store_quietly();
                        Ok(Polled::Go(Running::of(cell, seat, frames, log, left)))
                    }
                    Err(_) => {
                        let seat = hold.store_quietly();
                        Ok(Polled::Held(AtSafe::of(cell, seat, log)))
                    }
                }
            }
            Err(seat) => Err(Running::of(cell, seat, frames, log, left)),
        }
    }

    /// Goes into native code as `native` does, but tries to hold the cell just once. The logged steps enter the history, and
    /// the waiting calls take place (JEP 312).
    ///
    /// The error is the first of these that fits (this profile). With it the thread comes back, and runs on.
    ///
    /// - `Busy` (215): the cell is in use. Then the thread is as it was.
    /// - `NoNativeFrame` (207): the newest frame is not native, or there is none.
    /// - `OwnSpent` (208): less than 2 is left to spend.
    #[inline(always)]
    pub fn native_now(self) -> Result<AtSafe, (TiError, Running)>
        ensures cell { MatchResult result (λ a. a.cell ≡ self.cell) (λ e. e.1.cell ≡ self.cell) }
        ensures hold { IfOk result (λ a. Holds self.view a.view (steps_of self.steps ++ entry.Hand IntoNative ∷ [])) }
        ensures when { IfOk result (λ a. refused_at self.view.subject.limits (logged (found self.view a.view) self.steps) (entry.Hand IntoNative) ≡ None) }
        ensures refused { IfErr result (λ e. (e ≡ (Busy, self)) ⊎ RunsOn (entry.Hand IntoNative) self e.1 e.0) }
        ensures busy { IfErr result (λ e. e.0 ≡ Busy → e.1 ≡ self) }
    {
        self.hand_over_now(Safe::Native)
    }

    /// Blocks for the reason `kind` as `block` does, but tries to hold the cell just once. The logged steps enter the
    /// history, and the waiting calls take place (JEP 312).
    ///
    /// The error is the first of these that fits (this profile). With it the thread comes back, and runs on.
    ///
    /// - `Busy` (215): the cell is in use. Then the thread is as it was.
    /// - `OwnSpent` (208): less than 2 is left to spend.
    pub fn block_now(self, kind: Kind) -> Result<AtSafe, (TiError, Running)>
        ensures cell { MatchResult result (λ a. a.cell ≡ self.cell) (λ e. e.1.cell ≡ self.cell) }
        ensures hold { IfOk result (λ a. Holds self.view a.view (steps_of self.steps ++ entry.Hand (IntoBlocked kind) ∷ [])) }
        ensures when { IfOk result (λ a. refused_at self.view.subject.limits (logged (found self.view a.view) self.steps) (entry.Hand (IntoBlocked kind)) ≡ None) }
        ensures refused { IfErr result (λ e. (e ≡ (Busy, self)) ⊎ RunsOn (entry.Hand (IntoBlocked kind)) self e.1 e.0) }
        ensures busy { IfErr result (λ e. e.0 ≡ Busy → e.1 ≡ self) }
    {
        self.hand_over_now(Safe::Blocked(kind))
    }

    /// Hands over to native code or to a block.
    #[inline(always)]
    pub(crate) fn hand_over_now(self, safe: Safe) -> Result<AtSafe, (TiError, Running)>
        requires no_poll { safe ≡ AtPoll → ⊥ }
        ensures cell { MatchResult result (λ a. a.cell ≡ self.cell) (λ e. e.1.cell ≡ self.cell) }
        ensures hold { IfOk result (λ a. Holds self.view a.view (steps_of self.steps ++ entry.Hand safe ∷ [])) }
        ensures when { IfOk result (λ a. refused_at self.view.subject.limits (logged (found self.view a.view) self.steps) (entry.Hand safe) ≡ None) }
        ensures refused { IfErr result (λ e. (e ≡ (Busy, self)) ⊎ RunsOn (entry.Hand safe) self e.1 e.0) }
        ensures busy { IfErr result (λ e. e.0 ≡ Busy → e.1 ≡ self) }
    {
        let Running {
            cell,
            seat,
            frames,
            mut log,
            left,
        } = self;
        match cell.hold_now(seat) {
            Ok(mut hold) => match hold.slot().hand_over(frames, &mut log, safe) {
                Ok(()) => {
                    let seat = hold.store_quietly();
                    Ok(AtSafe::of(cell, seat, log))
                }
                Err((error, frames)) => {
                    let seat = hold.store_quietly();
                    Err((error, Running::of(cell, seat, frames, log, left)))
                }
            },
            Err(seat) => Err((TiError::Busy, Running::of(cell, seat, frames, log, left))),
        }
    }

    /// From now on `watched` is told when the thread is wanted, and what was told before no longer is. `None` is nobody. It tries to
    /// hold the cell just once. Returns whether somebody calls for the thread now, which `watched` is not told of.
    ///
    /// If the cell is in use (this profile: `Busy`, 215), the error is the thread, as it was.
    pub fn watch_now(self, watched: Option<Arc<Watched>>) -> Result<(Running, bool), Running>
        ensures called { IfOk result (λ w. w.1 ≡ is_armed w.0.view.subject.limits w.0.view.seen) }
        ensures hold { IfOk result (λ w. Holds self.view w.0.view []) }
        ensures thread { IfOk result (λ w. w.0 ≡ with_view self w.0.view) }
        ensures busy { IfErr result (λ r. r ≡ self) }
    {
        let Running {
            cell,
            seat,
            frames,
            log,
            left,
        } = self;
        match cell.hold_now(seat) {
            Ok(mut hold) => {
                hold.watch(watched);
                let slot = hold.slot();
                let called = slot.armed();
                let seat = hold.store_quietly();
                Ok((Running::of(cell, seat, frames, log, left), called))
            }
            Err(seat) => Err(Running::of(cell, seat, frames, log, left)),
        }
    }

    /// Ends the thread as `end` does, but tries to hold the cell just once. The logged steps enter the history, and its
    /// frames go. Then the waiting calls take place, at a thread that is no longer alive (JVM TI 11, GetThreadState).
    ///
    /// If the cell is in use (this profile: `Busy`, 215), the error is the thread, as it was. It runs on.
    pub fn end_now(self) -> Result<Ended, Running>
        ensures cell { MatchResult result (λ d. d.cell ≡ self.cell) (λ r. r.cell ≡ self.cell) }
        ensures hold { IfOk result (λ d. Holds self.view d.view (steps_of self.steps ++ entry.End ∷ [])) }
        ensures busy { IfErr result (λ r. r ≡ self) }
    {
        let Running {
            cell,
            seat,
            frames,
            mut log,
            left,
        } = self;
        match cell.hold_now(seat) {
            Ok(mut hold) => {
                hold.slot().end(frames, &mut log);
                let seat = hold.store_quietly();
                Ok(Ended::of(cell, seat))
            }
            Err(seat) => Err(Running::of(cell, seat, frames, log, left)),
        }
    }
}

impl AtSafe {
    /// Lets the thread return as `try_back` does, but tries to hold the cell just once. While it is suspended or stopped, it
    /// may not (HotSpot Runtime Overview; JVM TI 11, SuspendThread).
    ///
    /// The error is one of these. With it the thread comes back, and is safe as before.
    ///
    /// - `Barred` (206): it is suspended, or a stop is in force.
    /// - `Busy` (215): the cell is in use (this profile). Then the thread is as it was.
    #[inline(always)]
    pub fn back_now(self) -> Result<Running, (TiError, AtSafe)>
        ensures cell { MatchResult result (λ r. r.cell ≡ self.cell) (λ e. e.1.cell ≡ self.cell) }
        ensures hold { IfOk result (λ r. Holds self.view r.view (entry.Back ∷ [])) }
        ensures when { IfOk result (λ r. refused_at self.view.subject.limits (found self.view r.view) entry.Back ≡ None) }
        ensures steps { IfOk result (λ r. r.steps ≡ []) }
        ensures refused { IfErr result (λ e. (e ≡ (Busy, self)) ⊎ StaysBarred entry.Back self e.1 e.0) }
        ensures busy { IfErr result (λ e. e.0 ≡ Busy → e.1 ≡ self) }
    {
        let AtSafe { cell, seat, log } = self;
        match cell.hold_now(seat) {
            Ok(mut hold) => {
                let slot = hold.slot();
                match slot.back() {
                    Ok(frames) => {
                        let left = slot.own_left();
                        let seat = hold.store_quietly();
                        Ok(Running::of(cell, seat, frames, log, left))
                    }
                    Err(error) => {
                        let seat = hold.store_quietly();
                        Err((error, AtSafe { cell, seat, log }))
                    }
                }
            }
            Err(seat) => Err((TiError::Busy, AtSafe { cell, seat, log })),
        }
    }
}

ghost use Rattle.std.specs.Prelude.{◌≡◌, ◌⊎◌, [], ◌∷◌, ◌++◌, None, IfOk, IfErr, MatchResult};
ghost use Rattle.ti_types.specs.declared.entry.Entry.TheVariants as entry;
ghost use Rattle.ti_types.specs.declared.error.TiError.TheVariants.{Busy};
ghost use Rattle.ti_types.specs.declared.state.Safe.TheVariants.{Native as IntoNative, Blocked as IntoBlocked, AtPoll};
ghost use Rattle.ti_replay.specs.LateTickets.{steps_of};
ghost use Rattle.ti_replay.specs.Legal.{is_armed};
ghost use Rattle.ti_handshake.specs.Call.{Holds, found};
ghost use Rattle.ti_handshake.specs.Polls.{IsPolled, polled, view_of};
ghost use Rattle.ti_handshake.specs.Thread.{refused_at, logged, with_view};
ghost use Rattle.ti_handshake.specs.Tries.{StaysBarred, RunsOn};
