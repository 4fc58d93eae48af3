//! A thread that does not run yet, and waits until it may.

use crate::fresh::Fresh;
use crate::running::Running;
use crate::safe::AtSafe;
use std::sync::Wait;

/// A thread that is to run.
#[derive(Drop)]
pub(crate) enum NotRunning {
    /// It has not started.
    Fresh(Fresh),
    /// It handed over.
    Safe(AtSafe),
}

impl NotRunning {
    /// Lets the thread run in one hold. It comes back if it is barred.
    fn try_run<R: Wait>(self, rt: &R) -> Result<Running, NotRunning>
        ensures cell { MatchResult result (λ r. r.cell ≡ (seat_in self).cell) (λ i. (seat_in i).cell ≡ (seat_in self).cell) }
        ensures hold { MatchResult result (λ r. Holds (seat_in self).view r.view (turn_in self ∷ [])) (λ i. Holds (seat_in self).view (seat_in i).view []) }
        ensures turn { IfErr result (λ i. turn_in i ≡ turn_in self) }
        ensures steps { IfOk result (λ r. r.steps ≡ []) }
    {
        match self {
            NotRunning::Fresh(fresh) => match fresh.try_start(rt) {
                Ok(running) => Ok(running),
                Err((_error, fresh)) => Err(NotRunning::Fresh(fresh)),
            },
            NotRunning::Safe(safe) => match safe.try_back(rt) {
                Ok(running) => Ok(running),
                Err((_error, safe)) => Err(NotRunning::Safe(safe)),
            },
        }
    }

    /// Waits until the thread is not barred and its history has entries that its seat has not seen. It only looks.
    fn await_unbarred<R: Wait>(self, rt: &R) -> NotRunning
        ensures cell { (seat_in result).cell ≡ (seat_in self).cell }
        ensures news { SawNews (seat_in self).view (seat_in result).view }
        ensures turn { turn_in result ≡ turn_in self }
    {
        match self {
            NotRunning::Fresh(mut fresh) => {
                fresh.await_unbarred(rt);
                NotRunning::Fresh(fresh)
            }
            NotRunning::Safe(mut safe) => {
                safe.await_unbarred(rt);
                NotRunning::Safe(safe)
            }
        }
    }

    /// Lets the thread run, and waits while it is barred. It looks until the thread may run, and then holds the cell again.
    pub(crate) fn run<R: Wait>(self, rt: &R) -> Running
        requires rests { ((seat_in self).view.holds ≡ false) × ((seat_in self).view.found ≡ []) }
        requires legal { is_legal (seat_in self).view.subject.limits (seat_in self).view.seen ≡ true }
        requires mine { (seat_in self).view.mine ≡ made_by (seat_in self).view.number (seat_in self).view.seen }
        ensures cell { result.cell ≡ (seat_in self).cell }
        ensures hold { Waits (seat_in self).view result.view (turn_in self ∷ []) }
        ensures steps { result.steps ≡ [] }
    {
        let mut not_running = self;
        for _ in rt.forever() {
            match not_running.try_run(rt) {
                Ok(running) => return running,
                Err(again) => not_running = again.await_unbarred(rt),
            }
        }
        unreachable!()
    }
}

ghost use Rattle.std.specs.Prelude.{◌≡◌, true, false, [], ◌∷◌, IfOk, IfErr, MatchResult};
ghost use Rattle.ti_replay.specs.Legal.{is_legal};
ghost use Rattle.ti_replay.specs.Makers.{made_by};
ghost use Rattle.ti_handshake.specs.Call.{Holds, Waits, SawNews};
ghost use Rattle.ti_handshake.specs.NotRunning.{seat_in, turn_in};
