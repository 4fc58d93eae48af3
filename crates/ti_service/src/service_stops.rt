//! Stops of threads, by a handle of the service: a runtime asks whether its threads have to stop.

use crate::holding::{try_hold, until_free};
use crate::service::Service;
use std::sync::{Arc, Wait};
use ti_cell::Watched;
use ti_roster::{StopCall, StopError, StopReply};
use ti_types::TiError;

impl Service {
    /// Whether a thread of the runtime may have to stop at what it reaches next. It is one load, for a runtime that asks often:
    /// false exactly if at that load nobody was told of any kind of stop, and no more had happened than the handle had seen.
    /// If it is true, the runtime says by `stop_now` what the thread reached. Nothing changes but that the handle has looked.
    pub fn may_stop(&mut self) -> bool
        ensures tells { TellsWatch self.old self.new result }
    {
        let Some(seat) = &mut self.seat else {
            unreachable!()
        };
        self.roster.count(seat) > seat.seen_len() || seat.is_watched()
    }

    /// How much has happened: threads and environments that came or went, and what has changed about stops. It is one load, and grows
    /// with each of these. Nothing changes but that the handle has looked.
    pub fn happened(&mut self) -> u64
        ensures tells { TellsCount self.old self.new result }
    {
        let Some(seat) = &mut self.seat else {
            unreachable!()
        };
        self.roster.count(seat)
    }

    /// From now on `watched` is told when an environment asks for a stop, or no longer does, and what was told before no longer is.
    /// `None` is nobody. Then a runtime asks by `MayStopIn` which of its code may have to stop.
    ///
    /// The error is 215 `Busy` (this profile) if the roster is in use. Then nothing changes.
    pub fn watch_stops_now(&mut self, watched: Option<Arc<Watched>>) -> Result<(), TiError>
        ensures cell { self.new.cell ≡ self.old.cell }
        ensures hold { OnOk result (Looks self.old.view self.new.view) }
        ensures busy { IfErr result (λ e. (e ≡ Busy) × (self.new ≡ self.old)) }
    {
        try_hold!(self, |roster| { roster.watch_stops(watched); Ok(()) }, else TiError::Busy)
    }

    /// A call about stops, which never waits. A runtime's are `Reached`, `Leaves`, `IsStopped` and `MayStopIn`; all others are an
    /// environment's (`StopCalls`), and 116 INVALID_ENVIRONMENT for a handle that is none's.
    ///
    /// A thread for which the reply to `Reached` or `Leaves` is `Stops(true)` waits until `IsStopped` is answered by `Waits(false)`.
    /// It hands over first, by going into native code, so that its stack can be read meanwhile.
    ///
    /// The error is the first of these that fits. Then nothing changes but what the handle has seen:
    ///
    /// - 215 `Busy` (this profile): the roster is in use. Nothing changes.
    /// - What the call is refused by (`StopCall`).
    /// - 216 `Full` (this profile): there were 2^62 - 1 comings and goings in all.
    /// - 110 OUT_OF_MEMORY: there is no memory for it.
    pub fn stop_now(&mut self, call: StopCall) -> Result<StopReply, StopError>
        ensures cell { self.new.cell ≡ self.old.cell }
        ensures took { IfOk result (λ r. Calls self.old.view self.new.view call r) }
        ensures refused { IfErr result (λ e. RefusesCall self.old self.new call e) }
    {
        try_hold!(self, |roster| roster.stop(call), else StopError::Busy)
    }

    /// The same, once the roster is free. It wakes whoever sleeps until something happens.
    pub fn stop<R: Wait>(&mut self, rt: &R, call: StopCall) -> Result<StopReply, StopError>
        ensures cell { self.new.cell ≡ self.old.cell }
        ensures took { IfOk result (λ r. Calls self.old.view self.new.view call r) }
        ensures refused { IfErr result (λ e. RefusesHeld self.old self.new call e) }
    {
        until_free!(self, rt, StopError::Busy, self.stop_now(call))
    }
}

ghost use Rattle.std.specs.Prelude.{◌≡◌, IfErr, IfOk, OnOk};
ghost use Rattle.ti_types.specs.declared.error.TiError.TheVariants.{Busy};
ghost use Rattle.ti_service.specs.Service.{Looks, TellsCount};
ghost use Rattle.ti_service.specs.Stops.{Calls, RefusesCall, RefusesHeld, TellsWatch};
