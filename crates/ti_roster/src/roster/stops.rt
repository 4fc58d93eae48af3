//! What the roster does about stops.

use super::{LAST, Roster};
use crate::coming::Coming;
use std::sync::Arc;
use ti_cell::Watched;
use ti_stops::{StopCall, StopError, StopReply};

impl Roster {
    /// One call about stops, by whoever the roster serves: an environment, or any other user. `StopCall` says what each call
    /// does.
    ///
    /// An `Err` changes nothing:
    ///
    /// - 13 THREAD_NOT_SUSPENDED: at `LetGo`, the thread does not wait for the environment, or the environment was not told of
    ///   it yet.
    /// - 40 DUPLICATE: the environment has this breakpoint, or waits for this pop already.
    /// - 41 NOT_FOUND: at `ClearBreakpoint`, the environment has no such breakpoint.
    /// - 110 OUT_OF_MEMORY: there is no memory for it.
    /// - 116 INVALID_ENVIRONMENT: the call is an environment's, and the roster serves none.
    /// - 216 `Full` (this profile): there were 2^62 - 1 comings and goings in all.
    ///
    /// An answer that is no news (`StopReply::is_news`) changes nothing either.
    pub fn stop(&mut self, call: StopCall) -> Result<StopReply, StopError>
        ensures outcome { IfOk result (λ r. outcome (stops_of self.old.items) self.old.user call ≡ Ok r) }
        ensures happened { IfOk result (λ r. self.new ≡ (if is_news r then with_item self.old (Stop self.old.user call) else self.old)) }
        ensures refused { IfErr result (λ e. (e ≡ stop_error.OutOfMemory) ⊎ (e ≡ stop_error.Full) × (most_items ≤ length self.old.items) ⊎ (outcome (stops_of self.old.items) self.old.user call ≡ Err e)) }
        ensures unchanged { OnErr result (self.new ≡ self.old) }
    {
        if self.len >= LAST {
            return Err(StopError::Full);
        }
        let user = self.user;
        let reply = self.stops.call(user, call)?;
        if reply.is_news() {
            self.asked = self.asked || asks(call);
            self.log = self.log.and(&Coming::Stop(user, call));
            self.len += 1;
        }
        Ok(reply)
    }

    /// From now on this is told when somebody asks for a stop, or no longer does, and what was told before no longer is. No contract
    /// says what is told.
    pub fn watch_stops(&mut self, watched: Option<Arc<Watched>>)
        ensures { self.new ≡ self.old }
    {
        self.watched = watched;
    }

    /// What is to be told of what was asked since this was last called, if anything was.
    #[inline(always)]
    pub(crate) fn take_asked(&mut self) -> Option<Arc<Watched>>
        ensures { self.new ≡ self.old }
    {
        if self.asked { self.take_told() } else { None }
    }

    /// The same, if something was asked.
    #[inline(never)]
    fn take_told(&mut self) -> Option<Arc<Watched>>
        ensures { self.new ≡ self.old }
    {
        self.asked = false;
        match &self.watched {
            // There are never 2^63 references.
            Some(watched) => Arc::try_clone(watched).ok(),
            None => None,
        }
    }

    /// Whether an environment hears of breakpoints, single steps or pops of frames. If none does, no thread stops.
    pub fn is_watched(&self) -> bool
        ensures { result ≡ is_watched (stops_of self.now.items) }
    {
        self.stops.is_watched()
    }
}

/// Whether a call asks for a stop, or takes that back.
fn asks(call: StopCall) -> bool {
    match call {
        StopCall::Enable(..)
        | StopCall::Disable(..)
        | StopCall::SetBreakpoint(_)
        | StopCall::ClearBreakpoint(_)
        | StopCall::NotifyFramePop(..) => true,
        StopCall::Reached(..)
        | StopCall::Leaves(..)
        | StopCall::IsStopped(_)
        | StopCall::MayStopIn(..)
        | StopCall::Next
        | StopCall::LetGo(_) => false,
    }
}

ghost use Rattle.std.specs.Prelude.{◌≡◌, ◌⊎◌, ◌≤◌, length, IfOk, IfErr, OnErr, if◌then◌else◌};
ghost use Rattle.ti_stops.specs.declared.error.StopError.TheVariants as stop_error;
ghost use Rattle.ti_stops.specs.Stops.{is_news, is_watched, outcome};
ghost use Rattle.ti_roster.specs.declared.coming.Coming.TheVariants.{Stop};
ghost use Rattle.ti_roster.specs.Log.{with_item};
ghost use Rattle.ti_roster.specs.Roster.{most_items};
ghost use Rattle.ti_roster.specs.Stops.{stops_of};
