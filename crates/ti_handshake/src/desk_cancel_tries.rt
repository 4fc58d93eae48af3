//! Calls of a desk that cancel calls, and never wait.
//!
//! Each is the twin of a call that holds the cell (`desk_cancel`), and tries to hold it just once. If another user holds the
//! cell, or comes first, nothing changes. They wake nobody (`wake_sleepers`).

use crate::cancelled::Cancelled;
use crate::desk::Desk;
use crate::desk_cancel::add_own_out;
use crate::desk_tries::try_hold;
use crate::discarded::Discarded;
use std::alloc::Global;
use ti_types::{Call, TiError, Ticket, TraceBuf};

impl Desk {
    /// Cancels a posted call whose answer is not collected. It is the same as `cancel`, but tries to hold the cell just
    /// once. `discard_now` discards its answer once it is there.
    ///
    /// The call still takes place when the thread reaches it. It is out until its answer is discarded (this profile). A
    /// ticket that is not out, or was cancelled before, is left as it is.
    ///
    /// The error is one of these. Then nothing changes.
    ///
    /// - 110 OUT_OF_MEMORY: there is no memory to note the ticket.
    /// - `Busy` (215): the cell is in use (this profile).
    pub fn cancel_now(&mut self, alloc: Global, ticket: Ticket) -> Result<(), TiError>
        ensures here { (self.new.cell ≡ self.old.cell) × (self.new.env ≡ self.old.env) }
        ensures hold { OnOk result (Holds self.old.view self.new.view []) }
        ensures cancelled { OnOk result (self.new.cancelled ≡ (if is_out self.old ticket then self.old.cancelled ++ ticket ∷ [] else self.old.cancelled)) }
        ensures former { OnOk result (self.new.former ≡ self.old.former) }
        ensures refused { IfErr result (λ e. (e ≡ OutOfMemory) ⊎ (e ≡ Busy)) }
        ensures unchanged { OnErr result (self.new ≡ self.old) }
    {
        let mut cancelled = self.take_cancelled();
        if let Err(error) = cancelled.reserve(alloc, 1) {
            self.put_cancelled(cancelled);
            return Err(error);
        }
        match self.has_out_now(ticket) {
            Ok(out) => {
                if out && !cancelled.has(ticket) {
                    cancelled.add(ticket);
                }
                self.put_cancelled(cancelled);
                Ok(())
            }
            Err(error) => {
                self.put_cancelled(cancelled);
                Err(error)
            }
        }
    }

    /// Takes the list of calls that were cancelled out of the desk, with room for all calls that are out. `put_cancelled` puts it back.
    ///
    /// The error is 110 OUT_OF_MEMORY if there is no memory for that. Then nothing changes.
    fn take_with_room(&mut self, alloc: Global) -> Result<Cancelled, TiError>
        ensures tickets { IfOk result (λ c. c.tickets ≡ self.old.cancelled) }
        ensures former { IfOk result (λ c. c.former ≡ self.old.former) }
        ensures given { IfOk result (λ c. AreCancelled c.tickets self.old.view.posted) }
        ensures room { IfOk result (λ c. length self.old.view.posted ≤ c.room) }
        ensures none { OnOk result (self.new ≡ with_cancelled self.old [] 0) }
        ensures memory { IfErr result (λ e. e ≡ OutOfMemory) }
        ensures unchanged { OnErr result (self.new ≡ self.old) }
    {
        let out = self.out();
        let mut cancelled = self.take_cancelled();
        match cancelled.reserve(alloc, out as usize) {
            Ok(()) => Ok(cancelled),
            Err(error) => {
                self.put_cancelled(cancelled);
                Err(error)
            }
        }
    }

    /// Cancels all calls of the desk that are out. It is the same as `cancel_all`, but tries to hold the cell just once.
    /// Each of them still takes place when the thread reaches it.
    ///
    /// The error is one of these. Then nothing changes.
    ///
    /// - 110 OUT_OF_MEMORY: there is no memory to note the tickets.
    /// - `Busy` (215): the cell is in use (this profile).
    pub fn cancel_all_now(&mut self, alloc: Global) -> Result<(), TiError>
        ensures here { (self.new.cell ≡ self.old.cell) × (self.new.env ≡ self.old.env) }
        ensures hold { OnOk result (Holds self.old.view self.new.view []) }
        ensures cancelled { OnOk result (CancelsAll self.old self.new) }
        ensures refused { IfErr result (λ e. (e ≡ OutOfMemory) ⊎ (e ≡ Busy)) }
        ensures unchanged { OnErr result (self.new ≡ self.old) }
    {
        let mut cancelled = self.take_with_room(alloc)?;
        let added = self.add_out_now(&mut cancelled);
        self.put_cancelled(cancelled);
        added
    }

    /// Adds the tickets of all calls that are out to a list of some of them. There is room for all. It tries to hold the
    /// cell just once.
    ///
    /// The error is `Busy` (215) if the cell is in use. Then nothing changes.
    fn add_out_now(&mut self, cancelled: &mut Cancelled) -> Result<(), TiError>
        requires given { AreCancelled cancelled.old.tickets self.old.view.posted }
        requires room { length self.old.view.posted ≤ cancelled.old.room }
        ensures same { IsSame self.old self.new }
        ensures former { cancelled.new.former ≡ cancelled.old.former }
        ensures hold { OnOk result (Holds self.old.view self.new.view []) }
        ensures added { OnOk result (AddsAll self.old.view.posted cancelled.old.tickets cancelled.new.tickets) }
        ensures busy { IfErr result (λ e. (e ≡ Busy) × (self.new ≡ self.old) × (cancelled.new ≡ cancelled.old)) }
    {
        try_hold!(self, |slot| add_own_out(slot, self.env, cancelled), else TiError::Busy)
    }

    /// Cancels all calls of the desk that are out, and sets the environment's word at the thread to 0. It tries to hold the
    /// cell just once, for both. It costs one call. Each of the calls still takes place when the thread reaches it.
    ///
    /// It is for an environment that leaves the thread (JVM TI 11, DisposeEnvironment). It has a call left at the thread.
    ///
    /// The error is one of these. Then nothing changes.
    ///
    /// - 110 OUT_OF_MEMORY: there is no memory to note the tickets.
    /// - `Busy` (215): the cell is in use (this profile).
    pub fn clear_now(&mut self, alloc: Global) -> Result<(), TiError>
        requires calls { calls_spent self.old.env self.old.view.mine < self.old.view.subject.limits.calls }
        ensures here { (self.new.cell ≡ self.old.cell) × (self.new.env ≡ self.old.env) }
        ensures hold { OnOk result (Holds self.old.view self.new.view (next_call self.old.view self.old.env (SetWord 0) ∷ [])) }
        ensures cancelled { OnOk result (CancelsAll self.old self.new) }
        ensures refused { IfErr result (λ e. (e ≡ OutOfMemory) ⊎ (e ≡ Busy)) }
        ensures unchanged { OnErr result (self.new ≡ self.old) }
    {
        let mut cancelled = self.take_with_room(alloc)?;
        let added = self.add_out_and_clear_now(&mut cancelled);
        self.put_cancelled(cancelled);
        added
    }

    /// Adds the tickets of all calls that are out to a list of some of them, and sets the environment's word to 0. There is
    /// room for all tickets, and a call is left. It tries to hold the cell just once.
    ///
    /// The error is `Busy` (215) if the cell is in use. Then nothing changes.
    fn add_out_and_clear_now(&mut self, cancelled: &mut Cancelled) -> Result<(), TiError>
        requires calls { calls_spent self.old.env self.old.view.mine < self.old.view.subject.limits.calls }
        requires given { AreCancelled cancelled.old.tickets self.old.view.posted }
        requires room { length self.old.view.posted ≤ cancelled.old.room }
        ensures same { IsSame self.old self.new }
        ensures former { cancelled.new.former ≡ cancelled.old.former }
        ensures hold { OnOk result (Holds self.old.view self.new.view (next_call self.old.view self.old.env (SetWord 0) ∷ [])) }
        ensures added { OnOk result (AddsAll self.old.view.posted cancelled.old.tickets cancelled.new.tickets) }
        ensures busy { IfErr result (λ e. (e ≡ Busy) × (self.new ≡ self.old) × (cancelled.new ≡ cancelled.old)) }
    {
        try_hold!(self, |slot| {
            slot.tickets();
            add_own_out(slot, self.env, cancelled);
            drop(slot.ask(self.env, Call::SetWord(0), TraceBuf::none()));
        }, else TiError::Busy)
    }

    /// Looks for the answer to the call that was cancelled first. It is the same as `discard`, but tries to hold the cell
    /// just once. If the answer is there, it is discarded, and the call is no longer out.
    ///
    /// Returns which call it was and what came of it. `None` if the answer is not there. If no call was cancelled, nothing is
    /// done, and the result is `None` (this profile).
    ///
    /// The error is `Busy` (215) if the cell is in use (this profile). Then nothing changes.
    pub fn discard_now(&mut self) -> Result<Option<Discarded>, TiError>
        ensures discards { IfOk result (λ d. Discards self.old self.new (is_some d)) }
        ensures tells { IfOk result (λ d. IfSome d (λ r. TellsDiscarded self.old self.new r.ticket (said r.answer))) }
        ensures busy { IfErr result (λ e. (e ≡ Busy) × (self.new ≡ self.old)) }
    {
        let Some(first) = self.first_cancelled() else {
            return Ok(None);
        };
        let mut cancelled = self.take_cancelled();
        match self.collect_now(first) {
            Ok(Some(answer)) => {
                cancelled.remove_first();
                self.put_cancelled(cancelled);
                Ok(Some(Discarded {
                    ticket: first,
                    answer,
                }))
            }
            Ok(None) => {
                self.put_cancelled(cancelled);
                Ok(None)
            }
            Err(error) => {
                self.put_cancelled(cancelled);
                Err(error)
            }
        }
    }
}

ghost use Rattle.std.specs.Prelude.{◌≡◌, ◌⊎◌, ◌<◌, ◌≤◌, ◌+◌, ◌++◌, if◌then◌else◌, [], ◌∷◌, is_some, length, IfSome, IfOk, IfErr, OnOk, OnErr};
ghost use Rattle.ti_types.specs.Answer.{said};
ghost use Rattle.ti_types.specs.declared.call.Call.TheVariants.{SetWord};
ghost use Rattle.ti_types.specs.declared.error.TiError.TheVariants.{OutOfMemory, Busy};
ghost use Rattle.ti_replay.specs.Legal.{calls_spent};
ghost use Rattle.ti_handshake.specs.Call.{Holds, next_call};
ghost use Rattle.ti_handshake.specs.Cancelled.{AddsAll, AreCancelled};
ghost use Rattle.ti_handshake.specs.Desk.{CancelsAll, Discards, IsSame, TellsDiscarded, is_out, with_cancelled};
