//! The list of a desk's calls that were cancelled.

use std::alloc::Global;
use std::marker::Model;
use ti_types::{TiError, Ticket};

/// The tickets of calls that were cancelled and are still out, in the order in which they were cancelled.
#[derive(Drop)]
pub struct Cancelled {
    /// `None` until room is made for the first.
    tickets: Option<Vec<Ticket>>,
    /// How many of the first are of calls of an environment that has left.
    former: usize,
}

impl Model for Cancelled {
    ghost use Rattle.ti_handshake.specs.Cancelled.{Given, given_in};

    ghost Value = { Given };

    ghost view = { λ c. given_in c.tickets c.former };
}

impl Cancelled {
    /// An empty list. It takes no memory.
    pub fn none() -> Cancelled
        ensures tickets { result.tickets ≡ [] }
        ensures former { result.former ≡ 0 }
    {
        Cancelled {
            tickets: None,
            former: 0,
        }
    }

    /// How many tickets the list has.
    fn len(&self) -> usize
        ensures { result ≡ length self.now.tickets }
    {
        match &self.tickets {
            None => 0,
            Some(tickets) => tickets.len(),
        }
    }

    /// Whether the first call is one of an environment that has left.
    pub fn is_former(&self) -> bool
        ensures { result ≡ nat_lt 0 self.now.former }
    {
        self.former > 0
    }

    /// Whether the last call is not one of an environment that has left.
    pub fn has_own(&self) -> bool
        ensures { result ≡ nat_lt self.now.former (length self.now.tickets) }
    {
        self.former < self.len()
    }

    /// The environment leaves: all calls of the list are those of an environment that has left.
    pub fn leave(&mut self)
        ensures tickets { self.new.tickets ≡ self.old.tickets }
        ensures former { self.new.former ≡ length self.old.tickets }
    {
        self.former = self.len();
    }

    /// Whether this call was cancelled.
    pub fn has(&self, ticket: Ticket) -> bool
        ensures { result ≡ has ticket self.now.tickets }
    {
        match &self.tickets {
            None => false,
            Some(tickets) => tickets.iter().any(|one| is_same(*one, ticket)),
        }
    }

    /// The ticket of the call that was cancelled first. `None` if the list is empty.
    pub fn first(&self) -> Option<Ticket>
        ensures { result ≡ slice_get self.now.tickets 0 }
    {
        match &self.tickets {
            None => None,
            Some(tickets) => tickets.first().copied(),
        }
    }

    /// Makes room for so many more tickets. The tickets stay as they are. The error is 110 OUT_OF_MEMORY if there is no
    /// memory for it.
    pub fn reserve(&mut self, alloc: Global, more: usize) -> Result<(), TiError>
        ensures tickets { self.new.tickets ≡ self.old.tickets }
        ensures former { self.new.former ≡ self.old.former }
        ensures room { OnOk result (length self.new.tickets + more ≤ self.new.room) }
        ensures memory { IfErr result (λ e. e ≡ OutOfMemory) }
    {
        if let Some(tickets) = &mut self.tickets {
            tickets.reserve(more)?;
            return Ok(());
        }
        self.tickets = Some(Vec::with_capacity(alloc, more.max(4))?);
        Ok(())
    }

    /// Adds a ticket at the end. There has to be room for it.
    pub fn add(&mut self, ticket: Ticket)
        requires { length self.old.tickets < self.old.room }
        ensures tickets { self.new.tickets ≡ self.old.tickets ++ ticket ∷ [] }
        ensures room { self.new.room ≡ self.old.room }
        ensures former { self.new.former ≡ self.old.former }
    {
        match &mut self.tickets {
            None => unreachable!(),
            Some(tickets) => tickets.push_reserved(ticket),
        }
    }

    /// Removes the ticket of the call that was cancelled first. There has to be one.
    pub fn remove_first(&mut self)
        requires { 0 < length self.old.tickets }
        ensures tickets { self.new.tickets ≡ drop 1 self.old.tickets }
        ensures former { self.new.former ≡ self.old.former - 1 }
    {
        match &mut self.tickets {
            None => unreachable!(),
            Some(tickets) => {
                let _first = tickets.remove(0);
            }
        }
        self.former = self.former.saturating_sub(1);
    }
}

/// Whether two tickets name the same call.
fn is_same(a: Ticket, b: Ticket) -> bool
    ensures { result ≡ same a b }
{
    a.no == b.no && a.env.0 == b.env.0 && a.thread.0 == b.thread.0
}

ghost use Rattle.std.specs.Prelude.{◌≡◌, ◌<◌, ◌≤◌, ◌+◌, ◌-◌, nat_lt, [], ◌∷◌, ◌++◌, length, drop, slice_get, IfErr, OnOk};
ghost use Rattle.ti_types.specs.declared.error.TiError.TheVariants.{OutOfMemory};
ghost use Rattle.ti_slot.specs.Tickets.{same, has};
