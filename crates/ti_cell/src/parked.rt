//! A slot as it lies in its cell.

use crate::wanted::Watched;
use std::alloc::{AllocError, Global};
use std::marker::Model;
use std::sync::Arc;
use ti_slot::Slot;
use ti_types::{EnvNo, Limits, ThreadNo, TiError};

/// A slot, and what is to be told that its thread is wanted. Contracts see it as the slot.
#[derive(Drop)]
pub struct Lying {
    pub(crate) slot: Slot,
    /// `None` if no watch is told of the thread.
    pub(crate) watched: Option<Arc<Watched>>,
}

impl Model for Lying {
    ghost use Rattle.ti_slot.specs.Thread.{Thread};

    ghost Value = { Thread };

    ghost view = { λ l. l.slot };
}

/// A slot as it lies in its cell: in a box, so that moving it moves a pointer. Contracts see it as the slot.
#[derive(Drop)]
pub struct Parked {
    pub(crate) lying: Box<Lying>,
}

impl Model for Parked {
    ghost use Rattle.ti_slot.specs.Thread.{Thread};

    ghost Value = { Thread };

    ghost view = { λ p. p.lying.value };
}

impl Parked {
    /// The slot of a thread that has not started. Fails with `OutOfMemory` (110) if there is no memory for it.
    pub fn new(alloc: Global, limits: Limits, number: ThreadNo) -> Result<Parked, TiError>
        ensures thread { IfOk result (λ s. s ≡ new_slot limits number) }
        ensures memory { IfErr result (λ e. e ≡ TiError.OutOfMemory) }
    {
        let slot = Slot::new(alloc, limits, number)?;
        match Box::new(
            alloc,
            Lying {
                slot,
                watched: None,
            },
        ) {
            Ok(lying) => Ok(Parked { lying }),
            Err(refused) => Err(AllocError::from(refused).into()),
        }
    }

    /// The slot.
    #[inline(always)]
    fn slot(&self) -> &Slot
        ensures { result.now ≡ self.now }
    {
        &self.lying.slot
    }

    /// How many entries the thread's history has.
    #[inline(always)]
    pub fn len(&self) -> usize
        ensures len { result ≡ length self.now.history }
        ensures legal { is_legal self.now.limits self.now.history ≡ true }
    {
        self.slot().len()
    }

    /// How many calls that were asked from the seat of this number wait, or have an answer that is not collected.
    #[inline(always)]
    pub fn out_of(&self, number: u32) -> u32
        ensures out { result ≡ length (tickets_of number self.now.uncollected) }
        ensures few { length (tickets_of number self.now.uncollected) ≤ length (made_by number self.now.history) }
    {
        let slot = self.slot();
        slot.tickets();
        match number.checked_sub(1) {
            Some(env) => slot.out(EnvNo(env)),
            None => 0,
        }
    }

    /// From now on this is told that the thread is wanted.
    pub fn watch(&mut self, watched: Option<Arc<Watched>>)
        ensures same { self.new ≡ self.old }
    {
        self.lying.as_mut().watched = watched;
    }

    /// What is to be told that the thread is wanted.
    #[inline(never)]
    pub fn watched(&self) -> Option<Arc<Watched>> {
        match &self.lying.watched {
            // There are never 2^63 references.
            Some(watched) => Arc::try_clone(watched).ok(),
            None => None,
        }
    }

    /// Whether the thread has to hand over at its next poll.
    #[inline(always)]
    pub fn armed(&self) -> bool
        ensures { result ≡ is_armed self.now.limits self.now.history }
    {
        self.slot().armed()
    }

    /// Whether the thread may not start or return.
    #[inline(always)]
    pub fn barred(&self) -> bool
        ensures { result ≡ is_barred (view self.now.limits self.now.history) }
    {
        self.slot().barred()
    }
}

/// Takes the slot out of its box, and frees the box.
pub fn unpark(parked: Option<Parked>) -> Option<Slot>
    ensures { result ≡ parked }
{
    match parked {
        Some(p) => {
            let Parked { lying } = p;
            let Lying { slot, watched: _ } = Box::into_inner(lying);
            Some(slot)
        }
        None => None,
    }
}

ghost use Rattle.std.specs.Prelude.{◌≡◌, ◌≤◌, length, true, IfOk, IfErr};
ghost use Rattle.ti_types.specs.declared.error.TiError.TheVariants as TiError;
ghost use Rattle.ti_replay.specs.Legal.{is_legal, is_armed};
ghost use Rattle.ti_replay.specs.Makers.{made_by};
ghost use Rattle.ti_replay.specs.View.{view, is_barred};
ghost use Rattle.ti_slot.specs.Thread.{new_slot};
ghost use Rattle.ti_cell.specs.View.{tickets_of};
