//! A hold: the slot is out of its cell, and its user has it.

use crate::cell::ThreadCell;
use crate::parked::Parked;
use crate::role::Role;
use crate::seat::{CellSeat, Pass};
use crate::wanted::Watched;
use std::marker::{Model, PhantomData};
use std::sync::Arc;
use ti_types::{Limits, ThreadNo};

/// The slot, taken out of its cell. It has to be stored: dropping it is a compile error.
///
/// Contracts see it as the cell, its seat's view, and the slot.
pub struct Hold<'a, K: Role> {
    pub(crate) cell: &'a ThreadCell,
    pub(crate) seat: Pass,
    pub(crate) number: u32,
    pub(crate) thread: ThreadNo,
    pub(crate) slot: Parked,
    pub(crate) limits: Arc<Limits>,
    pub(crate) role: PhantomData<K>,
}

impl<'a, K: Role> Model for Hold<'a, K> {
    ghost use Rattle.std.specs.Prelude.{◌≡◌, [], ◌∷◌, true, false, None};
    ghost use Rattle.std.specs.Arc.{arc_value};
    ghost use Rattle.ti_cell.specs.Seats.{Holding};

    ghost Value = { Holding };

    ghost view = { λ h. record { cell = h.cell.now; view = h.seat.me.0; slot = h.slot } };

    ghost invariant = { λ h. (h.seat.table_id ≡ h.cell.now) × (h.seat.me.1 ≡ (0, None) ∷ []) × (h.seat.me.0.holds ≡ true) × (h.seat.me.0.gone ≡ false) × (h.number ≡ h.seat.me.0.number) × (h.thread ≡ h.seat.me.0.subject.thread) × K.sits h.seat.me.0.number h.seat.me.0.subject.limits.envs × (arc_value h.limits ≡ h.seat.me.0.subject.limits) };
}

impl<'a, K: Role> Hold<'a, K> {
    /// From now on this is told when the thread is wanted, and what was told before no longer is. No contract says what is told.
    pub fn watch(&mut self, watched: Option<Arc<Watched>>)
        ensures hold { self.new ≡ self.old }
    {
        self.slot.watch(watched);
    }

    /// Puts the slot back, clears the lock bit, and gives the seat back. The seat has now seen the slot's history.
    ///
    /// The slot is the one that was held. All that was added to its history since is of this seat's number. The tickets of
    /// all other seats are those that were found.
    ///
    /// Whoever sleeps on the cell and may go on is woken.
    pub fn store(self) -> CellSeat<K>
        requires adds { Adds self.view.number self.view.seen self.slot.history }
        requires keeps { Keeps self.view.number self.view.found self.slot.uncollected }
        requires about { IsAbout self.view.subject self.slot }
        ensures cell { result.cell ≡ self.entry.cell }
        ensures view { result.view ≡ stored self.entry.view self.entry.slot.history self.entry.slot.uncollected }
        ensures legal { is_legal result.view.subject.limits result.view.seen ≡ true }
        ensures begins { StartsWith result.view.seen self.entry.view.seen }
        ensures mine { result.view.mine ≡ made_by result.view.number result.view.seen }
    {
        let cell = self.cell;
        let seat = self.store_quietly();
        cell.wake_sleepers();
        seat
    }

    /// The same as `store`, but it wakes nobody, and makes no call of the system. `ThreadCell::wake_sleepers` wakes them.
    #[inline(always)]
    pub fn store_quietly(self) -> CellSeat<K>
        requires adds { Adds self.view.number self.view.seen self.slot.history }
        requires keeps { Keeps self.view.number self.view.found self.slot.uncollected }
        requires about { IsAbout self.view.subject self.slot }
        ensures cell { result.cell ≡ self.entry.cell }
        ensures view { result.view ≡ stored self.entry.view self.entry.slot.history self.entry.slot.uncollected }
        ensures legal { is_legal result.view.subject.limits result.view.seen ≡ true }
        ensures begins { StartsWith result.view.seen self.entry.view.seen }
        ensures mine { result.view.mine ≡ made_by result.view.number result.view.seen }
    {
        let Hold {
            cell,
            mut seat,
            number,
            thread,
            slot,
            limits,
            role,
        } = self;
        let count = slot.len();
        let out = slot.out_of(number);
        cell.give(&mut seat, slot);
        CellSeat {
            seat,
            number,
            thread,
            count,
            out,
            limits,
            role,
        }
    }
}

ghost use Rattle.std.specs.Prelude.{◌≡◌, true};
ghost use Rattle.ti_replay.specs.Legal.{is_legal};
ghost use Rattle.ti_replay.specs.Makers.{made_by, Adds, StartsWith};
ghost use Rattle.ti_cell.specs.View.{stored, IsAbout};
ghost use Rattle.ti_cell.specs.Rule.{Keeps};
