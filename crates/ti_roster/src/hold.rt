//! A hold: the roster is out of its cell, and with the one who holds.

use crate::parked::ParkedRoster;
use crate::roster_cell::RosterCell;
use crate::seat::{Pass, RosterSeat};
use std::marker::Model;

/// The roster, taken out of its cell. It has to be stored: to let go of it is a compile error.
///
/// Contracts see it as the cell, its seat's view, and the roster.
pub struct RosterHold<'a> {
    pub(crate) cell: &'a RosterCell,
    pub(crate) seat: Pass,
    pub(crate) roster: ParkedRoster,
}

impl<'a> Model for RosterHold<'a> {
    ghost use Rattle.std.specs.Prelude.{◌≡◌, [], ◌∷◌, true, None};
    ghost use Rattle.ti_roster.specs.Seats.{Holding};

    ghost Value = { Holding };

    ghost view = { λ h. record { cell = h.cell.now; view = h.seat.me.0; roster = h.roster } };

    ghost invariant = { λ h. (h.seat.table_id ≡ h.cell.now) × (h.seat.me.1 ≡ (0, None) ∷ []) × (h.seat.me.0.holds ≡ true) };
}

impl<'a> RosterHold<'a> {
    /// Puts the roster back, clears the lock bit, and gives the seat back, which has now seen all that happened. The seat's
    /// environment is then the roster's `user`.
    ///
    /// The roster is the one that was held: what happened before is the beginning of what has happened now. A number is
    /// claimed only if it was free, and what is noted of others' numbers stays as it is.
    ///
    /// Whoever sleeps on the cell is woken.
    pub fn store(self) -> RosterSeat
        requires limits { self.roster.limits ≡ self.view.limits }
        requires begins { Begins self.roster.items self.view.seen }
        requires moves { Moves self.view.place self.roster.user self.view.seen self.roster.items }
        ensures cell { result.cell ≡ self.entry.cell }
        ensures view { result.view ≡ stored self.entry.view self.entry.roster }
    {
        let cell = self.cell;
        let seat = self.store_quietly();
        cell.wake_sleepers();
        seat
    }

    /// The same as `store`, but it wakes nobody, and makes no call of the system. `RosterCell::wake_sleepers` wakes them.
    pub fn store_quietly(self) -> RosterSeat
        requires limits { self.roster.limits ≡ self.view.limits }
        requires begins { Begins self.roster.items self.view.seen }
        requires moves { Moves self.view.place self.roster.user self.view.seen self.roster.items }
        ensures cell { result.cell ≡ self.entry.cell }
        ensures view { result.view ≡ stored self.entry.view self.entry.roster }
    {
        let RosterHold {
            cell,
            mut seat,
            mut roster,
        } = self;
        let asked = roster.roster.as_mut().take_asked();
        let (count, place) = (roster.len(), roster.roster.user());
        let (limits, watched) = (roster.roster.limits(), roster.roster.is_watched());
        cell.give(&mut seat, roster);
        if let Some(watched) = asked {
            watched.enter();
        }
        RosterSeat {
            seat,
            count,
            place,
            limits,
            watched,
        }
    }
}

ghost use Rattle.std.specs.Prelude.{◌≡◌};
ghost use Rattle.ti_roster.specs.Rule.{Begins, Moves};
ghost use Rattle.ti_roster.specs.View.{stored};
