//! How a hold lends its slot.
//!
//! `slot` has a file of its own, since its clause names the row of `Hold`. The file that declares `Hold` cannot import that
//! row.

use crate::hold::Hold;
use crate::role::Role;
use ti_slot::Slot;

impl<'a, K: Role> Hold<'a, K> {
    /// Lends the slot that is held. What is done to it is done to the cell's.
    // The borrow checker reads this `follows` only if the row gives the cell's lifetime as `named 1`, its number in this
    // signature.
    #[inline(always)]
    pub fn slot(&mut self) -> &mut Slot
        ensures* writes_back { sem 𝓛 (follows (the_row (record { mir = named 1; lft = [] }) K.row K.Role) slot_contracts.the_row self.entry.ghost_name result.ghost_name (with_slot self.old)) }
        ensures value { result.now ≡ self.old.slot }
    {
        self.slot.slot_mut()
    }
}

ghost use Rattle.std.specs.Prelude.{◌≡◌, []};
ghost use Rattle.std.specs.Borrow.{sem, follows};
ghost use mir.Syntax.{named};
ghost use Rattle.ti_slot.specs.contracts.slot.Slot as slot_contracts;
ghost use Rattle.ti_cell.specs.contracts.hold.Hold.{the_row};
ghost use Rattle.ti_cell.specs.Seats.{with_slot};
