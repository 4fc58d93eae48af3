//! How a parked slot is lent.

use crate::parked::Parked;
use ti_slot::Slot;

impl Parked {
    /// Lends the slot. What is done to it is done to the parked one.
    #[inline(always)]
    pub fn slot_mut(&mut self) -> &mut Slot
        ensures* writes_back { sem 𝓛 (follows the_row slot_contracts.the_row self.entry.ghost_name result.ghost_name (λ t. t)) }
        ensures value { result.now ≡ self.old }
    {
        &mut self.lying.as_mut().slot
    }
}

ghost use Rattle.std.specs.Prelude.{◌≡◌};
ghost use Rattle.std.specs.Borrow.{sem, follows};
ghost use Rattle.ti_slot.specs.contracts.slot.Slot as slot_contracts;
ghost use Rattle.ti_cell.specs.contracts.parked.Parked.{the_row};
