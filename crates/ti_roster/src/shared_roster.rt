//! A roster's cell that many users share.

use crate::roster_cell::RosterCell;
use crate::seat::RosterSeat;
use std::alloc::Global;
use std::marker::Model;
use std::ops::Deref;
use std::sync::Arc;
use ti_types::{Limits, TiError};

/// A counted reference to a roster's cell. The cell lives as long as there is a reference to it. Contracts see it as the
/// cell.
#[derive(Drop)]
pub struct SharedRoster {
    cell: Arc<RosterCell>,
}

impl Model for SharedRoster {
    ghost use Rattle.std.specs.Arc.{arc_value};
    ghost use Rattle.atomic_table.specs.Seated.{TableId, table_id_coded};

    ghost Value = { TableId };

    ghost coded = { table_id_coded };

    ghost view = { λ s. arc_value s.cell };
}

impl SharedRoster {
    /// Makes a cell with the roster of nobody, and gives the first reference to it and its first seat. 110 OUT_OF_MEMORY if
    /// there is no memory for it, and no other error (this profile).
    pub fn make(alloc: Global, limits: Limits) -> Result<(SharedRoster, RosterSeat), TiError>
        ensures seat { IfOk result (λ m. (m.1.cell ≡ m.0) × (m.1.view ≡ first_view limits)) }
        ensures memory { IfErr result (λ e. e ≡ OutOfMemory) }
    {
        let (cell, seat) = RosterCell::make(alloc, limits)?;
        match Arc::new(alloc, cell) {
            Ok(cell) => Ok((SharedRoster { cell }, seat)),
            Err(_) => Err(TiError::OutOfMemory),
        }
    }

    /// One more reference to the same cell. It takes no memory. The error is 216 `Full` if there are 2^63 references already
    /// (this profile).
    pub fn share(&self) -> Result<SharedRoster, TiError>
        ensures cell { IfOk result (λ s. s ≡ self.now) }
        ensures full { IfErr result (λ e. e ≡ Full) }
    {
        match Arc::try_clone(&self.cell) {
            Ok(cell) => Ok(SharedRoster { cell }),
            Err(_) => Err(TiError::Full),
        }
    }
}

impl Deref for SharedRoster {
    ghost use Rattle.std.specs.Prelude.{◌≡◌};

    type Target = RosterCell;

    ghost deref_gives = { λ shared cell. cell ≡ shared };

    fn deref(&self) -> &RosterCell {
        &self.cell
    }
}

ghost use Rattle.std.specs.Prelude.{◌≡◌, IfOk, IfErr};
ghost use Rattle.ti_types.specs.declared.error.TiError.TheVariants.{Full, OutOfMemory};
ghost use Rattle.ti_roster.specs.View.{first_view};
