//! A cell that a thread and its environments share.

use crate::desk::Desk;
use crate::fresh::Fresh;
use std::alloc::{AllocError, Global};
use std::marker::Model;
use std::ops::Deref;
use std::sync::Arc;
use ti_cell::{EnvSeat, ThreadCell};
use ti_types::{Limits, ThreadNo, TiError};

/// A counted reference to a cell. The cell lives as long as there is a reference to it. Contracts see it as the cell.
///
/// # Examples
///
/// ```rattle
/// # use ti_handshake::SharedCell;
/// # use ti_types::{Limits, ThreadNo};
/// # let limits = Limits::new(1, 1, 4, 16, 8).ok_or("the limits are in range")?;
/// let (cell, fresh, mut desks) = SharedCell::make(rt.alloc(), limits, ThreadNo(0))?;
/// let desk = desks.pop().ok_or("there is one environment")?;
/// let ended = fresh.start(&rt).end(&rt);
/// // Both give their seats and references back. The last reference gives the cell.
/// let (mut own, seat) = (ended.into_seat(), desk.into_seat());
/// let cell = cell.into_cell().ok_or("no other reference is left")?;
/// cell.rejoin(&mut own, seat);
/// let slot = cell.close(own).ok_or("all seats are back")?;
/// assert_eq!(rt; slot.len(), 2, "a start and an end");
/// ```
#[derive(Drop)]
pub struct SharedCell {
    cell: Arc<ThreadCell>,
}

impl Model for SharedCell {
    ghost use Rattle.std.specs.Arc.{arc_value};
    ghost use Rattle.atomic_table.specs.Seated.{TableId, table_id_coded};

    ghost Value = { TableId };

    ghost coded = { table_id_coded };

    ghost view = { λ s. arc_value s.cell };
}

impl SharedCell {
    /// Makes a thread that has not started, and gives a reference to its cell. With it comes one unused desk for each
    /// environment, in the order of their numbers.
    ///
    /// So the thread and the desks are at the cell that their seats are of. `Fresh::new` and `Desk::new` put a seat and a cell
    /// together, and have conditions: use this call if you can.
    ///
    /// The error is 110 OUT_OF_MEMORY if there is no memory for all that, and no other (this profile).
    pub fn make(
        alloc: Global,
        limits: Limits,
        number: ThreadNo,
    ) -> Result<(SharedCell, Fresh, Vec<Desk>), TiError>
        ensures fresh { IfOk result (λ m. (m.1.cell ≡ m.0) × (m.1.view ≡ newcomer (subject_of limits number) 0 (limits.envs + 1))) }
        ensures desks { IfOk result (λ m. m.2.items ≡ new_desks m.0 (subject_of limits number) limits.envs) }
        ensures memory { IfErr result (λ e. e ≡ OutOfMemory) }
    {
        let (cell, own, seats) = ThreadCell::make(alloc, limits, number)?;
        let cell = SharedCell::new(alloc, cell)?;
        let desks = desks_of(alloc, &cell, seats)?;
        let fresh = Fresh::new(cell.again()?, own);
        Ok((cell, fresh, desks))
    }

    /// The first reference to this cell. The error is 110 OUT_OF_MEMORY if there is no memory for the cell (this profile).
    pub fn new(alloc: Global, cell: ThreadCell) -> Result<SharedCell, TiError>
        ensures cell { IfOk result (λ s. s ≡ cell) }
        ensures memory { IfErr result (λ e. e ≡ OutOfMemory) }
    {
        match Arc::new(alloc, cell) {
            Ok(cell) => Ok(SharedCell { cell }),
            Err(_) => Err(TiError::OutOfMemory),
        }
    }

    /// One more reference to the same cell. It takes no memory. The error is 216 (this profile: `Full`) if there are 2^63
    /// references already.
    pub fn share(&self) -> Result<SharedCell, TiError>
        ensures cell { IfOk result (λ s. s ≡ self.now) }
        ensures full { IfErr result (λ e. e ≡ Full) }
    {
        match self.again() {
            Ok(cell) => Ok(cell),
            Err(_) => Err(TiError::Full),
        }
    }

    /// One more reference to the same cell, unless there are 2^63 already.
    fn again(&self) -> Result<SharedCell, AllocError>
        ensures cell { IfOk result (λ s. s ≡ self.now) }
    {
        let cell = Arc::try_clone(&self.cell)?;
        Ok(SharedCell { cell })
    }

    /// The cell, if this is the last reference to it. Otherwise `None`, and there is one reference less.
    pub fn into_cell(self) -> Option<ThreadCell>
        ensures { IfSome result (λ c. c ≡ self) }
    {
        Arc::into_inner(self.cell)
    }
}

/// A desk for each of these seats, in their order. The seats are this cell's.
///
/// 110 OUT_OF_MEMORY if there is no memory for them.
fn desks_of(alloc: Global, cell: &SharedCell, seats: Vec<EnvSeat>) -> Result<Vec<Desk>, TiError>
    requires { All (IsSeatAt cell.now) seats.items }
    ensures desks { IfOk result (λ d. d.items ≡ map desk_at seats.items) }
    ensures memory { IfErr result (λ e. e ≡ OutOfMemory) }
{
    let mut desks = Vec::with_capacity(alloc, seats.len())?;
    for seat in seats {
        let cell = cell.again()?;
        desks.push_reserved(Desk::new(cell, seat));
    }
    Ok(desks)
}

impl Deref for SharedCell {
    ghost use Rattle.std.specs.Prelude.{◌≡◌};

    type Target = ThreadCell;

    ghost deref_gives = { λ shared cell. cell ≡ shared };

    fn deref(&self) -> &ThreadCell {
        &self.cell
    }
}

ghost use Rattle.std.specs.Prelude.{◌≡◌, ◌+◌, map, All, IfOk, IfErr, IfSome};
ghost use Rattle.ti_types.specs.declared.error.TiError.TheVariants.{Full, OutOfMemory};
ghost use Rattle.ti_cell.specs.View.{subject_of, newcomer};
ghost use Rattle.ti_handshake.specs.NewDesks.{IsSeatAt, desk_at, new_desks};
