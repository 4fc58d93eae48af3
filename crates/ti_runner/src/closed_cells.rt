//! Takes all seats back, closes the cells, and collects the report.

use crate::agent_calls::Called;
use crate::fault::RunFault;
use crate::thread_walk::Walked;
use std::alloc::Global;
use ti_cell::EnvSeat;
use ti_handshake::SharedCell;
use ti_live::{Listed, LiveReport, Refusal, Reply};
use ti_types::Entry;

/// What the report has so far.
#[derive(Drop)]
pub(crate) struct Told {
    replies: Vec<Listed<Reply>>,
    refused: Vec<Listed<Refusal>>,
    histories: Vec<Listed<Entry>>,
    spent: bool,
}

impl Told {
    /// A report that has nothing yet.
    pub fn new(alloc: Global) -> Self {
        Told {
            replies: Vec::new(alloc),
            refused: Vec::new(alloc),
            histories: Vec::new(alloc),
            spent: false,
        }
    }

    /// The report of all that was collected.
    pub fn into_report(self) -> LiveReport {
        let Told {
            replies,
            refused,
            histories,
            spent,
        } = self;
        LiveReport {
            replies: Listed::from(replies),
            refused: Listed::from(refused),
            histories: Listed::from(histories),
            spent,
        }
    }
}

/// Gives one seat back to the owner's.
fn rejoin(cell: &SharedCell, done: &mut Walked, seat: EnvSeat)
    requires back { IsBack cell.now done.old.seat }
    requires seat { seat.cell ≡ cell.now }
    ensures back { IsBack cell.now done.new.seat }
{
    cell.rejoin(&mut done.seat, seat);
}

/// Gives the seats of an agent back to the threads' own.
fn rejoin_all(cells: &[SharedCell], walked: &mut [Walked], seats: Vec<EnvSeat>)
    requires back { AreBack cells.now walked.old }
    requires seats { seats_at seats.items ≡ cells.now }
    ensures { AreBack cells.now walked.new }
{
    let mut k = 0;
    for seat in seats {
        rejoin(&cells[k], &mut walked[k], seat);
        k += 1;
    }
}

/// Gives the seats of all agents back to the threads' own, and adds their replies to the report. `Memory` if memory runs
/// out.
pub(crate) fn give_back(
    cells: &[SharedCell],
    walked: &mut [Walked],
    called: Vec<Called>,
    told: &mut Told,
) -> Result<(), RunFault>
    requires back { AreBack cells.now walked.old }
    requires seats { All (λ c. seats_at c.seats.items ≡ cells.now) called.items }
    ensures { AreBack cells.now walked.new }
{
    for done in called {
        let Called {
            seats,
            replies,
            spent,
        } = done;
        rejoin_all(cells, walked, seats);
        told.spent = told.spent || spent;
        told.replies.push(Listed::from(replies))?;
    }
    Ok(())
}

/// Closes a cell, and adds its history and the refused operations to the report.
fn close(cell: SharedCell, done: Walked, told: &mut Told) -> Result<(), RunFault>
    requires { IsBack cell done.seat }
{
    let Walked {
        seat,
        refused,
        spent,
    } = done;
    told.spent = told.spent || spent;
    let Some(cell) = cell.into_cell() else {
        return Err(RunFault::Cell);
    };
    let Some(slot) = cell.close(seat) else {
        return Err(RunFault::Cell);
    };
    told.refused.push(Listed::from(refused))?;
    let Some(history) = slot.into_history() else {
        return Err(RunFault::Cell);
    };
    told.histories.push(Listed::from(history))?;
    Ok(())
}

/// Closes all cells, and adds what their threads left to the report. `Cell` if one cannot be closed or kept no history, and
/// `Memory` if memory runs out.
pub(crate) fn close_all(
    cells: Vec<SharedCell>,
    walked: Vec<Walked>,
    told: &mut Told,
) -> Result<(), RunFault>
    requires { AreBack cells.items walked.items }
{
    let mut cells = cells.into_iter();
    for done in walked {
        let Some(cell) = cells.next() else {
            return Err(RunFault::Cell);
        };
        close(cell, done, told)?;
    }
    Ok(())
}

ghost use Rattle.std.specs.Prelude.{◌≡◌, length};
ghost use Rattle.std.specs.List.{All};
ghost use Rattle.ti_runner.specs.Cells.{IsBack, AreBack, seats_at};
