//! What a clear poll says about the history, once the cell is closed.

use std::alloc::Global;
use std::sync::Wait;
use std::test::*;
use ti_cell::{OwnSeat, ThreadCell};
use ti_handshake::{Fresh, SharedCell};
use ti_slot::Slot;
use ti_types::{Limits, ThreadNo};

/// Starts the thread, polls by one load, and ends the thread. It gives whether the poll was clear, and the thread's seat.
fn poll_once<R: Wait>(rt: &R, fresh: Fresh) -> (bool, OwnSeat)
    ensures cell { result.1.cell ≡ fresh.cell }
    ensures polled { HasPolled result.0 result.1.view }
{
    fresh.facts();
    let mut running = fresh.start(rt);
    let clear = running.poll_clear();
    let ended = running.end(rt);
    (clear, ended.into_seat())
}

/// The slot of a cell whose thread polled. If that poll was clear, the history has a prefix after which nobody waited for
/// the thread, whoever else was at the cell.
fn finish(cell: ThreadCell, own: OwnSeat, clear: bool) -> Option<Slot>
    requires cell { own.cell ≡ cell }
    requires polled { HasPolled clear own.view }
    ensures calm { clear ≡ true → IfSome result (λ s. WasCalm s.limits s.history) }
{
    let _clear = clear;
    cell.close(own)
}

/// A thread starts, polls once and ends. It gives whether the poll was clear, and the slot. `None` if memory runs out.
fn polled_once<R: Wait>(rt: &R, alloc: Global, limits: Limits) -> Option<(bool, Slot)>
    ensures calm { IfSome result (λ s. s.0 ≡ true → WasCalm s.1.limits s.1.history) }
{
    let Ok((cell, fresh, desks)) = SharedCell::make(alloc, limits, ThreadNo(0)) else {
        return None;
    };
    drop(desks);
    let (clear, own) = poll_once(rt, fresh);
    let slot = finish(cell.into_cell()?, own, clear)?;
    Some((clear, slot))
}

/// No clause says that the poll is clear if nobody calls for the thread.
#[test]
fn a_poll_is_clear_if_nobody_waits(rt: HostRuntime) -> Result<(), Fail> {
    let Some(limits) = Limits::new(1, 1, 1, 1, 1) else {
        return Err("the limits are in range".into());
    };
    let Some((clear, slot)) = polled_once(&rt, rt.alloc(), limits) else {
        return Err("there is memory".into());
    };
    assert!(rt; clear && slot.len() == 2);
    Ok(())
}

ghost use Rattle.std.specs.Prelude.{◌≡◌, true, IfSome};
ghost use Rattle.ti_cell_tests.specs.ClearPolls.{HasPolled, WasCalm};
