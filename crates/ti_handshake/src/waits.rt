//! How a call waits for news of a cell without holding it: it looks and pauses, and later it sleeps.

use crossbeam_utils::Backoff;
use std::rt::Clock;
use std::sync::Wait;
use std::time::{Duration, Instant};
use ti_cell::{CellSeat, OwnSeat, Role, ThreadCell};

/// After this many looks a waiting call sleeps. Between them it makes 1, 2, 4 up to 64 pauses, and then 64 each time: 1,215
/// in all. That takes some 6 microseconds if a pause takes 4.5 ns, and 70 if it takes 56 ns.
///
/// It does not yield its processor between them. If the thread that it waits for shares the processor, that one would keep
/// it until its time is over, for some milliseconds. A sleeper is woken at once, on another processor if one is not_running.
const LOOKS: u32 = 24;

/// Looks until the thread's history has entries that the seat has not seen. Before that a hold would find what the last one
/// found. After `LOOKS` looks it sleeps between them, until somebody stores.
pub fn await_news<K: Role, R: Wait>(rt: &R, cell: &ThreadCell, seat: &mut CellSeat<K>)
    requires cell { seat.old.cell ≡ cell.now }
    ensures cell { seat.new.cell ≡ seat.old.cell }
    ensures news { SawNews seat.old.view seat.new.view }
{
    let backoff = Backoff::new();
    let mut looks: u32 = 0;
    for _ in rt.forever() {
        let look = cell.look(seat);
        if look.count > seat.seen_len() as u64 {
            return;
        }
        if looks < LOOKS {
            looks += 1;
            backoff.spin();
        } else {
            cell.sleep_without_news(rt, seat);
        }
    }
    unreachable!()
}

/// How long to wait, and since when.
#[derive(Clone, Copy)]
pub struct Deadline {
    began: Option<Instant>,
    time: Duration,
}

impl Deadline {
    /// A deadline this time from now. If the clock can't be read, it is over at once.
    pub fn after<R: Clock>(rt: &R, time: Duration) -> Deadline {
        Deadline {
            began: Instant::now(rt).ok(),
            time,
        }
    }

    /// How much time is left. `None` if the deadline is over, or the clock can't be read.
    fn left<R: Clock>(&self, rt: &R) -> Option<Duration> {
        let spent = self.began?.elapsed(rt).ok()?;
        self.time.checked_sub(spent)
    }
}

/// The same as `await_news`, but it waits only until the deadline. Returns whether there are such entries. If there are
/// none, nothing but looks was done.
pub fn await_news_until<K: Role, R: Wait + Clock>(
    rt: &R,
    cell: &ThreadCell,
    seat: &mut CellSeat<K>,
    deadline: &Deadline,
) -> bool
    requires cell { seat.old.cell ≡ cell.now }
    ensures cell { seat.new.cell ≡ seat.old.cell }
    ensures looks { (looks : List Look) × (seat.new.view ≡ with_looks seat.old.view looks) }
    ensures news { result ≡ true → SawNews seat.old.view seat.new.view }
{
    let backoff = Backoff::new();
    let mut looks: u32 = 0;
    for _ in rt.forever() {
        let look = cell.look(seat);
        if look.count > seat.seen_len() as u64 {
            return true;
        }
        if looks < LOOKS {
            looks += 1;
            backoff.spin();
        } else {
            match deadline.left(rt) {
                Some(time) => cell.sleep_without_news_for(rt, seat, time),
                None => return false,
            }
        }
    }
    unreachable!()
}

/// The same for a thread that was refused because it is barred. It looks until the thread is not barred, which is news.
/// Entries that leave the thread barred do not wake it.
pub fn await_unbarred<R: Wait>(rt: &R, cell: &ThreadCell, seat: &mut OwnSeat)
    requires cell { seat.old.cell ≡ cell.now }
    ensures cell { seat.new.cell ≡ seat.old.cell }
    ensures news { SawNews seat.old.view seat.new.view }
{
    let backoff = Backoff::new();
    let mut looks: u32 = 0;
    for _ in rt.forever() {
        let look = cell.look(seat);
        if !look.barred && look.count > seat.seen_len() as u64 {
            return;
        }
        if looks < LOOKS {
            looks += 1;
            backoff.spin();
        } else {
            cell.sleep_while_barred(rt);
        }
    }
    unreachable!()
}

ghost use Rattle.std.specs.Prelude.{◌≡◌, List, true};
ghost use Rattle.ti_cell.specs.declared.look.Look.{Look};
ghost use Rattle.ti_handshake.specs.Call.{SawNews, with_looks};
