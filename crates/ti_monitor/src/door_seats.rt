//! The connections of a door, by number.

use crate::door_error::DoorError;
use crate::door_seat::Seat;

/// Connections at once, at most.
pub const MOST_CONNECTIONS: usize = 16;

/// An open connection, by its number from 0 to 15. A number is used again once its connection is closed.
#[derive(Clone, Copy, Debug, PartialEq, Eq)]
pub struct ConnNo(pub u32);

/// The connections that are open.
#[derive(Drop)]
pub(crate) struct Seats {
    pub(crate) list: Vec<Option<Seat>>,
    ghost few: { length list.items ≤ 16 },
}

impl Seats {
    /// No connection.
    pub(crate) fn new(list: Vec<Option<Seat>>) -> Seats
        requires { list.items ≡ [] }
        ensures { result.list.items ≡ [] }
    {
        Seats { list }
    }

    /// Takes a connection out, so that it can be put back.
    pub(crate) fn take(&mut self, conn: ConnNo) -> Option<Seat>
        ensures was { seat_at self.old.list.items conn.0 ≡ result }
        ensures within { IfSome result (λ s. conn.0 < length self.new.list.items) }
        ensures taken { self.new.list.items ≡ without self.old.list.items conn.0 }
    {
        let place = conn.0 as usize;
        if place < self.list.len() {
            self.list[place].take()
        } else {
            None
        }
    }

    /// Puts a connection at a number.
    pub(crate) fn put(&mut self, conn: ConnNo, seat: Seat)
        requires { conn.0 < length self.old.list.items }
        ensures { self.new.list.items ≡ slice_set self.old.list.items conn.0 (Some seat) }
    {
        self.list[conn.0 as usize] = Some(seat);
    }

    /// The connection of a number, if it is open.
    pub(crate) fn get(&self, conn: ConnNo) -> Option<&Seat>
        ensures { option_copied result ≡ seat_at self.now.list.items conn.0 }
    {
        let place = conn.0 as usize;
        if place < self.list.len() {
            self.list[place].as_ref()
        } else {
            None
        }
    }

    /// A number that no connection has, if there is one below the number of places.
    pub(crate) fn free(&self) -> Option<ConnNo>
        ensures free { IfSome result (λ c. (c.0 < length self.now.list.items) × (seat_at self.now.list.items c.0 ≡ None)) }
        ensures none { IfNone result (count_by is_some self.now.list.items ≡ length self.now.list.items) }
    {
        for place in 0..self.list.len() {
            if self.list[place].is_none() {
                return Some(ConnNo(place as u32));
            }
        }
        None
    }

    /// Whether there are as many places as there may be.
    pub(crate) fn is_full(&self) -> bool
        ensures full { OnTrue result (length self.now.list.items ≡ 16) }
        ensures room { OnFalse result (length self.now.list.items < 16) }
    {
        self.list.len() >= MOST_CONNECTIONS
    }

    /// Opens a connection at a new number. The error is lack of memory. Then nothing has changed.
    pub(crate) fn add(&mut self, seat: Seat) -> Result<ConnNo, DoorError>
        requires { length self.old.list.items < 16 }
        ensures added { IfOk result (λ c. (c.0 ≡ length self.old.list.items) × (c.0 < 16) × (self.new.list.items ≡ self.old.list.items ++ Some seat ∷ [])) }
        ensures memory { IfErr result (λ e. e ≡ OutOfMemory) }
        ensures same { OnErr result (self.new.list.items ≡ self.old.list.items) }
    {
        let place = self.list.len();
        match self.list.push(Some(seat)) {
            Ok(()) => Ok(ConnNo(place as u32)),
            Err(_) => Err(DoorError::OutOfMemory),
        }
    }

    /// How many connections are open.
    pub(crate) fn count(&self) -> u64
        ensures { result ≡ count_by is_some self.now.list.items }
    {
        let mut count = 0;
        for seat in &self.list {
            if seat.is_some() {
                count += 1;
            }
        }
        count
    }

    /// Whether a connection closes to make room.
    pub(crate) fn is_any_leaving(&self) -> bool {
        for seat in &self.list {
            if let Some(seat) = seat {
                if seat.is_leaving() {
                    return true;
                }
            }
        }
        false
    }

    /// The connection that has been idle for longest.
    pub(crate) fn longest_idle(&self) -> Option<ConnNo> {
        let mut found: Option<(ConnNo, u64)> = None;
        for place in 0..self.list.len() {
            if let Some(seat) = &self.list[place] {
                if let Some(until) = seat.idle_until() {
                    let conn = ConnNo(place as u32);
                    found = match found {
                        Some((earlier, first)) if first <= until => Some((earlier, first)),
                        _ => Some((conn, until)),
                    };
                }
            }
        }
        match found {
            Some((conn, _)) => Some(conn),
            None => None,
        }
    }

    /// When a connection has to be looked at again, 2^64 - 1 if none has.
    pub(crate) fn deadline(&self) -> u64 {
        let mut deadline = u64::MAX;
        for seat in &self.list {
            if let Some(seat) = seat {
                if let Some(due) = seat.deadline() {
                    deadline = deadline.min(due);
                }
            }
        }
        deadline
    }
}

ghost use Rattle.std.specs.Prelude.{◌≡◌, ◌≤◌, ◌<◌, ◌++◌, [], ◌∷◌, None, Some, is_some, length, slice_set, IfErr, IfNone, IfOk, IfSome, OnErr};
ghost use Rattle.std.specs.Bool.{OnTrue, OnFalse};
ghost use Rattle.std.specs.List.{count_by};
ghost use Rattle.std.specs.Option.{option_copied};
ghost use Rattle.ti_monitor.specs.declared.door_error.DoorError.TheVariants.{OutOfMemory};
ghost use Rattle.ti_monitor.specs.SeatLists.{seat_at, without};
