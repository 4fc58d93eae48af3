//! The seats at a roster's cell.

use crate::parked::ParkedRoster;
use crate::view::RosterView;
use atomic_table::Seat;
use std::marker::Model;
use ti_types::{EnvNo, Limits};

/// A seat of the cell's table.
pub(crate) type Pass = Seat<Option<ParkedRoster>, RosterView>;

/// A user's right to hold the cell, with what this user has seen. Contracts see it as its cell and a `RosterView`.
#[derive(Drop)]
pub struct RosterSeat {
    pub(crate) seat: Pass,
    /// How much it has seen.
    pub(crate) count: u64,
    /// The environment whose seat it is, if it is one's.
    pub(crate) place: Option<EnvNo>,
    pub(crate) limits: Limits,
    /// Whether an environment hears of stops, as far as it has seen.
    pub(crate) watched: bool,
}

impl Model for RosterSeat {
    ghost use Rattle.std.specs.Prelude.{◌≡◌, [], false, length};
    ghost use Rattle.ti_stops.specs.Stops.{is_watched};
    ghost use Rattle.ti_roster.specs.Seats.{Sitting};
    ghost use Rattle.ti_roster.specs.Stops.{stops_of};

    ghost Value = { Sitting };

    ghost view = { λ s. record { cell = s.seat.table_id; view = s.seat.me.0 } };

    ghost invariant = { λ s. (s.seat.me.1 ≡ []) × (s.seat.me.0.holds ≡ false) × (s.count ≡ length s.seat.me.0.seen) × (s.place ≡ s.seat.me.0.place) × (s.limits ≡ s.seat.me.0.limits) × (s.watched ≡ is_watched (stops_of s.seat.me.0.seen)) };
}

impl RosterSeat {
    /// How much of what happened the seat has seen.
    pub fn seen_len(&self) -> u64
        ensures { result ≡ length self.now.view.seen }
    {
        self.count
    }

    /// The limits of all threads and environments.
    pub fn limits(&self) -> Limits
        ensures { result ≡ self.now.view.limits }
    {
        self.limits
    }

    /// The environment whose seat it is. `None` for any other user's.
    pub fn place(&self) -> Option<EnvNo>
        ensures { result ≡ self.now.view.place }
    {
        self.place
    }

    /// Whether an environment hears of breakpoints, single steps or pops of frames, as far as the seat has seen. If none does,
    /// no thread stops.
    pub fn is_watched(&self) -> bool
        ensures { result ≡ is_watched (stops_of self.now.view.seen) }
    {
        self.watched
    }
}

ghost use Rattle.std.specs.Prelude.{◌≡◌, length};
ghost use Rattle.ti_stops.specs.Stops.{is_watched};
ghost use Rattle.ti_roster.specs.Stops.{stops_of};
