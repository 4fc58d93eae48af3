//! The seats at a cell: the owner's, and one for each environment.

use crate::parked::Parked;
use crate::role::{EnvRole, OwnerRole, Role};
use crate::view::View;
use atomic_table::Seat;
use std::marker::{Model, PhantomData};
use std::sync::Arc;
use ti_types::{Limits, ThreadNo};

/// A seat of the cell's table.
pub(crate) type Pass = Seat<Option<Parked>, View>;

/// The seat of the thread itself.
pub type OwnSeat = CellSeat<OwnerRole>;

/// The seat of an environment.
pub type EnvSeat = CellSeat<EnvRole>;

/// A seat of a cell, in the role `K`: what one user of the cell knows. It is moved to where its user runs.
///
/// At run time it has its number, its thread's number and limits, how many entries it has seen, and how many of its calls are
/// out. Contracts see it as its cell and a `View`.
#[derive(Drop)]
pub struct CellSeat<K: Role> {
    pub(crate) seat: Pass,
    /// The number of the seat: 0 for the owner, `e + 1` for environment `e`.
    pub(crate) number: u32,
    /// The number of the cell's thread.
    pub(crate) thread: ThreadNo,
    /// How many entries the seat has seen.
    pub(crate) count: usize,
    /// How many of its calls wait, or have an answer that is not collected.
    pub(crate) out: u32,
    /// The limits of the cell's thread, which all seats of the cell share.
    pub(crate) limits: Arc<Limits>,
    pub(crate) role: PhantomData<K>,
}

impl<K: Role> Model for CellSeat<K> {
    ghost use Rattle.std.specs.Prelude.{◌≡◌, ◌≤◌, [], true, false, length};
    ghost use Rattle.std.specs.Arc.{arc_value};
    ghost use Rattle.ti_replay.specs.Legal.{is_legal};
    ghost use Rattle.ti_replay.specs.Makers.{made_by};
    ghost use Rattle.ti_cell.specs.Seats.{Sitting};

    ghost Value = { Sitting };

    ghost view = { λ s. record { cell = s.seat.table_id; view = s.seat.me.0 } };

    ghost invariant = { λ s. (s.seat.me.1 ≡ []) × (s.seat.me.0.holds ≡ false) × (s.seat.me.0.gone ≡ false) × (is_legal s.seat.me.0.subject.limits s.seat.me.0.seen ≡ true) × (s.seat.me.0.mine ≡ made_by s.seat.me.0.number s.seat.me.0.seen) × (s.number ≡ s.seat.me.0.number) × (s.count ≡ length s.seat.me.0.seen) × (s.seat.me.0.found ≡ []) × (s.out ≡ length s.seat.me.0.posted) × (length s.seat.me.0.posted ≤ length s.seat.me.0.mine) × (s.thread ≡ s.seat.me.0.subject.thread) × K.sits s.seat.me.0.number s.seat.me.0.subject.limits.envs × (arc_value s.limits ≡ s.seat.me.0.subject.limits) };
}

impl<K: Role> CellSeat<K> {
    /// What is always true of a seat. It does not hold the cell, and has not come back. What was seen is a legal history.
    /// Its entries with the seat's number are exactly those made from the seat. No more of its calls are out than it made
    /// entries. Its number is one of its role: 0 is the owner's, and those up to the number of environments are theirs.
    pub fn facts(&self)
        ensures rests { (self.now.view.holds ≡ false) × (self.now.view.found ≡ []) }
        ensures there { self.now.view.gone ≡ false }
        ensures legal { is_legal self.now.view.subject.limits self.now.view.seen ≡ true }
        ensures mine { self.now.view.mine ≡ made_by self.now.view.number self.now.view.seen }
        ensures few { length self.now.view.posted ≤ length self.now.view.mine }
        ensures role { K.sits self.now.view.number self.now.view.subject.limits.envs }
    {
        let _ = &self.seat;
    }

    /// The number of the seat: 0 for the owner, `e + 1` for environment `e` (this profile).
    pub fn number(&self) -> u32
        ensures { result ≡ self.now.view.number }
    {
        self.number
    }

    /// The number of the thread whose cell it is (this profile).
    pub fn thread(&self) -> ThreadNo
        ensures { result ≡ self.now.view.subject.thread }
    {
        self.thread
    }

    /// The limits of the thread whose cell it is (this profile).
    pub fn limits(&self) -> Limits
        ensures { result ≡ self.now.view.subject.limits }
    {
        *self.limits
    }

    /// How many entries of the thread's history the seat has seen (this profile).
    pub fn seen_len(&self) -> usize
        ensures { result ≡ length self.now.view.seen }
    {
        self.count
    }

    /// How many of the seat's calls wait, or have an answer that is not collected (this profile).
    pub fn out(&self) -> u32
        ensures { result ≡ length self.now.view.posted }
    {
        self.out
    }
}

ghost use Rattle.std.specs.Prelude.{◌≡◌, ◌≤◌, [], true, false, length};
ghost use Rattle.ti_replay.specs.Legal.{is_legal};
ghost use Rattle.ti_replay.specs.Makers.{made_by};
