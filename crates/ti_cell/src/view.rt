//! What a seat knows, the rule over all seats, and what each step shows.
use crate::look::Look;
use crate::parked::Parked;
use atomic_table::{Join, Play, Split, TableRule};
use std::collections::LinkedList;
use ti_types::{Entry, Limits, ThreadNo, Ticket};

/// Which thread a cell is about, and its limits.
#[derive(Clone, Copy, Debug)]
pub struct Subject {
    pub limits: Limits,
    pub thread: ThreadNo,
}

/// What a seat knows. It is for contracts only: no value of it is made.
pub struct View {
    /// The seat's number: 0 for the owner, `e + 1` for environment `e`.
    pub number: u32,
    /// The prefix of the history that the seat has seen.
    pub seen: LinkedList<Entry>,
    /// The entries that were made from this seat, the earliest first.
    pub mine: LinkedList<Entry>,
    /// What the seat's looks showed, the earliest first.
    pub looked: LinkedList<Look>,
    /// The tickets of this seat's calls that wait, or whose answers were not collected, the earliest posted first.
    pub posted: LinkedList<Ticket>,
    /// While the seat holds the cell: all such tickets, of all seats, as it found them.
    pub found: LinkedList<Ticket>,
    /// How often the seat took the cell.
    pub taken: u64,
    /// Whether the seat holds the cell.
    pub holds: bool,
    /// At the owner's seat, how many seats were made, itself among them.
    pub made: u32,
    /// At the owner's seat, what each seat that came back knew, in the order of their return.
    pub back: LinkedList<User>,
    /// Whether the seat came back to the owner's.
    pub gone: bool,
    pub subject: Subject,
}

/// What a user of the slot knows of it. It is for contracts only: no value of it is made.
pub struct User {
    /// The number of its seat.
    pub number: u32,
    pub seen: LinkedList<Entry>,
    pub mine: LinkedList<Entry>,
    pub looked: LinkedList<Look>,
    pub posted: LinkedList<Ticket>,
}

/// The rule of a cell: `CellInvariant` in `specs/Rule`.
pub struct CellRule;

impl TableRule<Option<Parked>, View, Subject> for CellRule {
    ghost use Rattle.ti_cell.specs.Rule.{CellInvariant};
    ghost use Rattle.ti_cell.specs.View.{newcomer};

    ghost holds = { CellInvariant };

    ghost first = { λ subject. newcomer subject 0 1 };
}

/// The lock bit is set, and the slot comes out.
pub struct Locks;

impl Play<Option<Parked>, View> for Locks {
    ghost use Rattle.ti_cell.specs.Rule.{locks};

    ghost then = { locks };
}

/// The slot is in, and the lock bit is cleared.
pub struct Frees;

impl Play<Option<Parked>, View> for Frees {
    ghost use Rattle.ti_cell.specs.Rule.{frees};

    ghost then = { frees };
}

/// The word is loaded.
pub struct Glances;

impl Play<Option<Parked>, View> for Glances {
    ghost use Rattle.ti_cell.specs.Rule.{glances};

    ghost then = { glances };
}

/// The owner makes a seat.
pub struct Seats;

impl Split<View> for Seats {
    ghost use Rattle.ti_cell.specs.View.{splitter, split_off};

    ghost left = { splitter };

    ghost right = { split_off };
}

/// A seat comes back to the owner.
pub struct Returns;

impl Join<View> for Returns {
    ghost use Rattle.ti_cell.specs.View.{rejoined, nobody};

    ghost both = { rejoined };

    ghost spent = { nobody };
}
