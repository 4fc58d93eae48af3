//! What a seat knows, the rule over all seats, and what each step tells.
use crate::coming::Coming;
use crate::parked::ParkedRoster;
use atomic_table::{Play, Split, TableRule};
use std::collections::LinkedList;
use ti_types::{EnvNo, Limits};

/// What a seat knows. It is for contracts alone: no value of it is made.
pub struct RosterView {
    /// The limits of all threads and environments.
    pub limits: Limits,
    /// A prefix of what happened, which was seen.
    pub seen: LinkedList<Coming>,
    /// What had happened when the seat last took the cell. What follows in `seen` is its own.
    pub found: LinkedList<Coming>,
    /// How much had happened at each look of the seat, the earliest first.
    pub looked: LinkedList<u64>,
    /// How often the seat took the cell.
    pub taken: u64,
    /// How many seats were made from it.
    pub made: u64,
    /// Whether the seat holds the cell.
    pub holds: bool,
    /// The environment whose seat it is.
    pub place: Option<EnvNo>,
}

/// The rule of a cell: `RosterInvariant` in `specs/Rule`.
pub struct RosterRule;

impl TableRule<Option<ParkedRoster>, RosterView, Limits> for RosterRule {
    ghost use Rattle.ti_roster.specs.Rule.{RosterInvariant};
    ghost use Rattle.ti_roster.specs.View.{first_view};

    ghost holds = { RosterInvariant };

    ghost first = { first_view };
}

/// The lock bit is set, and the roster comes out.
pub struct Locks;

impl Play<Option<ParkedRoster>, RosterView> for Locks {
    ghost use Rattle.ti_roster.specs.Rule.{locks};

    ghost then = { locks };
}

/// The roster is in, and the lock bit is cleared.
pub struct Frees;

impl Play<Option<ParkedRoster>, RosterView> for Frees {
    ghost use Rattle.ti_roster.specs.Rule.{frees};

    ghost then = { frees };
}

/// The word is loaded.
pub struct Glances;

impl Play<Option<ParkedRoster>, RosterView> for Glances {
    ghost use Rattle.ti_roster.specs.Rule.{glances};

    ghost then = { glances };
}

/// A seat makes another.
pub struct Splits;

impl Split<RosterView> for Splits {
    ghost use Rattle.ti_roster.specs.View.{split_off, splitter};

    ghost left = { splitter };

    ghost right = { split_off };
}
